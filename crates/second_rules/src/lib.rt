// The processor state's rules and the access rules, as ladders in the order of the requirements.
#![tactic(auto)]

mod access;
mod bad;
mod domains;
mod names;
mod numbers;
mod reach;
mod regimes;
mod security;
mod traps;

pub use access::outcome;
pub use bad::is_bad;
pub use regimes::{unit_64k, vmid_of};
pub use security::security_of;
