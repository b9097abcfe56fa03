// The processor state: its check, and what follows from its fields.
#![tactic(auto)]

mod board;
mod check;
mod el2;
mod security;
mod unit;

pub use board::{domain_at, is_one_domain, number_of};
pub use check::is_bad;
pub use el2::{el2_enabled, hcrx_live, vmid_in};
pub use security::{is_secure, security_in};
pub use unit::is_unit_64k;
