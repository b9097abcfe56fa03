// Run: every step of a list in order, or nothing.
#![tactic(auto)]

mod refusal;
mod running;

pub use refusal::first_refused;
pub use running::run;
