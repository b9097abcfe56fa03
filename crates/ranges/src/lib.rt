// Ranges: which addresses an operand covers, and what an operation asks for.
#![tactic(auto)]

mod length;
mod multiple;
mod range;
mod register;

pub use range::ranged;
pub use register::{asked, is_two_ranges};
