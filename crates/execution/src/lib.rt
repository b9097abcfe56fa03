// Execute: what one operation does to a table.
#![tactic(auto)]

mod single;

pub use single::{carry_out, execute};
