// Traps: what bars an operation in a state, and what traps it to EL2.
#![tactic(auto)]

mod rules;

pub use rules::{is_barred, is_trapped, trap};
