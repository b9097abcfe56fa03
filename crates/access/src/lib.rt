// The access rules: what happens when a state runs an operation, and the scope of one that runs.
#![tactic(auto)]

mod decision;

pub use decision::decide;
