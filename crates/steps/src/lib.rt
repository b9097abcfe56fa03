// Steps: what the works of a list's steps say together: which are of another company, what all reach and some use.
#![tactic(auto)]

mod checks;
mod steps;

pub use checks::{Checked, unchecked, with_step};
pub use steps::no_work;
