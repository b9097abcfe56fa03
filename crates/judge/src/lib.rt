// Judge: whether a list does its work on a target, or which entry would survive it.
#![tactic(auto)]

mod search;
mod verdict;

pub use verdict::judge;
