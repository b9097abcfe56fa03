// The work of an operation: what a word and its registers come to in a state, and which entries go.
#![tactic(auto)]

mod going;
mod held;
mod resolution;

pub use going::goes;
pub use held::held_in;
pub use resolution::resolve;
