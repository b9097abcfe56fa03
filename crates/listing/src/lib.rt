// The listing of A64 code: the text of its operations, a line each, and the tail line.
#![tactic(auto)]

mod code;

pub use code::{Listed, list_code, list_tail};
