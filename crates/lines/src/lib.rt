// Lines: the text of one operation in a listing.
#![tactic(auto)]

mod line;

pub use line::put_line;
