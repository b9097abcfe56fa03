// Instruction words and the listing's text, read off tables that are searched.
// The second model says again what the rooms say, in another style: it is there to be compared with them.
#![tactic(auto)]

mod line;
mod listing;
mod named;
mod room;
mod rows;
mod spelling;
mod word;

pub use listing::{list, list_text};
pub use named::Named;
pub use word::{decode, encode};
