// Entries: the companies they can have, the addresses in their reach, and their spans.
#![tactic(auto)]

mod company;
mod reach;
mod span;

pub use company::{has_asids, is_company};
pub use reach::in_reach;
pub use span::span_of;
