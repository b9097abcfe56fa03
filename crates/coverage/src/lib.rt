// Coverage: the places of a target, and how far a step covers them.
#![tactic(auto)]

mod asids;
mod cover;
mod place;
mod processors;

pub use asids::named_asid;
pub use cover::is_taken;
pub use place::{entry_in, is_asked, leaf_at, level_at};
pub use processors::searched_of;
