// Insert: an entry into the lowest empty slot.
#![tactic(auto)]

mod insert;

pub use insert::{insert_entry, refuse_entry};
