// Tables of slots: the shape of tables and lists, look up, and a slot read back.
#![tactic(auto)]

mod lookup;
mod reading;
mod shape;

pub use lookup::look_up;
pub use reading::read_slot;
pub use shape::{is_list, is_table};
