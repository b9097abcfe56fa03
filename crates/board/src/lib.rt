// The C interface: include/chickadoor.h declares these functions, and the crate board_c exports them.
#![tactic(auto)]

mod lists;
mod on_operands;
mod on_tables;
mod on_words;

pub use lists::{chickadoor_judge, chickadoor_list, chickadoor_run, chickadoor_tail};
pub use on_operands::{chickadoor_read_operand, chickadoor_write_operand};
pub use on_tables::{
    chickadoor_execute, chickadoor_insert, chickadoor_look_up, chickadoor_read_slot,
};
pub use on_words::{chickadoor_build, chickadoor_decode};
