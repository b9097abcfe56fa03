// The public calls, each with its promise.
#![tactic(auto)]

mod entry_points;

pub use entry_points::{
    build, decode, execute, insert, judge, list, look_up, read_operand, read_slot, run, tail,
    write_operand,
};
