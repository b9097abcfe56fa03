// The second model's operands, entries, tables, execution and judging, read off the requirements a second time, to be compared.
// Its functions take a state, an operand's words or a step and an entry apart, as the requirements' sentences name them.
#![tactic(auto)]

mod asids;
mod bases;
mod bits;
mod entry;
mod execution;
mod gap;
mod going;
mod judging;
mod numbers;
mod operand;
mod range;
mod span;
mod step;
mod survivors;
mod table;
mod tag;
mod target;

pub use execution::{execute, run};
pub use judging::judge;
pub use operand::{read, write};
pub use survivors::Contradiction;
pub use table::{insert, look_up};
pub use tag::slot_at;
