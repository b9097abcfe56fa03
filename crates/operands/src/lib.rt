// Operands: the fields of register words, read and written. Xt and Xt2 stay two parameters, as the public calls and
// the book's definitions take them, and so do what a writer is told and its fields.
#![tactic(auto)]

mod base;
mod form;
mod granule;
mod hint;
mod read;
mod write;

pub use granule::in_bytes;
pub use read::{RangeFields, read_fields, read_operand};
pub use write::write_operand;
