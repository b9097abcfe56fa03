// C's records of plain integers, and what the calls are given for them. A value that a field cannot have is refused, or becomes one that breaks a rule of
// the calls.
#![tactic(auto)]

mod entry;
mod number;
mod operand;
mod operation;
mod state;
mod target;

pub use entry::{CompanyRecord, EntryRecord};
pub use number::is_regime;
pub use operand::{FieldsRecord, ToldRecord, told_in};
pub use operation::OperationRecord;
pub use state::StateRecord;
pub use target::TargetRecord;
