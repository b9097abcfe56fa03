// The book's plain types: an operation, the processor state, an operand, an entry, the work of an operation, a target, and why a call does nothing.
#![tactic(auto)]

mod entry;
mod judge;
mod operand;
mod operation;
mod processor;
mod refusal;
mod scope;
mod table;
mod work;

pub use entry::{Company, Entry};
pub use judge::{Objection, Target};
pub use operand::{Form, Operand, Range, Told};
pub use operation::{Family, Name, Operation, Share};
pub use processor::{Board, Ds, Features, Flags, Hcr, Hcrx, Present, Scr, State, Traps};
pub use refusal::Refusal;
pub use scope::{Regime, Scope, Security};
pub use table::Match;
pub use work::Work;
