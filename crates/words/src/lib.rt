// Instruction words: the operation word type with `read` and `build`, the row of op1, CRm and op2, and odd pairs.
#![tactic(auto)]

mod numbers;
mod pair;
mod row;
mod word;

pub use numbers::family_of;
pub use pair::is_odd_pair;
pub use row::row_of;
pub use word::OperationWord;
