// What the calls answer, as C gets it: a number, and the words of a record. What an answer does not name is 0.
#![tactic(auto)]

mod entry;
mod numbers;
mod operand;
mod operation;
mod table;

pub use numbers::{built_number, decoded_number, judged_number, number_of};
pub use operand::{read_words, written_words};
pub use operation::{built_words, decoded_words};
pub use table::{
    executed_words, found, inserted_words, judged_words, looked_up_words, ran_words, slot_words,
};
