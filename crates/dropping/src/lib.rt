// Dropping: one pass over a table, which clears the entries that go.
#![tactic(auto)]

mod slots;

pub use slots::drop_all;
