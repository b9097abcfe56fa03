// Inputs for comparing: states, words, operands, slots, lists and targets, drawn from a seed or placed at a corner of a rule.
#![tactic(auto)]

mod exponents;
mod filling;
mod going;
mod legal;
mod lists;
mod numbers;
mod operations;
mod seeds;
mod slots;
mod states;
mod steps;
mod targets;
mod turns;
mod works_made;

pub use filling::{fill, fill_taken, words_of};
pub use legal::{broken, legal_address, legal_entry};
pub use lists::{plan_of, put_list, step_at};
pub use numbers::{form_at, name_at, regime_at, regime_number, security_number, share_at};
pub use operations::{damaged, given, operation_for, word_of};
pub use seeds::{below, draw, flip, number16, once_in, power, small};
pub use slots::{SlotWords, senseless, slot_of};
pub use states::{fair_state, good_state, state_at};
pub use steps::{Parts, Step, field_for, number_for, step_for, step_of};
pub use targets::{any_target, missed_target, target_for};
pub use works_made::{Aim, aim_of, any_work, work_of};
