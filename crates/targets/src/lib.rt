// The targets of a judgement: which break no rule.
#![tactic(auto)]

mod rules;

pub use rules::is_target;
