// Tags: a slot's base and tag written from an entry, and read as one.
#![tactic(auto)]

mod end;
mod number;
mod passing;
mod slot;
mod tag;

pub use end::{end_at, end_of};
pub use number::{flag, regime_at, regime_number, security_at, security_number};
pub use passing::past_others;
pub use slot::{entry_at, is_entry, is_rest, span_at};
pub use tag::{company_tag, legal_tag, placed_tag, same_company};
