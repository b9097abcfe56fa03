// Levels and their spans. Exponents, TGs and levels come as plain numbers, as entries, tags and operands hold them:
// a type for each would be made and taken apart at every call.
#![tactic(auto)]

mod exponent;
mod level;
mod span;

pub use exponent::{exponent_at, exponent_of, has_span};
pub use level::{height_of, is_level};
pub use span::{bit_of, in_span, is_multiple, size};
