// Span exponents by width, granule and level.
ghost use Rattle.std.specs.Prelude.{◌+◌, ◌*◌, ◌-◌, ◌≤◌, true, cond, ◌≡◌};
ghost use Rattle.machine.specs.Operand.{granule_exponent};
ghost use Rattle.machine.specs.Span.{is_level, exponent_at, exponent_of, has_span};

use crate::level::{height_of, is_level};

// The bits of an address that one level decides.
fn index_bits(wide: bool, tg: u64) -> u64
    requires { tg ≤ 3 }
    ensures { (result ≡ granule_exponent tg - cond wide 4 3) × (result ≤ 13) }
{
    if wide { 2 * tg + 6 } else { 2 * tg + 7 }
}

#[tactic(auto, unfolding(machine::specs::Span::exponent_at))]
pub fn exponent_at(wide: bool, tg: u64, height: u64) -> u64
    requires { (tg ≤ 3) × (height ≤ 7) }
    ensures { (result ≡ exponent_at wide tg height) × (result ≤ 16 + 13 * height) }
{
    let bits = index_bits(wide, tg);
    10 + 2 * tg + bits * height
}

#[tactic(auto, unfolding(machine::specs::Span::is_level, machine::specs::Span::exponent_of))]
pub fn exponent_of(wide: bool, tg: u64, level: i8) -> u64
    requires { (tg ≤ 3) × (is_level level ≡ true) }
    ensures { (result ≡ exponent_of wide tg level) × (result ≤ 68) }
{
    let height = height_of(level);
    exponent_at(wide, tg, height)
}

#[tactic(auto, unfolding(machine::specs::Span::has_span))]
pub fn has_span(wide: bool, tg: u64, level: i8) -> bool
    ensures { result ≡ has_span wide tg level }
{
    matches!(tg, 1..=3) && is_level(level) && exponent_of(wide, tg, level) <= 54
}
