// Regimes, security states, levels and flags as the numbers that a tag holds.
ghost use Rattle.std.specs.Prelude.{◌<◌, ◌≡◌, pos, ◌-ℤ◌};
ghost use Rattle.laws.specs.Bits.{bits};
ghost use Rattle.machine.specs.Tag.{regime_number, security_number, flag, regime_at, security_at};

use machine::{Regime, Security};

pub fn regime_number(regime: Regime) -> u64
    ensures { (result ≡ regime_number regime) × (result < 4) }
{
    regime as u64
}

pub fn security_number(security: Security) -> u64
    ensures { (result ≡ security_number security) × (result < 4) }
{
    security as u64
}

pub fn flag(set: bool) -> u64
    ensures { (result ≡ flag set) × (result < 2) }
{
    u64::from(set)
}

// Two functions, and no generic one: a trait would hold the same two tables.
// No TryFrom: every number has a regime and a security state, those above 3 the last, as the callers' definitions say.
pub fn regime_at(number: u64) -> Regime
    ensures { result ≡ regime_at number }
{
    match number {
        0 => Regime::EL10,
        1 => Regime::EL20,
        2 => Regime::EL2,
        _ => Regime::EL3,
    }
}

pub fn security_at(number: u64) -> Security
    ensures { result ≡ security_at number }
{
    match number {
        0 => Security::Secure,
        1 => Security::NonSecure,
        2 => Security::Realm,
        _ => Security::Root,
    }
}

// 3 minus the height, which stands in three bits of a tag.
pub fn level_at(tag: u64) -> i8
    ensures { result ≡ pos 3 -ℤ pos (bits 48 46 tag) }
{
    3 - ((tag / 0x400000000000 % 8) as i8)
}
