// The three granules.
ghost use Rattle.std.specs.Prelude.{◌+◌, ◌*◌, ◌^◌, ◌≤◌, ◌<◌, ◌≡◌, Some, None, cond};
ghost use Rattle.machine.specs.Operand.{is_granule, granule_exponent, unit_exponent};

use std::marker::Model;

// A granule by its TG, which is 1 to 3.
#[derive(Clone, Copy)]
pub struct Granule {
    tg: u64,
}

impl Model for Granule {
    ghost use Rattle.std.specs.Prelude.{ℕ, ◌≤◌, ◌<◌};

    ghost Value = { ℕ };

    ghost view = { λ g. g.tg };

    ghost invariant = { λ g. (1 ≤ g.tg) × (g.tg < 4) };

    ghost inverse = { λ tg. record { tg = tg } };
}

impl Granule {
    // The only way to one: the test itself.
    pub fn of(tg: u64) -> Option<Granule>
        ensures { result ≡ cond (is_granule tg) (Some tg) None }
    {
        if matches!(tg, 1..=3) {
            Some(Granule { tg })
        } else {
            None
        }
    }

    // Its size is a power of two.
    pub fn exponent(self) -> u64
        ensures { (result ≡ granule_exponent self) × (12 ≤ result) × (result ≤ 16) }
    {
        10 + 2 * self.tg
    }

    // The unit of a TLBI base.
    pub fn unit_exponent(self, unit64k: bool) -> u64
        ensures { (result ≡ unit_exponent unit64k self) × (12 ≤ result) × (result ≤ 16) }
    {
        if unit64k { 16 } else { self.exponent() }
    }
}

// A number of so many bits in units of 2^exponent bytes.
pub fn in_units(bits: u64, exponent: u64, number: u64) -> u64
    requires { (number < 2 ^ bits) × (bits + exponent < 64) }
    ensures { (result ≡ number * 2 ^ exponent) × (number ≤ result) × (result < 2 ^ (bits + exponent)) }
{
    number << exponent
}

// It takes a TG, and no Granule: docs/DECISIONS.md names what it asks for, and a type would ask more of callers.
// So many granules of a TG, in bytes.
pub fn in_bytes(tg: u64, granules: u64) -> u64
    requires { (1 ≤ tg) × (tg < 4) × (granules < 2 ^ 37) }
    ensures { (result ≡ granules * 2 ^ granule_exponent tg) × (granules ≤ result) × (result < 2 ^ (37 + granule_exponent tg)) }
{
    in_units(37, 10 + 2 * tg, granules)
}
