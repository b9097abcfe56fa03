// The base as a field of an operand and as an address.
ghost use Rattle.std.specs.Prelude.{◌+◌, ◌-◌, ◌/◌, ◌%◌, ◌^◌, ◌≤◌, ◌<◌, cond, ◌≡◌};
ghost use Rattle.laws.specs.Bits.{down};
ghost use Rattle.machine.specs.Operand.{granule_exponent, extend, address_of, field_of, base_in};

use crate::form::copies_top;
use crate::granule::{Granule, in_units};
use machine::Told;

// The copies of the top bit of an address of so many bits.
#[tactic(auto, using(crate::proofs::Shifts::ones_above))]
fn copies_above(bits: u64) -> u64
    requires { bits < 64 }
    ensures { result ≡ 2 ^ 64 - 2 ^ bits }
{
    u64::MAX << bits
}

// A field of so many bits in units of 2^exponent bytes, as an address.
fn extend(bits: u64, exponent: u64, copied: bool, field: u64) -> u64
    requires { (1 ≤ bits) × (field < 2 ^ bits) × (bits + exponent < 64) }
    ensures { result ≡ extend bits exponent copied field }
{
    let address = in_units(bits, exponent, field);
    if copied && 1 << (bits - 1) <= field {
        address + copies_above(bits + exponent)
    } else {
        address
    }
}

// A field in units of 4 KiB without what is below the granule.
fn whole_granules(granule: Granule, field: u64) -> u64
    ensures { (result ≡ down (granule_exponent granule - 12) field) × (result ≤ field) }
{
    let below = granule.exponent() - 12;
    field >> below << below
}

#[tactic(auto, unfolding(machine::specs::Operand::address_of))]
pub fn address_of(told: Told, granule: Granule, field: u64) -> u64
    requires { field < 2 ^ cond told.tlbip 44 37 }
    ensures { result ≡ address_of told granule field }
{
    let copied = copies_top(told.form);
    if told.tlbip {
        extend(44, 12, copied, whole_granules(granule, field))
    } else {
        extend(37, granule.unit_exponent(told.unit64k), copied, field)
    }
}

// The field that holds an address, where it can.
#[tactic(auto, unfolding(machine::specs::Operand::field_of))]
pub fn field_of(told: Told, granule: Granule, address: u64) -> u64
    ensures { (result ≡ field_of told granule address) × (result < 2 ^ cond told.tlbip 44 37) }
{
    if told.tlbip {
        (address >> 12) % 0x100000000000
    } else {
        (address >> granule.unit_exponent(told.unit64k)) % 0x2000000000
    }
}

// The base field of two words.
pub fn base_in(tlbip: bool, xt: u64, xt2: u64) -> u64
    ensures { (result ≡ base_in tlbip xt xt2) × (result < 2 ^ cond tlbip 44 37) }
{
    if tlbip {
        xt2 % 0x100000000000
    } else {
        xt % 0x2000000000
    }
}
