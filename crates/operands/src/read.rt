// The reader of operands.
ghost use Rattle.std.specs.Prelude.{◌/◌, ◌%◌, ◌^◌, ◌<◌, cond, ◌≡◌};
ghost use Rattle.machine.specs.Operand.{Within, operand_of};

use crate::base::{address_of, base_in};
use crate::form::{has_asid, has_ns};
use crate::granule::Granule;
use crate::hint::hint_of;
use machine::{Operand, Refusal, Told};
use std::marker::Model;

// The fields of an operand that was read: they fit their places, and mean a range.
#[derive(Clone, Copy)]
pub struct RangeFields {
    operand: Operand,
}

impl Model for RangeFields {
    ghost use Rattle.machine.specs.Operand.{Within};
    ghost use Rattle.machine.specs.declared.operand.Operand.{Operand};

    ghost Value = { Operand };

    ghost view = { λ a. a.operand };

    ghost invariant = { λ a. Within a.operand };

    ghost inverse = { λ o. record { operand = o } };
}

impl RangeFields {
    pub fn operand(self) -> Operand
        ensures same { result ≡ self }
        ensures within { Within result }
    {
        self.operand
    }
}

// A field of so many values, or 0 where the form lacks it: the book's `asid_in` and `ns_in` say 0, and not None.
fn field_if(has: bool, xt: u64, low: u64, values: u64) -> u64
    requires { (low < 64) × (0 < values) }
    ensures { result ≡ cond has (xt / 2 ^ low % values) 0 }
{
    if has { (xt >> low) % values } else { 0 }
}

#[tactic(auto, unfolding(machine::specs::Operand::operand_of, machine::specs::Operand::hint_of))]
pub fn read_fields(told: Told, xt: u64, xt2: u64) -> Result<RangeFields, Refusal>
    ensures { result ≡ operand_of told xt xt2 }
{
    let tg = (xt >> 46) % 4;
    let granule = Granule::of(tg).ok_or(Refusal::NoGranule)?;
    let base = address_of(told, granule, base_in(told.tlbip, xt, xt2));
    let operand = Operand {
        asid: field_if(has_asid(told.form), xt, 48, 0x10000),
        ns: field_if(has_ns(told.form), xt, 63, 2),
        tg,
        scale: (xt >> 44) % 4,
        num: (xt >> 39) % 32,
        ttl: hint_of(told.lpa2, tg, (xt >> 37) % 4),
        base,
    };
    Ok(RangeFields { operand })
}

pub fn read_operand(told: Told, xt: u64, xt2: u64) -> Result<Operand, Refusal>
    ensures { result ≡ operand_of told xt xt2 }
{
    Ok(read_fields(told, xt, xt2)?.operand())
}
