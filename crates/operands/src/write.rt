// The writer of operands.
ghost use Rattle.std.specs.Prelude.{◌+◌, ◌*◌, ◌^◌, ◌≤◌, ◌<◌, true, false, cond, ltb, eqb, ◌&&◌, ◌≡◌};
ghost use Rattle.machine.specs.Operand.{field_of, is_granule, is_shown, is_writable, xt_of, words_of};

use crate::base::{address_of, field_of};
use crate::form::{has_asid, has_ns};
use crate::granule::Granule;
use crate::hint::reads_as_zero;
use machine::{Operand, Refusal, Told};

// A field that the form lacks is 0.
fn fits(has: bool, values: u64, value: u64) -> bool
    ensures { result ≡ cond has (ltb value values) (eqb value 0) }
{
    if has { value < values } else { value == 0 }
}

// The fields fit, and only TG and the base are left to look at.
#[tactic(auto, unfolding(machine::specs::Operand::is_writable, machine::specs::Operand::is_shown))]
fn fields_fit(told: Told, o: Operand) -> bool
    ensures { is_writable told o ≡ (is_granule o.tg && result && is_shown told o.tg o.base) }
{
    o.scale < 4
        && o.num < 32
        && o.ttl < 4
        && fits(has_asid(told.form), 0x10000, o.asid)
        && fits(has_ns(told.form), 2, o.ns)
        && !reads_as_zero(told.lpa2, o.tg, o.ttl)
}

// `low` is the base of a TLBI, which stands in bits 36:0.
#[tactic(auto, unfolding(machine::specs::Operand::is_writable, machine::specs::Operand::field_of, machine::specs::Operand::xt_of))]
fn xt_of(told: Told, o: Operand, low: u64) -> u64
    requires { (is_writable told o ≡ true) × (low ≡ cond told.tlbip 0 (field_of told o.tg o.base)) × (low < 2 ^ 37) }
    ensures { result ≡ xt_of told o }
{
    (o.ns << 63)
        + (o.asid << 48)
        + (o.tg << 46)
        + (o.scale << 44)
        + (o.num << 39)
        + (o.ttl << 37)
        + low
}

#[tactic(auto, unfolding(machine::specs::Operand::words_of, machine::specs::Operand::is_writable, machine::specs::Operand::is_shown, machine::specs::Operand::xt2_of))]
pub fn write_operand(told: Told, o: Operand) -> Result<(u64, u64), Refusal>
    ensures { result ≡ words_of told o }
{
    let granule = Granule::of(o.tg).ok_or(Refusal::Illegal)?;
    if !fields_fit(told, o) {
        return Err(Refusal::Illegal);
    }
    let field = field_of(told, granule, o.base);
    if address_of(told, granule, field) != o.base {
        return Err(Refusal::Illegal);
    }
    if told.tlbip {
        Ok((xt_of(told, o, 0), field))
    } else {
        Ok((xt_of(told, o, field), 0))
    }
}
