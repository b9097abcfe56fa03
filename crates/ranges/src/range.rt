// The range that an operand means, or why it means none.
ghost use Rattle.std.specs.Prelude.{◌≡◌};
ghost use Rattle.machine.specs.Range.{range_of, ranged_of};

use crate::length::{last_of, length_of};
use crate::multiple::is_unpredictable;
use machine::{Operand, Range, Refusal, Told};
use operands::{RangeFields, read_fields};

#[tactic(auto, unfolding(machine::specs::Range::range_of))]
fn range_of(fields: RangeFields) -> Range
    ensures { result ≡ range_of fields }
{
    let first = fields.operand().base;
    Range {
        first,
        last: last_of(first, length_of(fields)),
    }
}

#[tactic(auto, unfolding(machine::specs::Range::ranged_of))]
pub fn ranged(told: Told, xt: u64, xt2: u64) -> Result<(Operand, Range), Refusal>
    ensures { result ≡ ranged_of told xt xt2 }
{
    let fields = read_fields(told, xt, xt2)?;
    if is_unpredictable(told.tlbip, fields) {
        return Err(Refusal::Unpredictable);
    }
    Ok((fields.operand(), range_of(fields)))
}
