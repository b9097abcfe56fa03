// How long a range is, and where it ends.
ghost use Rattle.std.specs.Prelude.{◌+◌, ◌*◌, ◌^◌, ◌≤◌, ◌<◌, ◌≡◌};
ghost use Rattle.machine.specs.Range.{length_of, last_of};

use operands::{RangeFields, in_bytes};

fn granules(num: u64, scale: u64) -> u64
    requires { (num < 32) × (scale < 4) }
    ensures { (result ≡ (num + 1) * 2 ^ (5 * scale + 1)) × (1 ≤ result) × (result ≤ 2097152) }
{
    (num + 1) << (5 * scale + 1)
}

#[tactic(auto, unfolding(machine::specs::Range::length_of))]
pub fn length_of(fields: RangeFields) -> u64
    ensures { (result ≡ length_of fields) × (1 ≤ result) }
{
    let o = fields.operand();
    in_bytes(o.tg, granules(o.num, o.scale))
}

pub fn last_of(first: u64, length: u64) -> u64
    requires { 1 ≤ length }
    ensures { result ≡ last_of first length }
{
    first.saturating_add(length - 1)
}
