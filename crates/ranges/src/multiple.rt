// Where a range is UNPREDICTABLE: its base is no multiple of what TTL asks for.
ghost use Rattle.std.specs.Prelude.{◌≤◌, ◌<◌, ◌≡◌};
ghost use Rattle.machine.specs.Range.{tlbi_exponent, tlbip_exponent, is_unpredictable};

use operands::RangeFields;
use spans::{exponent_of, is_multiple};

// 0 where nothing is asked, here and below: any base is a multiple of 1, and the book's definitions say 0.
#[tactic(auto, unfolding(machine::specs::Range::tlbi_exponent))]
fn tlbi_exponent(tg: u64, ttl: u64) -> u64
    requires { (1 ≤ tg) × (tg < 4) }
    ensures { (result ≡ tlbi_exponent tg ttl) × (result ≤ 63) }
{
    match (tg, ttl) {
        (1, 1) => 30,
        (1, 2) => 21,
        (2, 2) => 25,
        (3, 1) => 42,
        (3, 2) => 29,
        _ => 0,
    }
}

#[tactic(auto, unfolding(machine::specs::Range::tlbip_exponent, machine::specs::Span::is_level, machine::specs::Span::exponent_of, machine::specs::Span::exponent_at, machine::specs::Span::height_of))]
fn tlbip_exponent(tg: u64, ttl: u64) -> u64
    requires { (tg < 4) × (ttl < 4) }
    ensures { (result ≡ tlbip_exponent tg ttl) × (result ≤ 63) }
{
    if ttl == 0 {
        return 0;
    }
    exponent_of(true, tg, ttl as i8)
}

#[tactic(auto, unfolding(machine::specs::Range::is_unpredictable))]
pub fn is_unpredictable(tlbip: bool, fields: RangeFields) -> bool
    ensures { result ≡ is_unpredictable tlbip fields }
{
    let o = fields.operand();
    let k = if tlbip {
        tlbip_exponent(o.tg, o.ttl)
    } else {
        tlbi_exponent(o.tg, o.ttl)
    };
    !is_multiple(o.base, k)
}
