// The addresses that an operand's fields ask for, and answer 7.
use crate::bits::{doubled, is_multiple};
use crate::span::{exponent, granule_exponent};
use machine::Operand;

// The last address of the range: "Length is (NUM + 1) times 2^(5 SCALE + 1) granules. The sum doesn't wrap: a range ends at 2^64 at most."
pub fn last_address(fields: Operand) -> Option<u64> {
    let granules = scaled(fields.num.wrapping_add(1), fields.scale);
    let length = doubled(granules, granule_exponent(fields.tg)?);
    Some(fields.base.saturating_add(length.wrapping_sub(1)))
}

fn scaled(number: u64, scale: u64) -> u64 {
    match scale {
        0 => doubled(number, 1),
        1 => doubled(number, 6),
        2 => doubled(number, 11),
        _ => doubled(number, 16),
    }
}

// "Answer 7, TLBI: base not a multiple of 2^30 (4K, TTL 01), 2^21 (4K, 10), 2^25 (16K, 10), 2^42 (64K, 01), 2^29 (64K, 10). [..]
// TLBIP: base not a multiple of the 128-bit span of TTL 01, 10 or 11 (000)."
pub fn is_unpredictable(tlbip: bool, fields: Operand) -> bool {
    let unit = if tlbip {
        level_of_hint(fields.ttl).and_then(|level| exponent(true, fields.tg, level))
    } else {
        exponent_of_hint(fields.tg, fields.ttl)
    };
    unit.is_some_and(|unit| !is_multiple(fields.base, unit))
}

// The level that a hint names: none for TTL 00.
pub fn level_of_hint(ttl: u64) -> Option<i8> {
    match ttl {
        1 => Some(1),
        2 => Some(2),
        3 => Some(3),
        _ => None,
    }
}

fn exponent_of_hint(tg: u64, ttl: u64) -> Option<u8> {
    match (tg, ttl) {
        (1, 1) => Some(30),
        (1, 2) => Some(21),
        (2, 2) => Some(25),
        (3, 1) => Some(42),
        (3, 2) => Some(29),
        _ => None,
    }
}
