// Spans: the requirements' table of exponents, and the addresses of a span.
use crate::bits::{cleared_below, doubled};

// "Span exponents, level -1 to 3": a row begins at the first level that has a span, and ends with level 3.
pub fn exponent(wide: bool, granule: u64, level: i8) -> Option<u8> {
    let row: &[u8] = match (wide, granule) {
        (true, 1) => &[44, 36, 28, 20, 12],
        (true, 2) => &[54, 44, 34, 24, 14],
        (true, 3) => &[52, 40, 28, 16],
        (false, 1) => &[48, 39, 30, 21, 12],
        (false, 2) => &[47, 36, 25, 14],
        (false, 3) => &[42, 29, 16],
        _ => return None,
    };
    let height = usize::try_from(3 - i16::from(level)).ok()?;
    row.iter().rev().nth(height).copied()
}

pub fn granule_exponent(granule: u64) -> Option<u8> {
    match granule {
        1 => Some(12),
        2 => Some(14),
        3 => Some(16),
        _ => None,
    }
}

// The first address of the span that holds an address.
pub fn base_at(address: u64, exponent: u8) -> u64 {
    cleared_below(address, exponent)
}

// The first address behind a span; what passes 2^64 wraps.
pub fn behind(base: u64, exponent: u8) -> u64 {
    base.wrapping_add(doubled(1, exponent))
}
