// A word by its bits: numbers are doubled and halved.

// A number doubled so many times; what passes bit 63 is lost.
pub fn doubled(number: u64, times: u8) -> u64 {
    (0..times).fold(number, |sum, _| sum.wrapping_add(sum))
}

// A number halved so many times; what passes bit 0 is lost.
fn halved(number: u64, times: u8) -> u64 {
    (0..times).fold(number, |rest, _| rest / 2)
}

// The `width` bits from bit `low` on, as a number: all where there are no more than so many.
pub fn field(word: u64, low: u8, width: u8) -> u64 {
    let rest = halved(word, low);
    rest.checked_rem(doubled(1, width)).unwrap_or(rest)
}

// A word whose bits from bit `width` on are copies of the bit below.
pub fn copied_up(word: u64, width: u8) -> u64 {
    let shown = field(word, 0, width);
    if is_set(word, width.wrapping_sub(1)) {
        shown.wrapping_sub(doubled(1, width))
    } else {
        shown
    }
}

pub fn is_set(word: u64, at: u8) -> bool {
    field(word, at, 1) == 1
}

// Whether a word is a multiple of 2^exponent: its bits below are 0.
pub fn is_multiple(word: u64, exponent: u8) -> bool {
    field(word, 0, exponent) == 0
}

// A word whose bits below bit `low` are 0.
pub fn cleared_below(word: u64, low: u8) -> u64 {
    word.wrapping_sub(field(word, 0, low))
}
