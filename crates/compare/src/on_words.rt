// Decode and build.
use crate::tally::{Seen, Tally};
use inputs::{below, damaged, draw, flip, name_at, once_in, share_at, small, word_of};
use machine::{Operation, Refusal};
use second_words::Named;

pub fn decodes() -> Tally {
    Tally::of(12000, |n| {
        let word = word_at(n, draw(1, n));
        Seen::of(
            calls::decode(word).ok_or(Refusal::Unknown),
            second_words::decode(word).ok_or(Refusal::Unknown),
        )
    })
}

// Every op1, CRm and op2 with CRn 8 and 9 under SYS and SYSP; then other CRn; then operations with a bit turned, and any words.
fn word_at(n: u64, seed: u64) -> u64 {
    if n < 4096 {
        row_word(
            n % 1024,
            8 + n / 1024 % 2,
            n / 2048 == 1,
            below(seed, 0, 32),
        )
    } else if n < 6144 {
        row_word(
            n % 1024,
            below(seed, 0, 16),
            n / 1024 % 2 == 1,
            below(seed, 1, 32),
        )
    } else {
        damaged(word_of(any_operation(draw(seed, 0))), draw(seed, 1))
    }
}

// The word of op1, CRm and op2 as one number of ten bits.
fn row_word(row: u64, crn: u64, tlbip: bool, rt: u64) -> u64 {
    let fixed = if tlbip { 0xD5480000 } else { 0xD5080000 };
    fixed % 4294967296
        + row / 128 % 8 * 65536
        + crn % 16 * 4096
        + row / 8 % 16 * 256
        + row % 8 * 32
        + rt % 32
}

fn any_operation(seed: u64) -> Operation {
    Operation {
        name: name_at(below(seed, 0, 10)),
        share: share_at(below(seed, 1, 3)),
        nxs: flip(seed, 2),
        tlbip: flip(seed, 3),
        rt: if once_in(seed, 4, 6) {
            small(seed, 5, 256)
        } else {
            small(seed, 5, 32)
        },
    }
}

// A register that no word has room for counts as a field that breaks a rule.
pub fn builds() -> Tally {
    Tally::of(8000, |n| {
        let op = any_operation(draw(2, n));
        Seen::of(
            calls::build(op).ok_or(Refusal::Illegal),
            second_words::encode(Named::from(op)).ok_or(Refusal::Illegal),
        )
    })
}
