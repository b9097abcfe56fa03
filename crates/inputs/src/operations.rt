// Operations that a state is likely to run, their words, and damaged words.
use crate::numbers::{name_at, share_at};
use crate::seeds::{below, draw, once_in, power, small};
use machine::{Operation, State};
use words::OperationWord;

pub fn operation_for(state: State, seed: u64) -> Operation {
    Operation {
        name: name_at(name_for(state.el, seed)),
        share: share_at(below(seed, 1, 3)),
        nxs: once_in(seed, 2, 4),
        tlbip: once_in(seed, 3, 3),
        rt: register_for(draw(seed, 4)),
    }
}

// One that does its work where it can: plain, mostly OS, with registers of its own.
pub fn steady_operation(state: State, seed: u64) -> Operation {
    Operation {
        share: share_at(2 - below(seed, 1, 6) / 4),
        nxs: false,
        rt: small(seed, 4, 15) / 2 * 2,
        ..operation_for(state, seed)
    }
}

// E1 names at EL1, also E2 names and RIPAS2 at EL2, and sometimes any.
fn name_for(el: u8, seed: u64) -> u64 {
    let any = once_in(seed, 5, 8);
    match el {
        1 if !any => below(seed, 6, 4),
        2 if !any => match below(seed, 6, 8) {
            n @ 0..=5 => n,
            n => n + 2,
        },
        _ => below(seed, 6, 10),
    }
}

// Mostly even and below 30; 30, 31 and odd ones now and then.
fn register_for(seed: u64) -> u8 {
    match below(seed, 0, 12) {
        0 => 30,
        1 => 31,
        2 => small(seed, 1, 32),
        _ => small(seed, 1, 15) / 8 * 2,
    }
}

pub fn word_of(op: Operation) -> u64 {
    OperationWord::build(op).unwrap_or(0)
}

// One bit turned, or 2^32 and more on top, or any number.
pub fn damaged(word: u64, seed: u64) -> u64 {
    match below(seed, 0, 8) {
        0..=4 => word ^ power(below(seed, 1, 32)),
        5 => word ^ power(32 + below(seed, 1, 32)),
        6 => draw(seed, 2),
        _ => word ^ power(below(seed, 1, 20)) ^ power(below(seed, 3, 20)),
    }
}

// A word as a call may be given it: once in n times damaged.
pub fn given(word: u64, n: u64, seed: u64) -> u64 {
    if once_in(seed, 0, n) {
        damaged(word, draw(seed, 1))
    } else {
        word
    }
}
