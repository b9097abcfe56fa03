// Steps: an instruction word with the two register words of an operand made for it.
use crate::exponents::exponent;
use crate::operations::{damaged, given, operation_for, word_of};
use crate::seeds::{below, down, draw, flip, number16, once_in, power};
use machine::{Operation, State};

#[derive(Clone, Copy)]
pub struct Step {
    pub word: u64,
    pub xt: u64,
    pub xt2: u64,
}

impl Step {
    pub(crate) fn words(self) -> [u64; 3] {
        [self.word, self.xt, self.xt2]
    }
}

// The fields of an operand before they are put into words; `field` is the base as the word holds it.
#[derive(Clone, Copy)]
pub struct Parts {
    pub top: u64,
    pub tg: u64,
    pub scale: u64,
    pub num: u64,
    pub ttl: u64,
    pub field: u64,
}

// The exponent of the unit that the base field counts in: 12 for TLBIP, 16 where the unit is 64 KiB, else that of the granule.
pub fn unit_exponent(state: State, op: Operation, tg: u64) -> u64 {
    if op.tlbip {
        return 12;
    }
    match access::decide(state, op) {
        Ok(scope) if processor::is_unit_64k(state, scope.regime, scope.stage2) => 16,
        _ => 10 + tg % 4 * 2,
    }
}

// Base fields: any; low; at the top; around the top bit; around a single bit.
pub fn field_for(tlbip: bool, seed: u64) -> u64 {
    let top = if tlbip { power(43) } else { power(36) };
    let near = below(seed, 1, 40);
    let any = draw(seed, 2);
    match below(seed, 0, 10) {
        0..=2 => any,
        3..=4 => any % 4096,
        5 => u64::MAX - near,
        6 => top.wrapping_add(near),
        7 => top.wrapping_sub(near).wrapping_sub(1),
        8 => power(any % 44),
        _ => 0,
    }
}

// The field brought to a multiple of 2^k bytes, where its unit is 2^unit bytes.
pub fn aligned(field: u64, unit: u64, k: u64) -> u64 {
    down(field, k.saturating_sub(unit))
}

// Half of 2^k bytes off a multiple of it.
fn half_off(multiple: u64, unit: u64, k: u64) -> u64 {
    if unit < k {
        multiple ^ power(k - unit - 1)
    } else {
        multiple
    }
}

pub fn parts_for(state: State, op: Operation, seed: u64) -> Parts {
    let tg = if once_in(seed, 0, 30) {
        0
    } else {
        1 + below(seed, 1, 3)
    };
    let ttl = if flip(seed, 2) { 0 } else { below(seed, 3, 4) };
    let unit = unit_exponent(state, op, tg);
    let k = exponent(op.tlbip, tg, 3 - ttl);
    let field = field_for(op.tlbip, draw(seed, 4));
    let multiple = aligned(field, unit, k);
    Parts {
        top: number16(seed, 6) as u64,
        tg,
        scale: below(seed, 7, 16) / 5,
        num: number_for(draw(seed, 8)),
        ttl,
        field: match below(seed, 5, 10) {
            _ if ttl == 0 => field,
            0 => field,
            1 => multiple.wrapping_add(1),
            2 => half_off(multiple, unit, k),
            _ => multiple,
        },
    }
}

// NUM: mostly small, sometimes the largest.
pub fn number_for(seed: u64) -> u64 {
    match below(seed, 0, 8) {
        0..=4 => below(seed, 1, 3),
        5 => 31,
        _ => below(seed, 1, 32),
    }
}

// Bits that are not used hold anything once in a while.
pub fn step_of(word: u64, tlbip: bool, parts: Parts, seed: u64) -> Step {
    let junk = if once_in(seed, 0, 4) {
        draw(seed, 1)
    } else {
        0
    };
    let (low, xt2) = if tlbip {
        (junk, parts.field % (1 << 44) | junk << 44)
    } else {
        (parts.field, junk)
    };
    let xt = parts.top << 48
        | parts.tg % 4 << 46
        | parts.scale % 4 << 44
        | parts.num % 32 << 39
        | parts.ttl % 4 << 37
        | low % (1 << 37);
    Step { word, xt, xt2 }
}

// Any step: its operation is one for the state, its word now and then damaged.
pub fn step_for(state: State, seed: u64) -> Step {
    let op = operation_for(state, draw(seed, 0));
    let word = given(word_of(op), 30, draw(seed, 2));
    if once_in(seed, 3, 40) {
        return Step {
            word,
            xt: draw(seed, 4),
            xt2: draw(seed, 5),
        };
    }
    let parts = parts_for(state, op, draw(seed, 1));
    step_of(word, op.tlbip, parts, draw(seed, 6))
}

// The same step with one thing changed: shorter, hinted, NXS, another ASID, TG, name, shareability, register or form, or damaged.
pub fn spoiled(step: Step, seed: u64) -> Step {
    let mut next = step;
    match below(seed, 0, 16) {
        0 => next.xt ^= power(39),
        1 => next.xt ^= power(37),
        2 => next.xt ^= power(38),
        3 => next.word ^= power(12),
        4 => next.xt ^= power(48),
        5 => next.xt ^= power(63),
        6 => next.xt ^= power(46 + below(seed, 1, 2)),
        7 => next.word ^= power(16 + below(seed, 1, 3)),
        8 => next.word ^= power(8 + below(seed, 1, 3)),
        9 => next.word ^= power(5 + below(seed, 1, 3)),
        10 => next.word ^= power(below(seed, 1, 5)),
        11 => next.word ^= power(22),
        12 => next.word = damaged(step.word, draw(seed, 2)),
        13 => next.xt ^= power(below(seed, 1, 37)),
        14 => next.xt ^= power(44 + below(seed, 1, 2)),
        _ => next.xt2 ^= power(below(seed, 1, 44)),
    }
    next
}
