// Lists: steps one behind the other over a range, hints over one place, any steps; whole or with one step spoiled.
use crate::exponents::exponent;
use crate::filling::put_threes;
use crate::operations::{steady_operation, word_of};
use crate::seeds::{below, draw, flip, once_in};
use crate::steps::{
    Parts, Step, aligned, field_for, number_for, spoiled, step_for, step_of, unit_exponent,
};
use machine::State;

// Steps one behind the other, all of them hints over one place, or any steps.
#[derive(Clone, Copy, PartialEq, Eq)]
enum Kind {
    Chain,
    Hints,
    Any,
}

// How a list is made: of what kind, how many steps it has, how many words are lent, and which step is spoiled, if one is.
#[derive(Clone, Copy)]
pub struct Plan {
    kind: Kind,
    pub steps: u64,
    pub words: usize,
    spoiled: Option<u64>,
}

pub fn plan_of(seed: u64) -> Plan {
    let kind = match below(seed, 0, 16) {
        0..=10 => Kind::Chain,
        11..=13 => Kind::Hints,
        _ => Kind::Any,
    };
    let steps = steps_of(kind, draw(seed, 1));
    let more = if once_in(seed, 2, 40) {
        1 + below(seed, 3, 2)
    } else {
        0
    };
    Plan {
        kind,
        steps,
        words: (steps % 32 * 3 + more) as usize,
        spoiled: flip(seed, 4).then(|| below(seed, 5, steps)),
    }
}

fn steps_of(kind: Kind, seed: u64) -> u64 {
    match below(seed, 0, 400) {
        0..=7 => 17,
        8..=15 => 0,
        16 => 16,
        _ if kind == Kind::Hints => 3,
        _ => 1 + below(seed, 1, 7) / 2,
    }
}

// Step k of the plan; half of the chains run downwards.
pub fn step_at(state: State, plan: Plan, k: u64, seed: u64) -> Step {
    let place = if flip(seed, 102) {
        plan.steps.wrapping_sub(1).wrapping_sub(k)
    } else {
        k
    };
    let sound = match plan.kind {
        Kind::Any => step_for(state, draw(seed, k)),
        Kind::Chain => steady_step(state, false, place, draw(seed, 100)),
        Kind::Hints => steady_step(state, true, place, draw(seed, 100)),
    };
    if plan.spoiled == Some(k) {
        spoiled(sound, draw(seed, 101))
    } else {
        sound
    }
}

// The same operation at every step; in a chain the next step begins where the one before ends.
fn steady_step(state: State, hints: bool, k: u64, seed: u64) -> Step {
    let op = steady_operation(state, draw(seed, 0));
    let tg = 1 + below(seed, 1, 3);
    let scale = scale_for(below(seed, 2, 8));
    let num = number_for(draw(seed, 3));
    let unit = unit_exponent(state, op, tg);
    let always = if once_in(seed, 4, 5) {
        below(seed, 5, 4)
    } else {
        0
    };
    let ttl = if hints { 1 + k % 3 } else { always };
    let height = if hints { 2 } else { 3 - always };
    let field = aligned(
        field_for(op.tlbip, draw(seed, 6)),
        unit,
        exponent(op.tlbip, tg, height),
    );
    let parts = Parts {
        top: below(seed, 7, 3),
        tg,
        scale,
        num,
        ttl,
        field: if hints {
            field
        } else {
            field.wrapping_add(in_units(granules(scale, num), tg, unit, k))
        },
    };
    step_of(word_of(op), op.tlbip, parts, draw(seed, 8))
}

// Mostly long ranges, which have many pages and few blocks.
fn scale_for(draw8: u64) -> u64 {
    match draw8 {
        0 => 1,
        1..=3 => 2,
        _ => 3,
    }
}

// (NUM + 1) times 2^(5 SCALE + 1) granules.
fn granules(scale: u64, num: u64) -> u64 {
    (num % 32 + 1) << (scale % 4 * 5 + 1)
}

// k times so many granules, for a k below 32, counted in units of the base field.
fn in_units(granules: u64, tg: u64, unit: u64, k: u64) -> u64 {
    let bytes = granules.wrapping_mul(k % 32) << (10 + tg % 4 * 2);
    bytes >> (unit % 64)
}

pub fn put_list(list: &mut [u64], state: State, plan: Plan, seed: u64) {
    let steps = plan.steps.min(17) as usize;
    put_threes(list, steps, |k| step_at(state, plan, k, seed).words());
}
