// The state's check, the access rules, and what follows from the state for a regime.
use crate::tally::{Seen, Tally};
use inputs::{below, draw, fair_state, flip, operation_for, regime_at, regime_number, state_at};
use machine::{Operation, Refusal, Regime, State};
use second_words::Named;

pub fn checks() -> Tally {
    Tally::of(25000, |n| {
        let state = state_at(draw(3, n));
        Seen::of(
            passed(processor::is_bad(state)),
            passed(second_rules::is_bad(state)),
        )
    })
}

// A bad state counts as answer 2.
fn passed(bad: bool) -> Result<(), Refusal> {
    if bad { Err(Refusal::BadState) } else { Ok(()) }
}

pub fn decisions() -> Tally {
    Tally::of(40000, |n| {
        let seed = draw(4, n);
        let state = state_at(draw(seed, 0));
        decision_seen(state, operation_for(state, draw(seed, 1)))
    })
}

// The rules speak of good states only.
fn decision_seen(state: State, op: Operation) -> Seen {
    let Named { name, share, .. } = Named::from(op);
    let theirs = passed(second_rules::is_bad(state)).and_then(|_| second_rules::outcome(
        state, name, share, op.nxs, op.tlbip, op.rt,
    ));
    let ours = passed(processor::is_bad(state)).and_then(|_| access::decide(state, op));
    Seen::of(ours, theirs)
}

// Security state, VMID and base unit of a regime.
pub fn regimes() -> Tally {
    Tally::of(10000, |n| {
        let seed = draw(5, n);
        let regime = regime_at(below(seed, 1, 4));
        regime_seen(fair_state(draw(seed, 0)), regime, flip(seed, 2))
    })
}

fn regime_seen(state: State, regime: Regime, second: bool) -> Seen {
    let stage2 = second && regime == Regime::EL10;
    let ours = passed(processor::is_bad(state)).map(|_| {
        (
            processor::security_in(state, regime),
            processor::vmid_in(state, regime),
            processor::is_unit_64k(state, regime, stage2),
        )
    });
    let number = regime_number(regime);
    let theirs = passed(second_rules::is_bad(state)).map(|_| {
        (
            second_rules::security_of(state, number),
            second_rules::vmid_of(state, number),
            second_rules::unit_64k(state, number, stage2),
        )
    });
    Seen::of(ours, theirs)
}
