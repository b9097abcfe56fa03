// Judge, on lists that are to clear the target.
use crate::lent::first_words;
use crate::numbered::Numbered;
use crate::tally::{Seen, Tally};
use inputs::{
    aim_of, any_target, below, draw, fair_state, missed_target, plan_of, put_list, step_at,
    target_for, work_of,
};
use machine::{State, Target};

pub fn verdicts() -> Tally {
    Tally::drawn(11000, 13, verdict_seen)
}

fn verdict_seen(seed: u64) -> Seen {
    let state = fair_state(draw(seed, 0));
    let plan = plan_of(draw(seed, 1));
    let own = draw(seed, 2);
    let last = plan.steps.wrapping_sub(1);
    let first = aim_of(state, step_at(state, plan, 0, own), draw(seed, 3));
    let last_work = work_of(state, step_at(state, plan, last, own), draw(seed, 3));
    let aimed = target_for(first, last_work, draw(seed, 4));
    let target = given(aimed, first.asid, state, draw(seed, 5));
    let mut words = [0u64; 60];
    put_list(&mut words, state, plan, own);
    let list = first_words(&words, plan.words);
    let ours = calls::judge(state, target, list);
    Seen {
        number: ours.number(),
        same: Ok(ours) == second_tables::judge(state, target, list),
    }
}

fn given(target: Target, asid: u16, state: State, seed: u64) -> Target {
    match below(seed, 0, 20) {
        0 => any_target(draw(seed, 1)),
        1..=8 => missed_target(target, asid, state, draw(seed, 1)),
        _ => target,
    }
}
