// Run, on tables aimed at two steps of the list.
use crate::lent::{first_words, on_tables};
use crate::tally::{Seen, Tally};
use inputs::{
    below, draw, fair_state, fill, good_state, plan_of, put_list, step_at, words_of, work_of,
};
use machine::State;

pub fn runs() -> Tally {
    let mut tally = Tally::drawn(9000, 12, small_run);
    for (seed, words) in [(1, 6144), (2, 6144), (3, 6147), (4, 6146)] {
        tally.count(large_run(seed, words));
    }
    tally
}

fn small_run(seed: u64) -> Seen {
    let state = fair_state(draw(seed, 0));
    let plan = plan_of(draw(seed, 1));
    let own = draw(seed, 2);
    let slots = below(seed, 3, 13);
    let first = step_at(state, plan, below(seed, 4, plan.steps), own);
    let second = step_at(state, plan, below(seed, 5, plan.steps), own);
    let mut list = [0u64; 60];
    put_list(&mut list, state, plan, own);
    let mut table = [0u64; 48];
    fill(
        &mut table,
        slots as usize,
        work_of(state, first, draw(seed, 6)),
        work_of(state, second, draw(seed, 7)),
        draw(seed, 8),
    );
    run_seen(
        &mut table,
        words_of(slots, draw(seed, 9)),
        state,
        first_words(&list, plan.words),
    )
}

fn large_run(seed: u64, words: usize) -> Seen {
    let state = good_state(draw(seed, 0));
    let plan = plan_of(draw(seed, 1));
    let own = draw(seed, 2);
    let work = work_of(state, step_at(state, plan, 0, own), draw(seed, 6));
    let mut list = [0u64; 60];
    put_list(&mut list, state, plan, own);
    let mut table = [0u64; 6160];
    fill(&mut table, 2048, work, work, draw(seed, 8));
    run_seen(&mut table, words, state, first_words(&list, plan.words))
}

fn run_seen<const N: usize>(
    table: &mut [u64; N],
    words: usize,
    state: State,
    list: &[u64],
) -> Seen {
    on_tables(
        table,
        words,
        |table| calls::run(table, state, list),
        |table| second_tables::run(table, state, list),
    )
}
