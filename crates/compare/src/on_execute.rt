// Execute, on tables aimed at the operation.
use crate::lent::on_tables;
use crate::tally::{Seen, Tally};
use inputs::{
    Step, any_work, below, draw, fair_state, fill, good_state, step_for, words_of, work_of,
};
use machine::State;

pub fn executions() -> Tally {
    let mut tally = Tally::drawn(30000, 11, small_execution);
    for (seed, words) in [(1, 6144), (2, 6144), (3, 6144), (4, 6147), (5, 6145)] {
        tally.count(large_execution(seed, words));
    }
    tally
}

fn small_execution(seed: u64) -> Seen {
    let state = fair_state(draw(seed, 0));
    let step = step_for(state, draw(seed, 1));
    let slots = below(seed, 2, 13);
    let work = work_of(state, step, draw(seed, 3));
    let mut table = [0u64; 48];
    fill(&mut table, slots as usize, work, work, draw(seed, 4));
    execute_seen(&mut table, words_of(slots, draw(seed, 5)), state, step)
}

fn large_execution(seed: u64, words: usize) -> Seen {
    let state = good_state(draw(seed, 0));
    let step = step_for(state, draw(seed, 1));
    let work = work_of(state, step, draw(seed, 3));
    let mut table = [0u64; 6160];
    fill(
        &mut table,
        2048,
        work,
        any_work(draw(seed, 4)),
        draw(seed, 5),
    );
    execute_seen(&mut table, words, state, step)
}

fn execute_seen<const N: usize>(
    table: &mut [u64; N],
    words: usize,
    state: State,
    step: Step,
) -> Seen {
    let Step { word, xt, xt2 } = step;
    on_tables(
        table,
        words,
        |table| calls::execute(table, state, word, xt, xt2),
        |table| second_tables::execute(table, state, word, xt, xt2),
    )
}
