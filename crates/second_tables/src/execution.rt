// Execute, and run a list.
use crate::going::goes;
use crate::step::{Step, step_of};
use crate::table::is_shape;
use crate::tag::slot_at;
use machine::{Refusal, State};
use second_rules::is_bad;

pub fn execute(
    table: &mut [u64],
    state: State,
    word: u64,
    xt: u64,
    xt2: u64,
) -> Result<usize, Refusal> {
    if !is_shape(table, 6144) {
        return Err(Refusal::BadShape);
    }
    if is_bad(state) {
        return Err(Refusal::BadState);
    }
    let step = step_of(state, word, xt, xt2)?;
    Ok(dropped(table, step))
}

pub fn run(table: &mut [u64], state: State, list: &[u64]) -> Result<usize, Refusal> {
    if !is_shape(table, 6144) || !is_shape(list, 48) {
        return Err(Refusal::BadShape);
    }
    if is_bad(state) {
        return Err(Refusal::BadState);
    }
    if let Some(place) = first_refused(state, list) {
        return Err(Refusal::StepRefused(place));
    }
    let mut sum = 0usize;
    for &[word, xt, xt2] in list.as_chunks::<3>().0 {
        sum = sum.wrapping_add(execute(table, state, word, xt, xt2)?);
    }
    Ok(sum)
}

// The first step that does not answer 0: of 16, since a list has no more.
pub fn first_refused(state: State, list: &[u64]) -> Option<usize> {
    for place in 0..16usize {
        let [word, xt, xt2] = words_at(list, place)?;
        if step_of(state, word, xt, xt2).is_err() {
            return Some(place);
        }
    }
    None
}

// The three words of a step, where the list has it.
fn words_at(list: &[u64], place: usize) -> Option<[u64; 3]> {
    let words = list.get(place.saturating_mul(3)..)?;
    Some([*words.first()?, *words.get(1)?, *words.get(2)?])
}

// "A dropped slot is three zeros; every other word stays, those of senseless slots too."
fn dropped(table: &mut [u64], step: Step) -> usize {
    let mut count = 0usize;
    for slot in table.as_chunks_mut::<3>().0.iter_mut() {
        if slot_at(slot[0], slot[1]).is_some_and(|entry| goes(step, entry)) {
            *slot = [0; 3];
            count = count.wrapping_add(1);
        }
    }
    count
}
