// Judge a list: "13, 2, 8, 10 over all steps, 11 over all steps, 12".
use crate::execution::first_refused;
use crate::going::is_of_company;
use crate::step::{Step, step_of};
use crate::survivors::Contradiction;
use crate::table::is_shape;
use crate::target::is_legal_target;
use machine::{Objection, State, Target};
use second_rules::is_bad;

// A list that is judged: for a target, in a processor state.
#[derive(Clone, Copy)]
pub struct Case<'a> {
    pub state: State,
    pub target: Target,
    pub list: &'a [u64],
}

impl Case<'_> {
    // The list's steps of three words.
    pub fn steps(&self) -> &[[u64; 3]] {
        self.list.as_chunks::<3>().0
    }

    // What a step comes to, where it is not refused.
    pub fn step(&self, words: [u64; 3]) -> Option<Step> {
        let [word, xt, xt2] = words;
        step_of(self.state, word, xt, xt2).ok()
    }

    // The first step outside the target's company.
    fn first_outside(&self) -> Option<usize> {
        self.steps().iter().position(|words| {
            self.step(*words)
                .is_some_and(|step| !is_of_company(step, self.target.company))
        })
    }
}

pub fn judge(
    state: State,
    target: Target,
    list: &[u64],
) -> Result<Result<(), Objection>, Contradiction> {
    Ok(objection(Case {
        state,
        target,
        list,
    })?
    .map_or(Ok(()), Err))
}

fn objection(case: Case<'_>) -> Result<Option<Objection>, Contradiction> {
    if !is_shape(case.list, 48) {
        return Ok(Some(Objection::BadShape));
    }
    if is_bad(case.state) {
        return Ok(Some(Objection::BadState));
    }
    if !is_legal_target(case.state, case.target) {
        return Ok(Some(Objection::BadTarget));
    }
    if let Some(place) = first_refused(case.state, case.list) {
        return Ok(Some(Objection::Refused(place)));
    }
    if let Some(place) = case.first_outside() {
        return Ok(Some(Objection::Outside(place)));
    }
    Ok(case.first_gap()?.map(Objection::Gap))
}
