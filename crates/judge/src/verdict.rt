// Judge: the checks in their order, and the search.
ghost use Rattle.std.specs.Prelude.{◌≡◌};
ghost use Rattle.machine.specs.Judge.{Sound, Verdict};
ghost use Rattle.machine.specs.Word.{read_of};

use crate::search::search;
use coverage::{named_asid, searched_of};
use machine::{Objection, Operation, State, Target};
use processor::is_bad;
use steps::{no_work, unchecked, with_step};
use tables::is_list;
use targets::is_target;
use words::OperationWord;
use works::{held_in, resolve};

pub fn judge(state: State, target: Target, list: &[u64]) -> Result<(), Objection>
    ensures verdict { Verdict state target list.now result }
    ensures list_kept { list.exit.now ≡ list.entry.now }
{
    if !is_list(list.len()) {
        return Err(Objection::BadShape);
    }
    if is_bad(state) {
        return Err(Objection::BadState);
    }
    if !is_target(state, target) {
        return Err(Objection::BadTarget);
    }
    by_steps(state, target, list)
}

// What judge answers where shape, state and target are sound.
fn by_steps(state: State, target: Target, list: &[u64]) -> Result<(), Objection>
    requires { Sound state target list.now }
    ensures { Verdict state target list.now result }
{
    let (steps, _) = list.as_chunks::<3>();
    // No heap: an array has a value in every place, also where no step is yet.
    let blank = no_work();
    let mut works = [blank; 16];
    let mut checked = unchecked();
    // Word 0 is no operation.
    let mut word = 0;
    let mut read = None;
    for (i, step) in steps.iter().enumerate() {
        // A step with the word of the step before it is the same operation, in the same scope.
        read = read_after(word, read, step[0]);
        word = step[0];
        let held = if 0 < i {
            held_in(step[0] == steps[i - 1][0], works[i - 1])
        } else {
            None
        };
        // A step that is refused has no work, by which `with_step` tells it.
        let work = resolve(&state, read, held, step[1], step[2]).unwrap_or(blank);
        works[i] = work;
        checked = with_step(checked, target.company, i, work);
    }
    if let Some(i) = checked.refused {
        return Err(Objection::Refused(i));
    }
    if let Some(i) = checked.outside {
        return Err(Objection::Outside(i));
    }
    let asid = named_asid(checked.used, target);
    let processors = searched_of(target.processors, checked.common);
    let fewer = Target {
        processors,
        ..target
    };
    match search(&works[..steps.len()], fewer, asid) {
        Some(entry) => Err(Objection::Gap(entry)),
        None => Ok(()),
    }
}

// The next word read, where a word stood before it: a list often has one word in many steps.
fn read_after(word: u64, read: Option<Operation>, next: u64) -> Option<Operation>
    requires { read ≡ read_of word }
    ensures { result ≡ read_of next }
{
    if next == word {
        read
    } else {
        OperationWord { bits: next }.read()
    }
}
