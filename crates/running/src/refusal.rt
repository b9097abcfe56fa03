// Which step of a list does not answer 0.
ghost use Rattle.std.specs.Prelude.{◌≡◌, position};
ghost use Rattle.laws.specs.Chunks.{on_slot};
ghost use Rattle.laws.specs.Slots.{first_slot};
ghost use Rattle.machine.specs.Execute.{refuses};

use machine::State;
use words::OperationWord;
use works::resolve;

// The first step that does not answer 0, if there is one.
#[tactic(auto, using(laws::proofs::Chunked::chunked))]
pub fn first_refused(list: &[u64], state: &State) -> Option<usize>
    ensures { result ≡ first_slot (refuses state.now) list.now }
{
    let (steps, _) = list.as_chunks::<3>();
    first_of(steps, state)
}

fn first_of(steps: &[[u64; 3]], state: &State) -> Option<usize>
    ensures { result ≡ position (on_slot (refuses state.now)) steps.now }
{
    steps
        .iter()
        .position(|step| is_refused(state, step[0], step[1], step[2]))
}

// Word, Xt and Xt2 stay three parameters, as the book's `refuses` takes them.
fn is_refused(state: &State, word: u64, xt: u64, xt2: u64) -> bool
    ensures { result ≡ refuses state.now word xt xt2 }
{
    let read = OperationWord { bits: word }.read();
    resolve(state, read, None, xt, xt2).is_err()
}
