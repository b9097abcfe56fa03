// Run: every step of a list in order, or nothing.
ghost use Rattle.std.specs.Prelude.{◌*◌, ◌%◌, ◌≤◌, true, false, ◌≡◌, length};
ghost use Rattle.machine.specs.Answer.{value_of};
ghost use Rattle.machine.specs.Execute.{executed_by, table_by, resolved_of, is_list, steps_table, steps_dropped, ran_of, run_table};
ghost use Rattle.machine.specs.State.{bad_state};
ghost use Rattle.machine.specs.Table.{is_table};

use crate::refusal::first_refused;
use execution::carry_out;
use machine::{Refusal, State};
use processor::is_bad;
use tables::{is_list, is_table};
use words::OperationWord;
use works::resolve;

pub fn run(table: &mut [u64], state: State, list: &[u64]) -> Result<usize, Refusal>
    ensures value { result ≡ ran_of state list.now table.old }
    ensures table_after { table.new ≡ run_table state list.now table.old }
    ensures list_kept { list.exit.now ≡ list.entry.now }
{
    if !is_table(table.len()) || !is_list(list.len()) {
        return Err(Refusal::BadShape);
    }
    if is_bad(state) {
        return Err(Refusal::BadState);
    }
    if let Some(k) = first_refused(list, &state) {
        return Err(Refusal::StepRefused(k));
    }
    Ok(run_steps(table, &state, list))
}

// All steps in order, and the sum of dropped slots.
fn run_steps(table: &mut [u64], state: &State, list: &[u64]) -> usize
    requires { (is_table table.old ≡ true) × (is_list list.now ≡ true) × (bad_state state.now ≡ false) }
    ensures value { result ≡ steps_dropped state.now list.now table.old }
    ensures table_after { table.new ≡ steps_table state.now list.now table.old }
{
    let (steps, _) = list.as_chunks::<3>();
    let mut n = 0;
    for step in steps {
        n += run_step(table, state, step[0], step[1], step[2]);
    }
    n
}

// One step, and how many slots it drops.
fn run_step(table: &mut [u64], state: &State, word: u64, xt: u64, xt2: u64) -> usize
    requires { length table.old % 3 ≡ 0 }
    ensures value { (result ≡ value_of (executed_by (resolved_of state.now word xt xt2) table.old)) × (3 * result ≤ length table.old) }
    ensures table_after { table.new ≡ table_by (resolved_of state.now word xt xt2) table.old }
{
    let read = OperationWord { bits: word }.read();
    let resolved = resolve(state, read, None, xt, xt2);
    carry_out(table, resolved).unwrap_or(0)
}
