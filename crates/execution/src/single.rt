// Execute: one operation on a table.
ghost use Rattle.std.specs.Prelude.{◌%◌, ◌≡◌, length};
ghost use Rattle.machine.specs.Execute.{executed_by, table_by, executed_of, execute_table};
ghost use Rattle.execution.specs.Sound.{IsSound};

use dropping::drop_all;
use machine::{Refusal, State, Work};
use processor::is_bad;
use tables::is_table;
use words::OperationWord;
use works::resolve;

pub fn execute(
    table: &mut [u64],
    state: State,
    word: u64,
    xt: u64,
    xt2: u64,
) -> Result<usize, Refusal>
    ensures value { result ≡ executed_of state word xt xt2 table.old }
    ensures table_after { table.new ≡ execute_table state word xt xt2 table.old }
{
    if !is_table(table.len()) {
        return Err(Refusal::BadShape);
    }
    if is_bad(state) {
        return Err(Refusal::BadState);
    }
    let read = OperationWord { bits: word }.read();
    let resolved = resolve(&state, read, None, xt, xt2);
    carry_out(table, resolved)
}

// Whole slots and a sound work are asked for in clauses: the pages say what this asks of its callers.
// What execute does after its checks of shape and state, with what the operation comes to.
pub fn carry_out(table: &mut [u64], resolved: Result<Work, Refusal>) -> Result<usize, Refusal>
    requires { (length table.old % 3 ≡ 0) × IsSound resolved }
    ensures value { result ≡ executed_by resolved table.old }
    ensures table_after { table.new ≡ table_by resolved table.old }
{
    let work = resolved?;
    Ok(drop_all(table, work))
}
