// One invalidation by guest 7, and what it did to the table.
use crate::guests::state;
use crate::slots::count;
use crate::told_step::{ToldStep, WORD};
use std::io;

pub fn invalidate(rt: &impl Print, table: &mut [u64], operand: u64) -> io::Result<()> {
    println!(rt; "guest 7 runs {}", ToldStep(operand))?;
    let before = count(table, |_| true);
    match calls::execute(table, state(7), WORD, operand, 0) {
        Ok(n) => print!(rt; "done, answer 0, dropped {n}")?,
        Err(refusal) => print!(rt; "refused, answer {}", refusal.number())?,
    }
    // Counted in the table, whatever the call told.
    let after = count(table, |_| true);
    print!(rt; ": {before} entries before, {after} after")?;
    if before == after {
        print!(rt; ", nothing dropped")?;
    }
    println!(rt)
}
