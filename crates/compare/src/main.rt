// Runs the public calls and the second model on the same inputs, and tells of each call how many inputs it had, which answers they got, and how
// many of them the two answer differently. It needs no heap: tables, lists and texts are arrays. A seed and a size are
// handed on apart: together they are no thing of their own.
#![tactic(auto)]

mod lent;
mod numbered;
mod on_execute;
mod on_insert;
mod on_judge;
mod on_listing;
mod on_lookup;
mod on_operands;
mod on_run;
mod on_slots;
mod on_state;
mod on_words;
mod tally;

use std::io;
use tally::Tally;

fn main(rt: HostRuntime) -> io::Result<()> {
    let tallies = [
        told(&rt, "decode", on_words::decodes())?,
        told(&rt, "build", on_words::builds())?,
        told(&rt, "listing", on_listing::listings())?,
        told(&rt, "is_bad", on_state::checks())?,
        told(&rt, "decide", on_state::decisions())?,
        told(&rt, "regime", on_state::regimes())?,
        told(&rt, "read_operand", on_operands::reads())?,
        told(&rt, "write_operand", on_operands::writes())?,
        told(&rt, "slot", on_slots::slots())?,
        told(&rt, "insert", on_insert::inserts())?,
        told(&rt, "look_up", on_lookup::lookups())?,
        told(&rt, "execute", on_execute::executions())?,
        told(&rt, "run", on_run::runs())?,
        told(&rt, "judge", on_judge::verdicts())?,
    ];
    let sum = tallies
        .iter()
        .fold(Tally::NONE, |sum, tally| sum.plus(*tally));
    println!(rt; "{} inputs, {} differences", sum.inputs, sum.differences)
}

// Writes a call's line.
fn told(rt: &impl Print, name: &str, tally: Tally) -> io::Result<Tally> {
    println!(rt; "{name}: {tally}")?;
    Ok(tally)
}
