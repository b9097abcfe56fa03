// The functions over a list of steps, and over machine code.
ghost use Rattle.std.specs.Prelude.{◌≡◌, ℕ, ⊤, Result};
ghost use Rattle.board.specs.Answers.{Answers, done, listed_words, tailed_words};
ghost use Rattle.calls.specs.Promises.{Runs, Judges, Lists, Tails};
ghost use Rattle.listing.specs.declared.code.Listed.{Listed};
ghost use Rattle.machine.specs.Answer.{number_of, judged_number};
ghost use Rattle.machine.specs.declared.judge.Objection.{Objection};
ghost use Rattle.machine.specs.declared.refusal.Refusal.{Refusal};
ghost use Rattle.received.specs.States.{state_in};
ghost use Rattle.received.specs.Targets.{target_in};
ghost use Rattle.returned.specs.Words.{ran_words, judged_words};

use received::{StateRecord, TargetRecord};

#[unsafe(no_mangle)]
pub extern "C" fn chickadoor_run(
    table: &mut [u64],
    state: StateRecord,
    list: &[u64],
    out: &mut [u64; 2],
) -> u32
    ensures answers { Answers number_of ran_words (λ (a : Result ℕ Refusal). Runs (state_in state) list.now table.old a table.new) result out.new }
    ensures list_kept { list.exit.now ≡ list.entry.now }
{
    board::chickadoor_run(table, state, list, out)
}

#[unsafe(no_mangle)]
pub extern "C" fn chickadoor_judge(
    state: StateRecord,
    target: TargetRecord,
    list: &[u64],
    out: &mut [u64; 15],
) -> u32
    ensures answers { Answers judged_number judged_words (λ (a : Result ⊤ Objection). Judges (state_in state) (target_in target) list.now a) result out.new }
    ensures list_kept { list.exit.now ≡ list.entry.now }
{
    board::chickadoor_judge(state, target, list, out)
}

#[unsafe(no_mangle)]
pub extern "C" fn chickadoor_list(code: &[u8], at: u64, text: &mut [u8], out: &mut [u64; 2]) -> u32
    ensures answers { Answers done listed_words (λ (a : Listed). Lists code.now at text.old a text.new) result out.new }
    ensures code_kept { code.exit.now ≡ code.entry.now }
{
    board::chickadoor_list(code, at, text, out)
}

#[unsafe(no_mangle)]
pub extern "C" fn chickadoor_tail(left: usize, text: &mut [u8], out: &mut [u64; 1]) -> u32
    ensures { Answers done tailed_words (λ (a : ℕ). Tails left text.old a text.new) result out.new }
{
    board::chickadoor_tail(left, text, out)
}
