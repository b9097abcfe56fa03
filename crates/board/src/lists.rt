// The functions over a list of steps, and over machine code.
ghost use Rattle.std.specs.Prelude.{◌≡◌, ℕ, ⊤, Result};
ghost use Rattle.board.specs.Answers.{Answers, done, listed_words, tailed_words};
ghost use Rattle.calls.specs.Promises.{Runs, Judges, Lists, Tails};
ghost use Rattle.listing.specs.declared.code.Listed.{Listed};
ghost use Rattle.machine.specs.Answer.{number_of, judged_number};
ghost use Rattle.machine.specs.declared.judge.Objection.{Objection};
ghost use Rattle.machine.specs.declared.refusal.Refusal.{Refusal};
ghost use Rattle.received.specs.States.{state_in};
ghost use Rattle.received.specs.Targets.{target_in};
ghost use Rattle.returned.specs.Words.{ran_words, judged_words};

use machine::{State, Target};
use received::{StateRecord, TargetRecord};
use returned::{judged_number, judged_words, number_of, ran_words};

pub fn chickadoor_run(
    table: &mut [u64],
    state: StateRecord,
    list: &[u64],
    out: &mut [u64; 2],
) -> u32
    ensures answers { Answers number_of ran_words (λ (a : Result ℕ Refusal). Runs (state_in state) list.now table.old a table.new) result out.new }
    ensures list_kept { list.exit.now ≡ list.entry.now }
{
    let ran = calls::run(table, State::from(state), list);
    *out = ran_words(ran);
    number_of(&ran)
}

pub fn chickadoor_judge(
    state: StateRecord,
    target: TargetRecord,
    list: &[u64],
    out: &mut [u64; 15],
) -> u32
    ensures answers { Answers judged_number judged_words (λ (a : Result ⊤ Objection). Judges (state_in state) (target_in target) list.now a) result out.new }
    ensures list_kept { list.exit.now ≡ list.entry.now }
{
    let judged = calls::judge(State::from(state), Target::from(target), list);
    *out = judged_words(judged);
    judged_number(judged)
}

pub fn chickadoor_list(code: &[u8], at: u64, text: &mut [u8], out: &mut [u64; 2]) -> u32
    ensures answers { Answers done listed_words (λ (a : Listed). Lists code.now at text.old a text.new) result out.new }
    ensures code_kept { code.exit.now ≡ code.entry.now }
{
    let listed = calls::list(code, at, text);
    *out = [listed.used as u64, listed.written as u64];
    0
}

pub fn chickadoor_tail(left: usize, text: &mut [u8], out: &mut [u64; 1]) -> u32
    ensures { Answers done tailed_words (λ (a : ℕ). Tails left text.old a text.new) result out.new }
{
    let written = calls::tail(left, text);
    *out = [written as u64];
    0
}
