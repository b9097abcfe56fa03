// The functions over a table.
ghost use Rattle.std.specs.Prelude.{ℕ, Result};
ghost use Rattle.board.specs.Answers.{Answers};
ghost use Rattle.calls.specs.Promises.{Inserts, LooksUp, ReadsSlot, Executes};
ghost use Rattle.machine.specs.Answer.{number_of};
ghost use Rattle.machine.specs.Tag.{regime_at};
ghost use Rattle.machine.specs.declared.entry.Entry.{Entry};
ghost use Rattle.machine.specs.declared.refusal.Refusal.{Refusal};
ghost use Rattle.machine.specs.declared.table.Match.{Match};
ghost use Rattle.received.specs.Entries.{entry_in};
ghost use Rattle.received.specs.Numbers.{is_regime};
ghost use Rattle.received.specs.States.{state_in};
ghost use Rattle.returned.specs.Known.{found_number, found_words};
ghost use Rattle.returned.specs.Words.{inserted_words, slot_words, executed_words};

use insertion::refuse_entry;
use machine::{Entry, State};
use received::{EntryRecord, StateRecord, is_regime};
use returned::{executed_words, found, inserted_words, looked_up_words, number_of, slot_words};
use tags::regime_at;

pub fn chickadoor_insert(
    table: &mut [u64],
    entry: EntryRecord,
    output: u64,
    out: &mut [u64; 1],
) -> u32
    ensures { Answers number_of inserted_words (λ (a : Result ℕ Refusal). Inserts (entry_in entry) output table.old a table.new) result out.new }
{
    let Ok(entry) = Entry::try_from(entry) else {
        *out = [0];
        return u32::from(refuse_entry(table).number());
    };
    let inserted = calls::insert(table, entry, output);
    *out = inserted_words(inserted);
    number_of(&inserted)
}

pub fn chickadoor_look_up(
    table: &[u64],
    state: StateRecord,
    regime: u64,
    asid: u16,
    address: u64,
    out: &mut [u64; 3],
) -> u32
    ensures { Answers (found_number (is_regime regime)) (found_words (is_regime regime)) (λ (a : Result Match Refusal). LooksUp (state_in state) (regime_at regime) asid address table.entry.now a table.exit.now) result out.new }
{
    let known = is_regime(regime);
    let looked = calls::look_up(table, State::from(state), regime_at(regime), asid, address);
    let looked = found(known, looked);
    *out = looked_up_words(looked);
    number_of(&looked)
}

// A slot that is not read back is zeros at once: its words would be held beside those of an entry.
#[tactic(auto, using(returned::proofs::Words::no_words))]
pub fn chickadoor_read_slot(table: &[u64], slot: usize, out: &mut [u64; 15]) -> u32
    ensures { Answers number_of slot_words (λ (a : Result (Entry × ℕ) Refusal). ReadsSlot slot table.entry.now a table.exit.now) result out.new }
{
    let read = calls::read_slot(table, slot);
    let Err(refusal) = read else {
        *out = slot_words(read);
        return 0;
    };
    *out = [0; 15];
    u32::from(refusal.number())
}

pub fn chickadoor_execute(
    table: &mut [u64],
    state: StateRecord,
    word: u64,
    xt: u64,
    xt2: u64,
    out: &mut [u64; 2],
) -> u32
    ensures { Answers number_of executed_words (λ (a : Result ℕ Refusal). Executes (state_in state) word xt xt2 table.old a table.new) result out.new }
{
    let executed = calls::execute(table, State::from(state), word, xt, xt2);
    *out = executed_words(executed);
    number_of(&executed)
}
