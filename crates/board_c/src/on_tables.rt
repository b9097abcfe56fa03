// The functions over a table.
ghost use Rattle.std.specs.Prelude.{ℕ, Result};
ghost use Rattle.board.specs.Answers.{Answers};
ghost use Rattle.calls.specs.Promises.{Inserts, LooksUp, ReadsSlot, Executes};
ghost use Rattle.machine.specs.Answer.{number_of};
ghost use Rattle.machine.specs.Tag.{regime_at};
ghost use Rattle.machine.specs.declared.entry.Entry.{Entry};
ghost use Rattle.machine.specs.declared.refusal.Refusal.{Refusal};
ghost use Rattle.machine.specs.declared.table.Match.{Match};
ghost use Rattle.received.specs.Entries.{entry_in};
ghost use Rattle.received.specs.Numbers.{is_regime};
ghost use Rattle.received.specs.States.{state_in};
ghost use Rattle.returned.specs.Known.{found_number, found_words};
ghost use Rattle.returned.specs.Words.{inserted_words, slot_words, executed_words};

use received::{EntryRecord, StateRecord};

#[unsafe(no_mangle)]
pub extern "C" fn chickadoor_insert(
    table: &mut [u64],
    entry: EntryRecord,
    output: u64,
    out: &mut [u64; 1],
) -> u32
    ensures { Answers number_of inserted_words (λ (a : Result ℕ Refusal). Inserts (entry_in entry) output table.old a table.new) result out.new }
{
    board::chickadoor_insert(table, entry, output, out)
}

#[unsafe(no_mangle)]
pub extern "C" fn chickadoor_look_up(
    table: &[u64],
    state: StateRecord,
    regime: u64,
    asid: u16,
    address: u64,
    out: &mut [u64; 3],
) -> u32
    ensures { Answers (found_number (is_regime regime)) (found_words (is_regime regime)) (λ (a : Result Match Refusal). LooksUp (state_in state) (regime_at regime) asid address table.entry.now a table.exit.now) result out.new }
{
    board::chickadoor_look_up(table, state, regime, asid, address, out)
}

#[unsafe(no_mangle)]
pub extern "C" fn chickadoor_read_slot(table: &[u64], slot: usize, out: &mut [u64; 15]) -> u32
    ensures { Answers number_of slot_words (λ (a : Result (Entry × ℕ) Refusal). ReadsSlot slot table.entry.now a table.exit.now) result out.new }
{
    board::chickadoor_read_slot(table, slot, out)
}

#[unsafe(no_mangle)]
pub extern "C" fn chickadoor_execute(
    table: &mut [u64],
    state: StateRecord,
    word: u64,
    xt: u64,
    xt2: u64,
    out: &mut [u64; 2],
) -> u32
    ensures { Answers number_of executed_words (λ (a : Result ℕ Refusal). Executes (state_in state) word xt xt2 table.old a table.new) result out.new }
{
    board::chickadoor_execute(table, state, word, xt, xt2, out)
}
