// A slot read back.
ghost use Rattle.std.specs.Prelude.{◌≡◌};
ghost use Rattle.machine.specs.Table.{slot_read_of};

use crate::shape::is_table;
use machine::{Entry, Refusal};
use tags::{entry_at, is_entry};

#[tactic(auto, unfolding(machine::specs::Table::slot_read_of))]
pub fn read_slot(table: &[u64], slot: usize) -> Result<(Entry, u64), Refusal>
    ensures value { result ≡ slot_read_of slot table.now }
    ensures table_kept { table.exit.now ≡ table.entry.now }
{
    if !is_table(table.len()) {
        return Err(Refusal::BadShape);
    }
    if table.len() / 3 <= slot {
        return Err(Refusal::NoSlot);
    }
    let base = table[3 * slot];
    let tag = table[3 * slot + 1];
    if !is_entry(base, tag) {
        return Err(Refusal::Empty);
    }
    Ok((entry_at(base, tag), table[3 * slot + 2]))
}
