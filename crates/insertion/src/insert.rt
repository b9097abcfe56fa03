// Insert: the lowest slot that reads as empty is taken.
ghost use Rattle.std.specs.Prelude.{false, ◌≡◌, position};
ghost use Rattle.laws.specs.Chunks.{on_slot};
ghost use Rattle.machine.specs.Entry.{is_legal};
ghost use Rattle.machine.specs.Table.{is_empty, inserted_of, insert_table};
ghost use Rattle.machine.specs.declared.entry.Entry.{Entry};

use machine::{Entry, Refusal};
use tables::is_table;
use tags::{is_entry, legal_tag};

#[tactic(auto, unfolding(machine::specs::Table::inserted_of, machine::specs::Table::insert_table), using(laws::proofs::Chunked::chunked))]
pub fn insert_entry(table: &mut [u64], entry: Entry, out: u64) -> Result<usize, Refusal>
    ensures value { result ≡ inserted_of entry table.old }
    ensures table_after { table.new ≡ insert_table entry out table.old }
{
    if !is_table(table.len()) {
        return Err(Refusal::BadShape);
    }
    let tag = legal_tag(entry).ok_or(Refusal::Illegal)?;
    let (slots, _) = table.as_chunks::<3>();
    let slot = first_empty(slots).ok_or(Refusal::Full)?;
    table[3 * slot] = entry.base;
    table[3 * slot + 1] = tag;
    table[3 * slot + 2] = out;
    Ok(slot)
}

// What an entry that is not legal is answered, whatever it is.
#[tactic(auto, unfolding(machine::specs::Entry::is_legal, machine::specs::Table::inserted_of))]
pub fn refuse_entry(table: &[u64]) -> Refusal
    ensures { (e : Entry) → is_legal e ≡ false → Err result ≡ inserted_of e table.now }
{
    if is_table(table.len()) {
        Refusal::Illegal
    } else {
        Refusal::BadShape
    }
}

fn first_empty(slots: &[[u64; 3]]) -> Option<usize>
    ensures { result ≡ position (on_slot is_empty) slots.now }
{
    slots.iter().position(|slot| !is_entry(slot[0], slot[1]))
}
