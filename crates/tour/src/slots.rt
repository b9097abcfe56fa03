// What stands in the table, read back out of its slots.
use crate::told_entry::ToldEntry;
use std::io;

// The runtime and the table are handed on apart: together they are no thing of their own.
pub fn tell_slots(rt: &impl Print, table: &[u64]) -> io::Result<()> {
    let (slots, _) = table.as_chunks::<3>();
    for (k, [base, tag, _]) in slots.iter().enumerate() {
        if tags::is_entry(*base, *tag) {
            println!(rt; "slot {k}: {}", ToldEntry(tags::entry_at(*base, *tag)))?;
        }
    }
    Ok(())
}

pub fn tell_counts(rt: &impl Print, table: &[u64]) -> io::Result<()> {
    println!(rt;
        "guest 7 has {} entries, guest 8 has {}, guest 9 has {}",
        count(table, |vmid| vmid == 7),
        count(table, |vmid| vmid == 8),
        count(table, |vmid| vmid == 9)
    )
}

// The entries of the guests whose VMIDs are asked for.
pub fn count<F: Fn(u16) -> bool>(table: &[u64], is_asked: F) -> usize
    requires { F.IsAlwaysCallable is_asked }
{
    let (slots, _) = table.as_chunks::<3>();
    slots
        .iter()
        .filter(|[base, tag, _]| {
            tags::is_entry(*base, *tag) && is_asked(tags::entry_at(*base, *tag).company.vmid)
        })
        .count()
}
