// Who finds what in the table, and who must walk again.
use crate::guests::entries;
use std::io;

pub fn tell_walks(rt: &impl Print, table: &[u64]) -> io::Result<()> {
    let mut nobody = true;
    for vmid in 7..=9 {
        nobody &= tell_guest(rt, table, vmid)? == 0;
    }
    if nobody {
        println!(rt; "nobody walks")?;
    }
    Ok(())
}

// Answers how many walks the guest must make.
fn tell_guest(rt: &impl Print, table: &[u64], vmid: u16) -> io::Result<usize> {
    let entries = entries();
    let own = || entries.iter().filter(|held| held.is_of(vmid));
    for lost in own().filter(|held| !held.is_found(table)) {
        let entry = lost.entry;
        println!(rt;
            "guest {vmid} must walk again for {:#X} (ASID {})",
            entry.base, entry.asid
        )?;
    }
    let found = own().filter(|held| held.is_found(table)).count();
    let walks = own().filter(|held| !held.is_found(table)).count();
    println!(rt;
        "guest {vmid} finds {found} of its {} addresses and pays for {walks} walks",
        own().count()
    )?;
    Ok(walks)
}
