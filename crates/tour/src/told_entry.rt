// An entry in words.
ghost use Rattle.std.specs.Prelude.{◌≤◌};

use crate::guests::company;
use machine::Entry;
use std::fmt;

#[derive(Clone, Copy)]
pub struct ToldEntry(pub Entry);

impl fmt::Display for ToldEntry {
    fn fmt<W: fmt::Write>(&self, f: &mut fmt::Formatter<W>) -> fmt::Result {
        let ToldEntry(entry) = *self;
        let vmid = entry.company.vmid;
        // 2^k bytes, in the largest unit that divides them.
        let k = exponent(entry);
        let size = 1u64 << (k % 10);
        let unit = unit(k / 10);
        let kind = kind(entry);
        write!(
            f,
            "guest {vmid}, a {size} {unit}iB {kind} at {:#X} (level {}",
            entry.base, entry.level
        )?;
        if entry.global {
            write!(f, ", every ASID")?;
        } else {
            write!(f, ", ASID {}", entry.asid)?;
        }
        if !is_plain(entry) {
            write!(f, ", unlike any entry of this tour")?;
        }
        write!(f, ")")
    }
}

fn exponent(entry: Entry) -> u64 {
    spans::exponent_at(entry.wide, entry.granule as u64 % 4, height(entry.level))
}

// 3 minus the level.
fn height(level: i8) -> u64
    ensures { result ≤ 4 }
{
    match level {
        -1..=3 => (3 - level) as u64,
        _ => 4,
    }
}

// The letter of 1024 to this power.
fn unit(power: u64) -> char {
    match power {
        1 => 'K',
        2 => 'M',
        3 => 'G',
        4 => 'T',
        _ => 'P',
    }
}

fn kind(entry: Entry) -> &'static str {
    match entry.level {
        _ if !entry.leaf => "table entry",
        3 => "page",
        _ => "block",
    }
}

// What the words leave out is as in every entry of the tour.
fn is_plain(entry: Entry) -> bool {
    let own = entry.company;
    entry.processor == 0 && !entry.wide && entry.xs && own == company(own.vmid)
}
