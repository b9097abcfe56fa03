// The slot's tag, read and written by the places of docs/TAG.md.
use crate::bits::{doubled, field, is_set};
use crate::entry::is_legal;
use machine::{Company, Entry, Regime, Security};

// What the tag has numbers for, in their order.
const REGIMES: [Regime; 4] = [Regime::EL10, Regime::EL20, Regime::EL2, Regime::EL3];

const SECURITIES: [Security; 4] = [
    Security::Secure,
    Security::NonSecure,
    Security::Realm,
    Security::Root,
];

// "3 minus the level: 0 to 4"
const LEVELS: [i8; 5] = [3, 2, 1, 0, -1];

// "A slot that insert couldn't have written makes no sense and reads as empty": its tag is not the one of the entry that stands in it, or
// this entry is not legal.
pub fn slot_at(base: u64, tag: u64) -> Option<Entry> {
    let entry = standing(base, tag)?;
    (is_legal(entry) && tag_of(entry) == Some(tag)).then_some(entry)
}

fn number_in<T: PartialEq + Copy>(all: &[T], own: T) -> Option<u64> {
    all.iter()
        .position(|one| *one == own)
        .map(|place| place as u64)
}

// None for a level that has no number.
pub fn tag_of(entry: Entry) -> Option<u64> {
    let company = entry.company;
    let tag = [
        (1, 0),
        (number_in(&REGIMES, company.regime)?, 4),
        (number_in(&SECURITIES, company.security)?, 6),
        (u64::from(company.vmid), 8),
        (u64::from(company.stage2), 24),
        (u64::from(company.ns), 25),
        (u64::from(entry.granule), 26),
        (u64::from(entry.asid), 28),
        (u64::from(entry.global), 44),
        (u64::from(entry.wide), 45),
        (number_in(&LEVELS, entry.level)?, 46),
        (u64::from(entry.leaf), 49),
        (u64::from(entry.xs), 50),
        (u64::from(entry.processor), 51),
    ]
    .iter()
    .fold(
        0,
        |tag: u64, &(value, low)| tag.wrapping_add(doubled(value, low)),
    );
    Some(tag)
}

fn standing(base: u64, tag: u64) -> Option<Entry> {
    let company = Company {
        regime: *REGIMES.get(field(tag, 4, 2) as usize)?,
        security: *SECURITIES.get(field(tag, 6, 2) as usize)?,
        vmid: u16::try_from(field(tag, 8, 16)).ok()?,
        stage2: is_set(tag, 24),
        ns: is_set(tag, 25),
    };
    Some(Entry {
        processor: u8::try_from(field(tag, 51, 3)).ok()?,
        company,
        asid: u16::try_from(field(tag, 28, 16)).ok()?,
        global: is_set(tag, 44),
        wide: is_set(tag, 45),
        granule: u8::try_from(field(tag, 26, 2)).ok()?,
        level: *LEVELS.get(field(tag, 46, 3) as usize)?,
        leaf: is_set(tag, 49),
        xs: is_set(tag, 50),
        base,
    })
}
