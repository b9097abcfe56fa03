// The tag of an entry.
ghost use Rattle.std.specs.Prelude.{◌^◌, ◌<◌, ◌≤◌, true, ◌≡◌};
ghost use Rattle.machine.specs.Entry.{is_legal};
ghost use Rattle.machine.specs.Table.{same_company};
ghost use Rattle.machine.specs.Tag.{entry_places, company_tag, tag_of, Sized, is_entry};
ghost use Rattle.tags.specs.Places.{has_places, placed_tag, legal_tag};

use crate::number::{flag, regime_number, security_number};
use crate::slot::is_entry;
use machine::{Company, Entry};
use spans::{height_of, is_level};

#[tactic(auto, unfolding(machine::specs::Tag::company_tag))]
pub fn company_tag(company: Company) -> u64
    ensures { (result ≡ company_tag company) × (result < 2 ^ 26) }
{
    1 + regime_number(company.regime) * 0x10
        + security_number(company.security) * 0x40
        + (company.vmid as u64) * 0x100
        + flag(company.stage2) * 0x1000000
        + flag(company.ns) * 0x2000000
}

// Two companies agree.
#[tactic(auto, unfolding(machine::specs::Table::same_company))]
pub fn same_company(own: Company, other: Company) -> bool
    ensures { result ≡ same_company own other }
{
    own == other
}

#[tactic(auto, unfolding(crate::specs::Places::has_places))]
fn has_places(entry: Entry) -> bool
    ensures { result ≡ has_places entry }
{
    entry.processor <= 7 && entry.granule <= 3 && is_level(entry.level)
}

// The tag of any entry, and 0, which reads as no entry, where it has no places in one: an entry is legal exactly if its base and this tag read as one.
// No Option: it answers every entry, and what it answers is a tag to be read.
#[tactic(auto, unfolding(machine::specs::Tag::is_entry, machine::specs::Entry::is_legal), using(crate::proofs::Places::places))]
pub fn placed_tag(entry: Entry) -> u64
    ensures value { result ≡ placed_tag entry }
    ensures legal { is_entry entry.base result ≡ is_legal entry }
{
    if has_places(entry) { tag_of(entry) } else { 0 }
}

// The tag of a legal entry.
#[tactic(auto, unfolding(machine::specs::Entry::is_legal), using(crate::proofs::Places::legal_tag))]
pub fn legal_tag(entry: Entry) -> Option<u64>
    ensures { result ≡ legal_tag entry }
{
    let tag = placed_tag(entry);
    is_entry(entry.base, tag).then_some(tag)
}

#[tactic(auto, unfolding(crate::specs::Places::has_places, machine::specs::Tag::tag_of))]
fn tag_of(entry: Entry) -> u64
    requires { has_places entry ≡ true }
    ensures { (result ≡ tag_of entry) × Sized entry }
{
    company_tag(entry.company)
        + entry.granule as u64 * 0x4000000
        + entry.asid as u64 * 0x10000000
        + flag(entry.global) * 0x100000000000
        + flag(entry.wide) * 0x200000000000
        + height_of(entry.level) * 0x400000000000
        + flag(entry.leaf) * 0x2000000000000
        + flag(entry.xs) * 0x4000000000000
        + entry.processor as u64 * 0x8000000000000
}
