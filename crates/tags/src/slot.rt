// What a slot's base and tag read as.
ghost use Rattle.std.specs.Prelude.{◌≡◌, pos, ◌-ℤ◌};
ghost use Rattle.laws.specs.Bits.{bits};
ghost use Rattle.laws.specs.Mask.{bit_of};
ghost use Rattle.machine.specs.Entry.{is_company, is_placed, span_of};
ghost use Rattle.machine.specs.Tag.{company_at, entry_at, is_entry};
ghost use Rattle.tags.specs.Ends.{end_of};
ghost use Rattle.tags.specs.Rest.{is_reach, is_rest};

use crate::end::end_of;
use crate::number::{level_at, regime_at, security_at};
use machine::{Company, Entry};
use spans::{bit_of, exponent_at};

// Base and tag stay two numbers, as they stand in a table: half of these functions ask for the tag alone.

#[tactic(auto, unfolding(machine::specs::Tag::company_at))]
fn company_at(tag: u64) -> Company
    ensures { result ≡ company_at tag }
{
    Company {
        regime: regime_at(tag / 0x10 % 4),
        security: security_at(tag / 0x40 % 4),
        vmid: (tag / 0x100 % 65536) as u16,
        stage2: tag / 0x1000000 % 2 == 1,
        ns: tag / 0x2000000 % 2 == 1,
    }
}

#[tactic(auto, unfolding(machine::specs::Tag::entry_at))]
pub fn entry_at(base: u64, tag: u64) -> Entry
    ensures { result ≡ entry_at base tag }
{
    Entry {
        processor: (tag / 0x8000000000000 % 8) as u8,
        company: company_at(tag),
        asid: (tag / 0x10000000 % 65536) as u16,
        global: tag / 0x100000000000 % 2 == 1,
        wide: tag / 0x200000000000 % 2 == 1,
        granule: (tag / 0x4000000 % 4) as u8,
        level: level_at(tag),
        leaf: tag / 0x2000000000000 % 2 == 1,
        xs: tag / 0x4000000000000 % 2 == 1,
        base,
    }
}

// The exponent of the span of what stands in a tag, which may be no entry's.
#[tactic(auto, unfolding(machine::specs::Tag::entry_at), using(crate::proofs::Parts::parts))]
pub fn span_at(tag: u64) -> u64
    ensures { result ≡ span_of (entry_at 0 tag) }
{
    let wide = tag / 0x200000000000 % 2 == 1;
    exponent_at(wide, tag / 0x4000000 % 4, tag / 0x400000000000 % 8)
}

// By numbers, and not `entries::is_company`: no entry is made of a slot that is only tested.
// Whose a slot is, by the numbers of its tag: an entry can have that company.
#[tactic(auto, unfolding(machine::specs::Entry::is_company, machine::specs::Tag::company_at))]
fn is_company_at(tag: u64) -> bool
    ensures { result ≡ is_company (company_at tag) }
{
    // "IPA space (as NS; Secure stage 2 only, else 0)", and stage 2 is EL1&0
    if tag / 0x2000000 % 2 == 1 {
        return tag / 0x10 % 16 == 0 && tag / 0x1000000 % 2 == 1;
    }
    // EL1&0 is never Root
    if tag / 0x10 % 4 == 0 {
        return tag / 0x40 % 4 != 3;
    }
    // elsewhere VMID and stage, side by side, are 0
    if tag / 0x100 % 0x20000 != 0 {
        return false;
    }
    // "EL3's state is Root or Secure; other regimes are never Root."
    let security = tag / 0x40 % 4;
    if tag / 0x10 % 4 == 3 {
        security == 3 || security == 0
    } else {
        security != 3
    }
}

// The base is in reach of the tag's company, which has no ASID and no global flag where there are none.
#[tactic(auto, using(crate::proofs::Numbers::numbers))]
fn is_reach_at(base: u64, tag: u64) -> bool
    ensures { result ≡ is_reach base tag }
{
    // stage 1 of EL1&0 or EL2&0, which are regimes 0 and 1
    let two = tag / 0x20 % 2 == 0 && tag / 0x1000000 % 2 == 0;
    if two {
        let top = base / 0x80000000000000;
        matches!(top, 0 | 511)
    } else {
        // ASID and global flag, side by side, are 0
        tag / 0x10000000 % 0x20000 == 0 && base < 0x100000000000000
    }
}

// Where global flag, width, height and leaf bit, side by side, are those of an entry that can stand so: a bit for each of the 64 numbers that they can be.
const PLACED: u64 = 0xFFF00055550;

#[tactic(auto, using(crate::proofs::Numbers::numbers))]
fn is_placed_at(tag: u64) -> bool
    ensures { result ≡ is_placed (bit_of tag 49) (pos 3 -ℤ pos (bits 48 46 tag)) (bit_of tag 44) }
{
    bit_of(PLACED, tag / 0x100000000000 % 64)
}

// The layout number, nothing above bit 53, and the fields of a legal entry, which is not made: a table's every slot is tested.
#[tactic(auto, unfolding(machine::specs::Tag::is_entry), using(crate::proofs::Parts::parts))]
pub fn is_entry(base: u64, tag: u64) -> bool
    ensures { result ≡ is_entry base tag }
{
    tag % 16 == 1 && is_rest(base, tag, end_of(tag)) && is_company_at(tag)
}

// What is left to test of a slot whose layout number and company are an entry's, as they are where its lower part is a key. The end is how far the
// last address of its span lies from its base, which has none of its bits.
#[tactic(auto, using(crate::proofs::Parts::rest))]
pub fn is_rest(base: u64, tag: u64, end: u64) -> bool
    requires { end ≡ end_of tag }
    ensures { result ≡ is_rest base tag }
{
    tag < 0x40000000000000
        && end != 0
        && base & end == 0
        && is_placed_at(tag)
        && is_reach_at(base, tag)
}
