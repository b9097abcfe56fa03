// Slots as words: an entry's, laid out as docs/TAG.md says whether it is legal or not, and senseless ones.
use crate::going::{going, missed};
use crate::legal::{broken, legal_entry};
use crate::numbers::{height_of, regime_number, security_number};
use crate::seeds::{below, draw, flip, power};
use machine::{Company, Entry, Work};

#[derive(Clone, Copy)]
pub struct SlotWords {
    pub base: u64,
    pub tag: u64,
    pub out: u64,
}

impl SlotWords {
    const EMPTY: SlotWords = SlotWords {
        base: 0,
        tag: 0,
        out: 0,
    };

    pub(crate) fn words(self) -> [u64; 3] {
        [self.base, self.tag, self.out]
    }
}

fn company_bits(company: Company) -> u64 {
    1 | (regime_number(company.regime) as u64) << 4
        | (security_number(company.security) as u64) << 6
        | (company.vmid as u64) << 8
        | (company.stage2 as u64) << 24
        | (company.ns as u64) << 25
}

pub fn tag_for(entry: Entry) -> u64 {
    company_bits(entry.company)
        | (entry.granule as u64 % 4) << 26
        | (entry.asid as u64) << 28
        | (entry.global as u64) << 44
        | (entry.wide as u64) << 45
        | height_of(entry.level) << 46
        | (entry.leaf as u64) << 49
        | (entry.xs as u64) << 50
        | (entry.processor as u64 % 8) << 51
}

pub fn slot_of(entry: Entry, out: u64) -> SlotWords {
    SlotWords {
        base: entry.base,
        tag: tag_for(entry),
        out,
    }
}

// Some entries go, some would but for one field, some have nothing to do with the work, and some slots make no sense or are empty.
pub fn slot_for(work: Work, seed: u64) -> SlotWords {
    let out = draw(seed, 1);
    let aimed = going(work, draw(seed, 2));
    let other = draw(seed, 3);
    match below(seed, 0, 20) {
        0..=6 => slot_of(aimed, out),
        7..=13 => slot_of(missed(aimed, work, other), out),
        14 => slot_of(legal_entry(other), out),
        15 => slot_of(broken(aimed, other), out),
        16 => SlotWords::EMPTY,
        _ => senseless(slot_of(aimed, out), other),
    }
}

// A slot that reads as an entry, mostly.
pub fn taken_slot(seed: u64) -> SlotWords {
    slot_of(legal_entry(draw(seed, 0)), draw(seed, 1))
}

// A bit of the tag or of the base turned, one word alone, or any words.
pub fn senseless(slot: SlotWords, seed: u64) -> SlotWords {
    let mut next = slot;
    match below(seed, 0, 8) {
        0..=2 => next.tag ^= power(below(seed, 1, 64)),
        3 => next.tag = draw(seed, 2),
        4 => next.tag = draw(seed, 2) % (1 << 54) / 16 * 16 + 1,
        5 => next.tag = 0,
        6 => next.base ^= power(below(seed, 1, 64)),
        _ if flip(seed, 3) => next.base = draw(seed, 4),
        _ => {}
    }
    next
}
