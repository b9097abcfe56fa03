// The first gap, by processor, level and base.
use crate::bits::is_set;
use crate::judging::Case;
use crate::span::{base_at, exponent};
use crate::survivors::Contradiction;
use machine::Entry;

// Leaf or not, and the level: "non-leaf levels rising, then leaf levels rising".
const TURNS: [(bool, i8); 7] = [
    (false, -1),
    (false, 0),
    (false, 1),
    (false, 2),
    (true, 1),
    (true, 2),
    (true, 3),
];

impl Case<'_> {
    // "by lowest processor, then non-leaf levels rising, then leaf levels rising, then lowest base"
    pub fn first_gap(&self) -> Result<Option<Entry>, Contradiction> {
        let asid = self.asid_of_gap();
        for processor in 0..8u8 {
            if is_set(self.target.processors, processor) {
                for &(leaf, level) in TURNS.iter() {
                    if leaf || !self.target.leaves {
                        let entry = self.entry_of(asid, processor, leaf, level);
                        if let Some(gap) = self.gap_of_level(entry)? {
                            return Ok(Some(gap));
                        }
                    }
                }
            }
        }
        Ok(None)
    }

    // "XS 1, not global, the target's ASID or the lowest that no step's used ASID field holds"; at the target's first address.
    fn entry_of(&self, asid: u16, processor: u8, leaf: bool, level: i8) -> Entry {
        Entry {
            processor,
            company: self.target.company,
            asid,
            global: false,
            wide: self.target.wide,
            granule: self.target.granule,
            level,
            leaf,
            xs: true,
            base: self.target.first,
        }
    }

    // One base after the other, rising, as long as there is a next one: at most 64 bases of few spans, or 17 of many.
    fn gap_of_level(&self, entry: Entry) -> Result<Option<Entry>, Contradiction> {
        let Some(exponent) = exponent(entry.wide, u64::from(entry.granule), entry.level) else {
            return Ok(None);
        };
        let mut base = base_at(entry.base, exponent);
        for _ in 0..64u8 {
            let tried = Entry { base, ..entry };
            if self.is_gap(tried)? {
                return Ok(Some(tried));
            }
            let Some(next) = self.next_base(exponent, base) else {
                return Ok(None);
            };
            base = next;
        }
        Ok(None)
    }
}
