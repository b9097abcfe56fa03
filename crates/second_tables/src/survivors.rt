// Whether an entry survives a list: it is put into a table of one slot, the list is run on it, and it is seen whether it is still there.
use crate::entry::has_asids;
use crate::execution::run;
use crate::judging::Case;
use crate::table::insert;
use crate::tag::slot_at;
use machine::Entry;

// That the requirements' entry goes where another of the target stays, or that a table does not take an entry or the list does not run: no
// list should show it.
#[derive(Clone, Copy, PartialEq, Eq)]
pub struct Contradiction;

impl Case<'_> {
    // Whether the given entry, the requirements', stays. Where it goes, every entry of the target at its place has to go.
    pub fn is_gap(&self, entry: Entry) -> Result<bool, Contradiction> {
        if self.survives(entry)? {
            return Ok(true);
        }
        if !self.others_go(entry)? {
            return Err(Contradiction);
        }
        Ok(false)
    }

    fn survives(&self, entry: Entry) -> Result<bool, Contradiction> {
        let mut table = [0; 3];
        insert(&mut table, entry, 0).map_err(|_| Contradiction)?;
        run(&mut table, self.state, self.list).map_err(|_| Contradiction)?;
        Ok(slot_at(table[0], table[1]).is_some())
    }

    // The entries that the target asks for at the entry's place, in each ASID that tells them apart.
    fn others_go(&self, entry: Entry) -> Result<bool, Contradiction> {
        if !self.kinds_go(entry)? {
            return Ok(false);
        }
        if !has_asids(self.target.company) {
            return Ok(true);
        }
        if self.target.asid.is_some() {
            return self.foreign_globals_go(entry);
        }
        self.asids_go(entry)
    }

    // Not global and, where that is legal, global.
    fn kinds_go(&self, entry: Entry) -> Result<bool, Contradiction> {
        let both = entry.leaf && has_asids(entry.company);
        Ok(self.both_xs_go(entry, false)? && (!both || self.both_xs_go(entry, true)?))
    }

    // XS 0 and 1.
    fn both_xs_go(&self, entry: Entry, global: bool) -> Result<bool, Contradiction> {
        for xs in [false, true] {
            if self.survives(Entry {
                global,
                xs,
                ..entry
            })? {
                return Ok(false);
            }
        }
        Ok(true)
    }

    // "A one-ASID target includes global leaves": those of another ASID too.
    fn foreign_globals_go(&self, entry: Entry) -> Result<bool, Contradiction> {
        let asid = entry.asid.wrapping_add(1);
        Ok(!entry.leaf || self.both_xs_go(Entry { asid, ..entry }, true)?)
    }

    // Each ASID that some step's operand holds, at the first step that does.
    fn asids_go(&self, entry: Entry) -> Result<bool, Contradiction> {
        for (place, words) in self.steps().iter().enumerate() {
            let asid = self.asid_in(*words).ok_or(Contradiction)?;
            let earlier = self.steps().iter().take(place);
            let is_met = earlier
                .filter_map(|words| self.asid_in(*words))
                .any(|met| met == asid);
            if !is_met && !self.kinds_go(Entry { asid, ..entry })? {
                return Ok(false);
            }
        }
        Ok(true)
    }
}
