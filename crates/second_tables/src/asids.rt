// The ASIDs that a list's steps hold, and one that none holds.
use crate::entry::has_asids;
use crate::judging::Case;

impl Case<'_> {
    // "the target's ASID or the lowest that no step's used ASID field holds (0 without ASIDs)": 16 steps cannot hold all of 0 to 16.
    pub fn asid_of_gap(&self) -> u16 {
        if let Some(asid) = self.target.asid {
            return asid;
        }
        if !has_asids(self.target.company) {
            return 0;
        }
        (0..17u16).find(|asid| !self.is_used(*asid)).unwrap_or(17)
    }

    fn is_used(&self, asid: u16) -> bool {
        self.steps().iter().any(|words| {
            self.step(*words).is_some_and(|step| step.scope.asid
                && step.fields.asid == u64::from(asid))
        })
    }

    // The ASID that a step's operand holds.
    pub fn asid_in(&self, words: [u64; 3]) -> Option<u16> {
        u16::try_from(self.step(words)?.fields.asid).ok()
    }
}
