// A target as C gives it: a value that a field cannot have makes the set of processors empty, so that the target breaks a rule.
ghost use Rattle.std.specs.Prelude.{◌≡◌};
ghost use Rattle.received.specs.Targets.{target_fits, processors_in, target_in};

use crate::entry::CompanyRecord;
use machine::{Company, Target};

// C passes numbers: a record has no bool, and its one ASID is a flag and a number.
#[repr(C)]
#[derive(Clone, Copy)]
pub struct TargetRecord {
    pub company: CompanyRecord,
    pub wide: u64,
    pub granule: u64,
    pub one: u64,
    pub asid: u64,
    pub leaves: u64,
    pub processors: u64,
    pub first: u64,
    pub last: u64,
}

impl TargetRecord {
    #[tactic(auto, unfolding(crate::specs::Targets::target_fits))]
    fn fits(self) -> bool
        ensures { result ≡ target_fits self }
    {
        let numbers = (self.granule < 256) & (self.asid < 65536);
        let flags = (self.wide < 2) & (self.one < 2) & (self.leaves < 2);
        self.company.fits() & numbers & flags
    }

    // The empty set is no target's: judge answers 8 for it, behind what it answers 13 and 2 for.
    fn processors(self) -> u64
        ensures { result ≡ processors_in self }
    {
        if self.fits() { self.processors } else { 0 }
    }
}

impl From<TargetRecord> for Target {
    ghost from_gives = { λ given target. target ≡ target_in given };

    #[tactic(auto, unfolding(crate::specs::Targets::target_in))]
    fn from(given: TargetRecord) -> Target {
        Target {
            company: Company::from(given.company),
            wide: given.wide == 1,
            granule: (given.granule % 256) as u8,
            asid: (given.one == 1).then_some((given.asid % 65536) as u16),
            leaves: given.leaves == 1,
            processors: given.processors(),
            first: given.first,
            last: given.last,
        }
    }
}
