// A target, and what judge objects.
ghost use Rattle.std.specs.Prelude.{◌≡◌};
ghost use Rattle.machine.specs.Answer.{objection_number};

use crate::entry::{Company, Entry};

// The entries that a list is to clear: `wide` says that their width is 128 bits; `asid` is the one ASID that is asked for, or none for all;
// `leaves` says that only leaves are; `processors` has a bit for each processor, number 0 lowest; `first` and `last` are addresses.
// Granule and processors stay numbers: judge is given ones that break a rule, and refuses them.
#[derive(Clone, Copy)]
pub struct Target {
    pub company: Company,
    pub wide: bool,
    pub granule: u8,
    pub asid: Option<u16>,
    pub leaves: bool,
    pub processors: u64,
    pub first: u64,
    pub last: u64,
}

// Why a list is not accepted: for the list's shape, the state or the target; for a step that does not answer 0, of which it names the
// first; for a step outside the target's company, of which it names the first; for a gap, with the entry that would survive.
#[derive(Clone, Copy, PartialEq, Eq)]
pub enum Objection {
    BadShape,
    BadState,
    BadTarget,
    Refused(usize),
    Outside(usize),
    Gap(Entry),
}

impl Objection {
    pub fn number(self) -> u8
        ensures { result ≡ objection_number self }
    {
        match self {
            Objection::BadShape => 13,
            Objection::BadState => 2,
            Objection::BadTarget => 8,
            Objection::Refused(_) => 10,
            Objection::Outside(_) => 11,
            Objection::Gap(_) => 12,
        }
    }
}
