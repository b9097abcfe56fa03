// An entry as C gives it: one with a value that a field cannot have is refused.
ghost use Rattle.std.specs.Prelude.{◌≡◌};
ghost use Rattle.received.specs.Entries.{company_fits, company_in, entry_fits, entry_from};

use crate::number::level_at;
use machine::{Company, Entry, Refusal};
use tags::{regime_at, security_at};

// C passes numbers, of which each bit pattern is a value: a record has no enum and no bool.
#[repr(C)]
#[derive(Clone, Copy)]
pub struct CompanyRecord {
    pub regime: u64,
    pub security: u64,
    pub vmid: u64,
    pub stage2: u64,
    pub ns: u64,
}

// C passes numbers, as above; the level is a signed word.
#[repr(C)]
#[derive(Clone, Copy)]
pub struct EntryRecord {
    pub processor: u64,
    pub company: CompanyRecord,
    pub asid: u64,
    pub global: u64,
    pub wide: u64,
    pub granule: u64,
    pub level: u64,
    pub leaf: u64,
    pub xs: u64,
    pub base: u64,
}

impl CompanyRecord {
    pub(crate) fn fits(self) -> bool
        ensures { result ≡ company_fits self }
    {
        (self.regime < 4)
            & (self.security < 4)
            & (self.vmid < 65536)
            & (self.stage2 < 2)
            & (self.ns < 2)
    }
}

impl From<CompanyRecord> for Company {
    ghost from_gives = { λ given company. company ≡ company_in given };

    #[tactic(auto, unfolding(crate::specs::Entries::company_in))]
    fn from(given: CompanyRecord) -> Company {
        Company {
            regime: regime_at(given.regime),
            security: security_at(given.security),
            vmid: (given.vmid % 65536) as u16,
            stage2: given.stage2 == 1,
            ns: given.ns == 1,
        }
    }
}

impl TryFrom<EntryRecord> for Entry {
    type Error = Refusal;

    ghost try_from_gives = { λ given entry. entry ≡ entry_from given };

    // A flag that fits is its lowest bit. The company is made in its place: of a function's result the compiler would make one number.
    #[tactic(auto, unfolding(crate::specs::Entries::entry_fits, crate::specs::Entries::entry_in, crate::specs::Entries::company_in))]
    fn try_from(given: EntryRecord) -> Result<Entry, Refusal> {
        let numbers = (given.processor < 8) & (given.asid < 65536) & (given.granule < 4);
        let flags = (given.global < 2) & (given.wide < 2) & (given.leaf < 2) & (given.xs < 2);
        let level = level_at(given.level).ok_or(Refusal::Illegal)?;
        if !(given.company.fits() & numbers & flags) {
            return Err(Refusal::Illegal);
        }
        Ok(Entry {
            processor: (given.processor % 256) as u8,
            company: Company {
                regime: regime_at(given.company.regime),
                security: security_at(given.company.security),
                vmid: (given.company.vmid % 65536) as u16,
                stage2: given.company.stage2 % 2 == 1,
                ns: given.company.ns % 2 == 1,
            },
            asid: (given.asid % 65536) as u16,
            global: given.global % 2 == 1,
            wide: given.wide % 2 == 1,
            granule: (given.granule % 256) as u8,
            level,
            leaf: given.leaf % 2 == 1,
            xs: given.xs % 2 == 1,
            base: given.base,
        })
    }
}
