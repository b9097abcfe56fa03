// An operation as C gives it: one with a value that a field cannot have is refused.
ghost use Rattle.std.specs.Prelude.{◌<◌, ◌≡◌};
ghost use Rattle.received.specs.Operations.{name_at, share_at, operation_fits, operation_from};

use machine::{Name, Operation, Refusal, Share};

// C passes numbers: a record has no enum and no bool.
#[repr(C)]
#[derive(Clone, Copy)]
pub struct OperationRecord {
    pub name: u64,
    pub share: u64,
    pub nxs: u64,
    pub tlbip: u64,
    pub rt: u64,
}

// No TryFrom, here and below: both types are of other crates.
#[tactic(auto, unfolding(crate::specs::Operations::name_at))]
fn name_at(number: u64) -> Name
    ensures { result ≡ name_at number }
{
    match number {
        0 => Name::RVAE1,
        1 => Name::RVAAE1,
        2 => Name::RVALE1,
        3 => Name::RVAALE1,
        4 => Name::RVAE2,
        5 => Name::RVALE2,
        6 => Name::RVAE3,
        7 => Name::RVALE3,
        8 => Name::RIPAS2E1,
        _ => Name::RIPAS2LE1,
    }
}

// Below 3, each bit is a shareability of its own.
#[tactic(auto, unfolding(crate::specs::Operations::share_at))]
fn share_at(number: u64) -> Share
    requires { number < 3 }
    ensures { result ≡ share_at number }
{
    if number % 2 == 1 {
        return Share::Inner;
    }
    if number / 2 % 2 == 1 {
        return Share::Outer;
    }
    Share::Local
}

impl OperationRecord {
    // Whether each field has a value that it can have.
    #[tactic(auto, unfolding(crate::specs::Operations::operation_fits))]
    fn fits(self) -> bool
        ensures { result ≡ operation_fits self }
    {
        (self.name < 10) & (self.share < 3) & (self.nxs < 2) & (self.tlbip < 2) & (self.rt < 32)
    }
}

impl TryFrom<OperationRecord> for Operation {
    type Error = Refusal;

    ghost try_from_gives = { λ given op. op ≡ operation_from given };

    // A flag that fits is its lowest bit.
    #[tactic(auto, unfolding(crate::specs::Operations::operation_fits, crate::specs::Operations::operation_in))]
    fn try_from(given: OperationRecord) -> Result<Operation, Refusal> {
        if !given.fits() {
            return Err(Refusal::Illegal);
        }
        Ok(Operation {
            name: name_at(given.name),
            share: share_at(given.share),
            nxs: given.nxs % 2 == 1,
            tlbip: given.tlbip % 2 == 1,
            rt: (given.rt % 32) as u8,
        })
    }
}
