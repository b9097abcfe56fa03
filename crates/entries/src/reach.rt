// The addresses in reach of a company.
ghost use Rattle.std.specs.Prelude.{◌≡◌};
ghost use Rattle.machine.specs.Entry.{in_reach};

use crate::company::has_asids;
use machine::Company;

// Bits 63:55 are all 0 or all 1, or the base is below 2^56.
#[tactic(auto, unfolding(machine::specs::Entry::in_reach))]
pub fn in_reach(company: Company, base: u64) -> bool
    ensures { result ≡ in_reach company base }
{
    let top = base / 0x80000000000000 % 512;
    if has_asids(company) {
        matches!(top, 0 | 511)
    } else {
        base < 0x100000000000000
    }
}
