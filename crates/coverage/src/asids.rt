// The ASID of the entry that a search looks for.
ghost use Rattle.coverage.specs.Asids.{LowestOut, NamedBy};

use entries::has_asids;
use machine::Target;
use spans::bit_of;

// The lowest number below 16 that is not in a set, or 16: sixteen steps use sixteen ASIDs at most.
// By a `for`: with `find` over the numbers the proof did not close.
// 16 is no sign for none: it is an ASID, and the lowest free one where 0 to 15 are used.
fn free_asid(used: u64) -> u16
    ensures { LowestOut used result }
{
    for asid in 0..16u16 {
        if !bit_of(used, asid as u64) {
            return asid;
        }
    }
    16
}

// `used` has the ASIDs below 16 that a step uses.
pub fn named_asid(used: u64, target: Target) -> u16
    ensures { NamedBy target used result }
{
    match target.asid {
        Some(asid) => asid,
        None if has_asids(target.company) => free_asid(used),
        None => 0,
    }
}
