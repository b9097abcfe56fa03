// Which entries go.
ghost use Rattle.std.specs.Prelude.{◌≤◌, true, ◌≡◌};
ghost use Rattle.machine.specs.Entry.{is_legal};
ghost use Rattle.machine.specs.Goes.{is_reached, is_owned, is_granule_of, is_met, is_width_of, is_at_hint, is_asid_of, goes};

use machine::{Entry, Work};
use spans::bit_of;

// Work and entry stay two parameters: each rule holds the one against the other.
fn is_reached(work: Work, entry: Entry) -> bool
    requires { entry.processor ≤ 7 }
    ensures { result ≡ is_reached work entry }
{
    bit_of(work.reached, entry.processor as u64)
}

fn is_width_of(work: Work, entry: Entry) -> bool
    ensures { result ≡ is_width_of work entry }
{
    entry.wide == work.wide
}

fn is_at_hint(work: Work, entry: Entry) -> bool
    ensures { result ≡ is_at_hint work entry }
{
    match work.level {
        Some(level) if entry.leaf => entry.level == level,
        Some(level) => entry.level < level,
        None => true,
    }
}

fn is_asid_of(work: Work, entry: Entry) -> bool
    ensures { result ≡ is_asid_of work entry }
{
    let agrees = match work.asid {
        Some(asid) => entry.asid as u64 == asid,
        None => true,
    };
    agrees | (entry.leaf & entry.global)
}

// Whether an entry goes that is of the operation's company and granule and that its range meets: a caller has looked at these first, since they
// turn most entries away.
pub fn goes(work: Work, entry: Entry) -> bool
    requires { (is_legal entry ≡ true) × (is_owned work entry ≡ true) × (is_granule_of work entry ≡ true) × (is_met work entry ≡ true) }
    ensures { result ≡ goes work entry }
{
    let hinted = work.level.is_some();
    let width = is_width_of(work, entry);
    is_reached(work, entry)
        & (!hinted | (width & is_at_hint(work, entry)))
        & (width | (!hinted & work.d128))
        & (!work.leaves | entry.leaf)
        & is_asid_of(work, entry)
        & (!work.nxs | !entry.xs)
}
