// Which steps drop an entry.
ghost use Rattle.std.specs.Prelude.{◌*◌, ◌^◌, true, ◌≡◌};
ghost use Rattle.machine.specs.Entry.{span_of, is_legal};
ghost use Rattle.machine.specs.Goes.{is_owned, goes};

use machine::{Entry, Work};
use works::goes;

// Whether a step of the entry's company drops it. The entry's span, of 2^k bytes, is number q of its size: the range of a step turns most away.
#[tactic(auto, using(crate::proofs::Covering::turned_away))]
pub fn is_taken(work: Work, entry: Entry, q: u64, k: u64) -> bool
    requires { (is_legal entry ≡ true) × (is_owned work entry ≡ true) × (k ≡ span_of entry) × (entry.base ≡ q * 2 ^ k) }
    ensures { result ≡ goes work entry }
{
    if work.last < entry.base {
        return false;
    }
    if q < work.first >> k {
        return false;
    }
    if entry.granule as u64 != work.granule {
        return false;
    }
    goes(work, entry)
}
