// The processors that a search has to look at.
ghost use Rattle.std.specs.Prelude.{◌<◌, ◌≡◌};
ghost use Rattle.coverage.specs.Processors.{is_after, is_searched, searched_of, Leads};

use spans::bit_of;
use tags::flag;

// The two sets stay numbers with a bit for each processor, as `Work` and `Target` have them, and two parameters, as `searched_of` of the
// specs takes them.
// The entries of processors that every step reaches go alike, so the lowest of these that the target names stands for all of them.
pub fn searched_of(processors: u64, common: u64) -> u64
    ensures { result ≡ searched_of processors common }
{
    let lead = lead_of(processors, common);
    let mut searched = 0;
    for p in (0..8u64).rev() {
        searched = flag(is_searched(processors, common, lead, p)) + 2 * searched;
    }
    searched
}

// The lowest processor that the target names and every step reaches, if there is one.
// By a `for`: with `find` over the numbers the proof did not close.
fn lead_of(processors: u64, common: u64) -> Option<u64>
    ensures { Leads processors common result }
{
    for p in 0..8u64 {
        if bit_of(processors, p) && bit_of(common, p) {
            return Some(p);
        }
    }
    None
}

#[tactic(auto, using(crate::proofs::Standing::lead_any))]
fn is_searched(processors: u64, common: u64, lead: Option<u64>, p: u64) -> bool
    requires { (p < 8) × Leads processors common lead }
    ensures { result ≡ is_searched processors common p }
{
    bit_of(processors, p) && !(bit_of(common, p) && is_after(p, lead))
}

fn is_after(p: u64, lead: Option<u64>) -> bool
    ensures { result ≡ is_after p lead }
{
    matches!(lead, Some(first) if first < p)
}
