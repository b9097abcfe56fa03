// The search for an entry of the target that survives every step.
ghost use Rattle.std.specs.Prelude.{length};
ghost use Rattle.judge.specs.Search.{Searched, Searches};

use coverage::{entry_in, is_asked, is_taken, leaf_at, level_at};
use machine::{Entry, Target, Work};
use spans::{bit_of, exponent_of};

// By processor, then by kind, then by address; the first gap ends it, out of all loops. A step that drops the entry of one span drops
// that of each span up to the last it meets, so the addresses go on from there.
#[tactic(auto, using(crate::proofs::Walk::walking))]
pub fn search(works: &[Work], target: Target, asid: u16) -> Option<Entry>
    requires { Searches target works.now (length works.now) asid }
    ensures { Searched target works.now (length works.now) asid result }
{
    'search: {
        'processors: for p in 0..8u8 {
            if !bit_of(target.processors, p as u64) {
                continue;
            }
            'kinds: for j in 0..7u8 {
                let leaf = leaf_at(j);
                let level = level_at(j);
                if !is_asked(target, leaf, level) {
                    continue;
                }
                let k = exponent_of(target.wide, target.granule as u64, level);
                let end = target.last >> k;
                let mut q = target.first >> k;
                'bases: while q <= end {
                    let entry = entry_in(target, asid, p, leaf, level, q << k);
                    'steps: for work in works {
                        if is_taken(*work, entry, q, k) {
                            q = (work.last >> k) + 1;
                            continue 'bases;
                        }
                    }
                    break 'search Some(entry);
                }
            }
        }
        None
    }
}
