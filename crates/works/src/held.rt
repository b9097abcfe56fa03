// What is known of a word's scope from an earlier step: a list often has one word in many steps, and a state makes the same of it each time.
ghost use Rattle.std.specs.Prelude.{◌≡◌};
ghost use Rattle.works.specs.Held.{scope_in, held_in};

use machine::{Scope, Work};

// A work of granule 0 tells nothing: the pages name this function, and `comes-holds` speaks of such works.
// What the work of an earlier step tells, if it came of the same word.
pub fn held_in(same: bool, work: Work) -> Option<Scope>
    ensures { result ≡ held_in same work }
{
    if same && work.granule != 0 {
        Some(scope_in(work))
    } else {
        None
    }
}

fn scope_in(work: Work) -> Scope
    ensures { result ≡ scope_in work }
{
    Scope {
        regime: work.company.regime,
        security: work.company.security,
        vmid: work.company.vmid,
        stage2: work.company.stage2,
        reached: work.reached,
        asid: work.asid.is_some(),
        last: work.leaves,
        nxs: work.nxs,
    }
}
