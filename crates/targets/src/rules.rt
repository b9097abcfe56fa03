// Which targets break no rule.
ghost use Rattle.std.specs.Prelude.{◌≤◌, ◌≡◌};
ghost use Rattle.machine.specs.Target.{are_processors, are_addresses, is_target};

use entries::{has_asids, in_reach, is_company};
use machine::{Company, State, Target};
use spans::size;

fn are_processors(state: State, processors: u64) -> bool
    requires { state.board.count ≤ 8 }
    ensures { result ≡ are_processors state processors }
{
    0 < processors && processors < size(state.board.count as u64)
}

// First not above last, both in one legal half, or both below 2^56.
#[tactic(auto, unfolding(machine::specs::Target::are_addresses))]
fn are_addresses(company: Company, first: u64, last: u64) -> bool
    ensures { result ≡ are_addresses company first last }
{
    let same_half = first / 0x80000000000000 % 512 == last / 0x80000000000000 % 512;
    first <= last
        && in_reach(company, first)
        && in_reach(company, last)
        && (!has_asids(company) || same_half)
}

#[tactic(auto, unfolding(machine::specs::Target::is_target))]
pub fn is_target(state: State, target: Target) -> bool
    requires { state.board.count ≤ 8 }
    ensures { result ≡ is_target state target }
{
    let company = target.company;
    is_company(company)
        && matches!(target.granule, 1..=3)
        && (target.asid.is_none() || has_asids(company))
        && are_processors(state, target.processors)
        && are_addresses(company, target.first, target.last)
}
