// What an instruction word and two register words come to in a state.
ghost use Rattle.std.specs.Prelude.{◌<◌, ◌≡◌};
ghost use Rattle.machine.specs.Access.{access_of};
ghost use Rattle.machine.specs.Execute.{resolved_word};
ghost use Rattle.machine.specs.Goes.{level_told, work_of};
ghost use Rattle.works.specs.Held.{Holds, HoldsOf};

use access::decide;
use machine::{Company, Operand, Operation, Range, Refusal, Scope, State, Work};
use ranges::asked;

// The word comes read, with what is held of its scope, also where nothing is: of two functions that ask the access rules, the compiler would take
// them into neither. The state is lent: one that is given has all its fields put aside first.
// Xt and Xt2 stay two parameters, as the public calls and the book's definitions take them.
pub fn resolve(
    state: &State,
    read: Option<Operation>,
    held: Option<Scope>,
    xt: u64,
    xt2: u64,
) -> Result<Work, Refusal>
    requires { Holds state.now read held }
    ensures { result ≡ resolved_word state.now xt xt2 read }
{
    let op = read.ok_or(Refusal::Unknown)?;
    let scope = access_of(state, op, held)?;
    let (operand, range) = asked(*state, op, scope, xt, xt2)?;
    Ok(work_of(state, op, scope, operand, range))
}

fn access_of(state: &State, op: Operation, held: Option<Scope>) -> Result<Scope, Refusal>
    requires { HoldsOf state.now op held }
    ensures { result ≡ access_of state.now op }
{
    match held {
        Some(scope) => Ok(scope),
        None => decide(*state, op),
    }
}

#[tactic(auto, unfolding(machine::specs::Goes::work_of))]
fn work_of(state: &State, op: Operation, scope: Scope, operand: Operand, range: Range) -> Work
    requires { operand.ttl < 4 }
    ensures { result ≡ work_of state.now op scope operand range }
{
    Work {
        company: Company {
            regime: scope.regime,
            security: scope.security,
            vmid: scope.vmid,
            stage2: scope.stage2,
            ns: operand.ns == 1,
        },
        reached: scope.reached,
        granule: operand.tg,
        first: range.first,
        last: range.last,
        level: level_told(operand.ttl),
        wide: op.tlbip,
        d128: state.features.d128,
        leaves: scope.last,
        asid: scope.asid.then_some(operand.asid),
        nxs: scope.nxs,
    }
}

// The level that TTL names, where it is not 00.
fn level_told(ttl: u64) -> Option<i8>
    requires { ttl < 4 }
    ensures { result ≡ level_told ttl }
{
    if ttl == 0 { None } else { Some(ttl as i8) }
}
