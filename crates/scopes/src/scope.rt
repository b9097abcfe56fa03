// What an operation that runs acts on.
ghost use Rattle.std.specs.Prelude.{◌≡◌};
ghost use Rattle.machine.specs.Access.{uses_asid, has_l, scope_of};

use crate::reach::reached_by;
use machine::{Name, Operation, Regime, Scope, State};
use processor::{security_in, vmid_in};

#[tactic(auto, unfolding(machine::specs::Access::scope_of))]
pub fn scope_of(state: State, op: Operation, regime: Regime, stage2: bool, nxs: bool) -> Scope
    ensures { result ≡ scope_of state op regime stage2 nxs }
{
    Scope {
        regime,
        security: security_in(state, regime),
        vmid: vmid_in(state, regime),
        stage2,
        reached: reached_by(state, op),
        asid: uses_asid(op.name, regime),
        last: has_l(op.name),
        nxs,
    }
}

fn uses_asid(name: Name, regime: Regime) -> bool
    ensures { result ≡ uses_asid name regime }
{
    match name {
        Name::RVAE1 | Name::RVALE1 => true,
        Name::RVAE2 | Name::RVALE2 => regime == Regime::EL20,
        _ => false,
    }
}

fn has_l(name: Name) -> bool
    ensures { result ≡ has_l name }
{
    matches!(
        name,
        Name::RVALE1 | Name::RVAALE1 | Name::RVALE2 | Name::RVALE3 | Name::RIPAS2LE1
    )
}
