// The access decision: whether an operation runs in a state, by its family.
ghost use Rattle.std.specs.Prelude.{◌≡◌, cond, ◌&&◌};
ghost use Rattle.machine.specs.State.{e2h_of, tge_of};
ghost use Rattle.machine.specs.Access.{acts_nxs, access_nv, access_by, access_of};
ghost use Rattle.machine.specs.Word.{family_of};
ghost use Rattle.access.specs.Ways.{access_in};

use machine::{Family, Operation, Refusal, Regime, Scope, State};
use processor::{el2_enabled, hcrx_live};
use scopes::scope_of;
use traps::{is_barred, is_trapped, trap};
use words::family_of;

// What an operation that its family's rule lets run acts on: the scope is made once for all of them.
#[derive(Clone, Copy)]
pub struct Way {
    pub regime: Regime,
    pub stage2: bool,
    pub nxs: bool,
}

// State and operation stay two parameters, as the book's definitions take them: a struct of both would be taken apart in each clause.
#[tactic(auto, unfolding(machine::specs::Access::access_of))]
pub fn decide(state: State, op: Operation) -> Result<Scope, Refusal>
    ensures { result ≡ access_of state op }
{
    if is_barred(state, op) {
        return Err(Refusal::Undefined);
    }
    let way = way_of(state, op)?;
    Ok(scope_of(state, op, way.regime, way.stage2, way.nxs))
}

// A row of the rules for each guard, in their order; E2 names and RIPAS2 never run at EL1.
#[tactic(auto, unfolding(machine::specs::Access::access_e1, machine::specs::Access::access_e2, machine::specs::Access::access_stage2, machine::specs::Access::access_e3))]
fn way_of(state: State, op: Operation) -> Result<Way, Refusal>
    ensures { access_in state op result ≡ access_by (family_of op.name) state op }
{
    let nxs = op.nxs;
    match family_of(op.name) {
        Family::E1 if state.el != 1 => Ok(Way {
            regime: host_regime(state),
            stage2: false,
            nxs,
        }),
        Family::E1 if is_trapped(state, op) => Err(trap(op)),
        Family::E1 => Ok(Way {
            regime: Regime::EL10,
            stage2: false,
            nxs: acts_nxs(state, op),
        }),
        Family::E2 | Family::Stage2 if state.el == 1 => Err(refusal_nv(state, op)),
        Family::E2 if !el2_enabled(state) => Err(Refusal::Undefined),
        Family::E2 => Ok(Way {
            regime: el2_regime(state),
            stage2: false,
            nxs,
        }),
        Family::Stage2 if !el2_enabled(state) => Err(Refusal::NoEffect),
        Family::Stage2 => Ok(Way {
            regime: Regime::EL10,
            stage2: true,
            nxs,
        }),
        Family::E3 if state.el < 3 => Err(Refusal::Undefined),
        Family::E3 => Ok(Way {
            regime: Regime::EL3,
            stage2: false,
            nxs,
        }),
    }
}

fn acts_nxs(state: State, op: Operation) -> bool
    ensures { result ≡ acts_nxs state op }
{
    op.nxs || (state.features.xs && hcrx_live(state) && state.hcrx.fnxs)
}

fn host_regime(state: State) -> Regime
    ensures { result ≡ cond (e2h_of state && tge_of state) Regime.EL20 Regime.EL10 }
{
    if el2_enabled(state) && state.hcr.e2h && state.hcr.tge {
        Regime::EL20
    } else {
        Regime::EL10
    }
}

fn el2_regime(state: State) -> Regime
    ensures { result ≡ cond (e2h_of state) Regime.EL20 Regime.EL2 }
{
    if el2_enabled(state) && state.hcr.e2h {
        Regime::EL20
    } else {
        Regime::EL2
    }
}

fn refusal_nv(state: State, op: Operation) -> Refusal
    ensures { access_nv state op ≡ Err result }
{
    if el2_enabled(state) && state.hcr.nv {
        trap(op)
    } else {
        Refusal::Undefined
    }
}
