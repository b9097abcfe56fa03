// Whether EL2 is enabled, and what hangs on it: the VMID used, and HCRX_EL2.
ghost use Rattle.std.specs.Prelude.{◌≡◌};
ghost use Rattle.machine.specs.State.{el2_enabled, vmid_of, vmid_in, hcrx_live};

use crate::security::{is_secure, security_of};
use machine::{Regime, State};

#[tactic(auto, unfolding(machine::specs::State::el2_enabled))]
pub fn el2_enabled(state: State) -> bool
    ensures { result ≡ el2_enabled state }
{
    state.present.el2 && (!is_secure(security_of(state)) || (state.features.sel2 && state.scr.eel2))
}

// The VMID of a regime's entries.
#[tactic(auto, unfolding(machine::specs::State::vmid_in))]
pub fn vmid_in(state: State, regime: Regime) -> u16
    ensures { result ≡ vmid_in state regime }
{
    match regime {
        Regime::EL10 => vmid_of(state),
        Regime::EL20 | Regime::EL2 | Regime::EL3 => 0,
    }
}

fn vmid_of(state: State) -> u16
    ensures { result ≡ vmid_of state }
{
    if el2_enabled(state) { state.vmid } else { 0 }
}

#[tactic(auto, unfolding(machine::specs::State::hcrx_live))]
pub fn hcrx_live(state: State) -> bool
    ensures { result ≡ hcrx_live state }
{
    state.features.hcx && (!state.present.el3 || state.scr.hxen) && el2_enabled(state)
}
