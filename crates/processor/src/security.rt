// The security state, by SCR_EL3 and by regime.
ghost use Rattle.std.specs.Prelude.{◌≡◌};
ghost use Rattle.machine.specs.State.{is_secure, security_of, own_security, security_in};

use machine::{Regime, Security, State};

// The security state of a regime's entries.
#[tactic(auto, unfolding(machine::specs::State::security_in))]
pub fn security_in(state: State, regime: Regime) -> Security
    ensures { result ≡ security_in state regime }
{
    match regime {
        Regime::EL10 | Regime::EL20 | Regime::EL2 => security_of(state),
        Regime::EL3 => own_security(state),
    }
}

// The security state that SCR_EL3 gives.
#[tactic(auto, unfolding(machine::specs::State::security_of))]
pub fn security_of(state: State) -> Security
    ensures { result ≡ security_of state }
{
    if !state.present.el3 {
        Security::NonSecure
    } else if !state.scr.ns {
        Security::Secure
    } else if state.features.rme && state.scr.nse {
        Security::Realm
    } else {
        Security::NonSecure
    }
}

fn own_security(state: State) -> Security
    ensures { result ≡ own_security state }
{
    if state.features.rme {
        Security::Root
    } else {
        Security::Secure
    }
}

pub fn is_secure(security: Security) -> bool
    ensures { result ≡ is_secure security }
{
    security == Security::Secure
}
