// The security state, and whether EL2 is enabled in it.
use crate::numbers::regime_at;
use machine::{Regime, Security, State};

// "Without EL3 the state is Non-secure. Otherwise {NSE, NS} (RME) or NS gives it." {1, 0} with RME is a bad state.
pub fn current_security(state: State) -> Security {
    if !state.present.el3 {
        return Security::NonSecure;
    }
    match (state.features.rme && state.scr.nse, state.scr.ns) {
        (false, false) => Security::Secure,
        (false, true) => Security::NonSecure,
        (true, true) => Security::Realm,
        (true, false) => Security::Root,
    }
}

// "EL3's own is Root with RME, else Secure." The other regimes are of the current state, from EL3 too.
pub fn security_in(state: State, regime: Regime) -> Security {
    if regime != Regime::EL3 {
        return current_security(state);
    }
    if state.features.rme {
        return Security::Root;
    }
    Security::Secure
}

// The same of a regime's number: one that stands for none isn't EL3's.
pub fn security_of(state: State, regime: u8) -> Security {
    regime_at(regime).map_or(current_security(state), |regime| security_in(state, regime))
}

// "EL2 is enabled when present and either the state isn't Secure or SEL2 and EEL2 are both 1."
pub fn el2_enabled(state: State) -> bool {
    if !state.present.el2 {
        return false;
    }
    current_security(state) != Security::Secure || (state.features.sel2 && state.scr.eel2)
}

// "HCRX is live when HCX holds, EL3 is absent or HXEn is 1, and EL2 is enabled."
pub fn hcrx_live(state: State) -> bool {
    state.features.hcx && (!state.present.el3 || state.scr.hxen) && el2_enabled(state)
}
