// The regime that a name acts on, its VMID, and the unit of its bases.
use crate::numbers::regime_at;
use crate::security::el2_enabled;
use machine::{Family, Regime, State};

// Two functions of a line each: a sentence of the requirements for each bit. State and operation stay two parameters, as its sentences name them.
// "E2H and TGE count as 0 while EL2 is disabled."
fn e2h_counts(state: State) -> bool {
    el2_enabled(state) && state.hcr.e2h
}

fn tge_counts(state: State) -> bool {
    el2_enabled(state) && state.hcr.tge
}

// "E1 at EL1 ... Else regime EL1&0. At EL2/EL3: EL2&0 if {E2H, TGE} is 11, else EL1&0."
fn regime_of_e1(state: State) -> Regime {
    if state.el != 1 && e2h_counts(state) && tge_counts(state) {
        return Regime::EL20;
    }
    Regime::EL10
}

// "E2 names use EL2&0 if E2H is 1, else EL2."
fn regime_of_e2(state: State) -> Regime {
    if e2h_counts(state) {
        return Regime::EL20;
    }
    Regime::EL2
}

pub fn regime_of(state: State, family: Family) -> Regime {
    match family {
        Family::E1 => regime_of_e1(state),
        Family::E2 => regime_of_e2(state),
        Family::E3 => Regime::EL3,
        // "Stage 2 is EL1&0."
        Family::Stage2 => Regime::EL10,
    }
}

// "The VMID used is 0 while EL2 is disabled", and "0 outside EL1&0".
pub fn vmid_in(state: State, regime: Regime) -> u16 {
    if regime != Regime::EL10 || !el2_enabled(state) {
        return 0;
    }
    state.vmid
}

// The same of a regime's number: one that stands for none is outside EL1&0 too.
pub fn vmid_of(state: State, regime: u8) -> u16 {
    regime_at(regime).map_or(0, |regime| vmid_in(state, regime))
}

// DS of the regime acted on, not of the name; what is no regime has none.
fn ds_of(state: State, regime: Option<Regime>, stage2: bool) -> bool {
    if stage2 {
        return state.ds.stage2;
    }
    match regime {
        Some(Regime::EL10) => state.ds.el1,
        Some(Regime::EL20 | Regime::EL2) => state.ds.el2,
        Some(Regime::EL3) => state.ds.el3,
        None => false,
    }
}

// "in units of 64 KiB if LPA2 and the regime's DS hold"
pub fn unit_64k(state: State, regime: u8, stage2: bool) -> bool {
    state.features.lpa2 && ds_of(state, regime_at(regime), stage2)
}
