// The access rules: a ladder of answers, the first group before the rest.
use crate::names::{asid_applies, family, has_l};
use crate::numbers::{name_at, share_at};
use crate::reach::reached;
use crate::regimes::{regime_of, vmid_in};
use crate::security::{el2_enabled, hcrx_live, security_in};
use crate::traps::{trapped_e1, trapped_nv};
use machine::{Family, Operation, Refusal, Scope, Share, State};

// "TLBI wants TLBIRANGE, and TLBIOS if OS; TLBIP wants D128; NXS wants XS."
fn feature_absent(state: State, op: Operation) -> bool {
    if op.nxs && !state.features.xs {
        return true;
    }
    if op.tlbip {
        return !state.features.d128;
    }
    !state.features.tlbirange || (op.share == Share::Outer && !state.features.tlbios)
}

// "SYSP with odd Rt below 31 is answer 3."
fn odd_pair(op: Operation) -> bool {
    op.tlbip && op.rt < 31 && op.rt % 2 == 1
}

// "With XS, live HCRX and FnXS 1, plain acts as NXS", for E1 at EL1.
fn acts_as_nxs(state: State, op: Operation) -> bool {
    if op.nxs {
        return true;
    }
    if family(op.name) != Family::E1 || state.el != 1 {
        return false;
    }
    state.features.xs && hcrx_live(state) && state.hcrx.fnxs
}

fn runs(state: State, op: Operation) -> Scope {
    let family = family(op.name);
    let regime = regime_of(state, family);
    Scope {
        regime,
        security: security_in(state, regime),
        vmid: vmid_in(state, regime),
        stage2: family == Family::Stage2,
        reached: reached(state.board, op.share),
        asid: asid_applies(op.name, regime),
        last: has_l(op.name),
        nxs: acts_as_nxs(state, op),
    }
}

// 0x18 (TLBI) or 0x14 (TLBIP), whatever trapped it.
fn trapped(op: Operation) -> Refusal {
    Refusal::Trapped(if op.tlbip { 0x14 } else { 0x18 })
}

fn outcome_e1(state: State, op: Operation) -> Result<Scope, Refusal> {
    if state.el == 1 && trapped_e1(state, op) {
        return Err(trapped(op));
    }
    Ok(runs(state, op))
}

// E2 names and RIPAS2, which part ways only at EL3 with EL2 disabled: "E2 names 3, RIPAS2 5".
fn outcome_el2(state: State, op: Operation) -> Result<Scope, Refusal> {
    if state.el == 1 {
        if trapped_nv(state) {
            return Err(trapped(op));
        }
        return Err(Refusal::Undefined);
    }
    if state.el == 3 && !el2_enabled(state) {
        if family(op.name) == Family::E2 {
            return Err(Refusal::Undefined);
        }
        return Err(Refusal::NoEffect);
    }
    Ok(runs(state, op))
}

// "E3 names below EL3: 3."
fn outcome_e3(state: State, op: Operation) -> Result<Scope, Refusal> {
    if state.el < 3 {
        return Err(Refusal::Undefined);
    }
    Ok(runs(state, op))
}

// Numbers that stand for no name or no shareability are UNDEFINED.
pub fn outcome(
    state: State,
    name: u8,
    share: u8,
    nxs: bool,
    tlbip: bool,
    rt: u8,
) -> Result<Scope, Refusal> {
    let name = name_at(name).ok_or(Refusal::Undefined)?;
    let share = share_at(share).ok_or(Refusal::Undefined)?;
    outcome_of(
        state,
        Operation {
            tlbip,
            nxs,
            share,
            name,
            rt,
        },
    )
}

fn outcome_of(state: State, op: Operation) -> Result<Scope, Refusal> {
    if feature_absent(state, op) {
        return Err(Refusal::Undefined);
    }
    // "EL0 is always 3."
    if state.el == 0 {
        return Err(Refusal::Undefined);
    }
    if odd_pair(op) {
        return Err(Refusal::Undefined);
    }
    match family(op.name) {
        Family::E1 => outcome_e1(state, op),
        Family::E2 | Family::Stage2 => outcome_el2(state, op),
        Family::E3 => outcome_e3(state, op),
    }
}
