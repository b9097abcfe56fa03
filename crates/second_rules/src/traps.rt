// What traps an E1 name at EL1, in the order of the requirements.
use crate::security::{el2_enabled, hcrx_live};
use machine::{Name, Operation, Share, State};

// "twelve fine-grained trap flags, one per E1 name and shareability"
fn flag_of(state: State, op: Operation) -> bool {
    let flags = match op.name {
        Name::RVAE1 => state.traps.rvae1,
        Name::RVAAE1 => state.traps.rvaae1,
        Name::RVALE1 => state.traps.rvale1,
        Name::RVAALE1 => state.traps.rvaale1,
        _ => return false,
    };
    match op.share {
        Share::Local => flags.local,
        Share::Inner => flags.inner,
        Share::Outer => flags.outer,
    }
}

// "by FGT with EL3 absent or FGTEn 1 and its flag, for NXS also HCX and (HCRX not live or FGTnXS 0)"
fn trapped_by_fgt(state: State, op: Operation) -> bool {
    if !state.features.fgt {
        return false;
    }
    if state.present.el3 && !state.scr.fgten {
        return false;
    }
    if !flag_of(state, op) {
        return false;
    }
    !op.nxs || (state.features.hcx && (!hcrx_live(state) || !state.hcrx.fgtnxs))
}

pub fn trapped_e1(state: State, op: Operation) -> bool {
    if !el2_enabled(state) {
        return false;
    }
    if state.hcr.ttlb {
        return true;
    }
    if op.share == Share::Inner && state.hcr.ttlbis {
        return true;
    }
    if op.share == Share::Outer && state.hcr.ttlbos {
        return true;
    }
    trapped_by_fgt(state, op)
}

// "E2 names and RIPAS2 at EL1: trapped if EL2 enabled and NV, else 3."
pub fn trapped_nv(state: State) -> bool {
    el2_enabled(state) && state.hcr.nv
}
