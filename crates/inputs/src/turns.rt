// One field of a processor state turned, so that it alone may decide.
use crate::seeds::{below, draw};
use machine::State;

pub fn turned(state: State, seed: u64) -> State {
    let level = draw(seed, 1);
    let domain = draw(seed, 2);
    // One domain, that of processor p, becomes that of q, or the number above its own.
    let p = below(domain, 0, 8) as usize;
    let q = below(domain, 1, 8) as usize;
    let board = state.board;
    let mut next = state;
    match below(seed, 0, 70) {
        0 => next.features.tlbirange = !state.features.tlbirange,
        1 => next.features.tlbios = !state.features.tlbios,
        2 => next.features.d128 = !state.features.d128,
        3 => next.features.xs = !state.features.xs,
        4 => next.features.lpa2 = !state.features.lpa2,
        5 => next.features.rme = !state.features.rme,
        6 => next.features.sel2 = !state.features.sel2,
        7 => next.features.fgt = !state.features.fgt,
        8 => next.features.hcx = !state.features.hcx,
        9 => next.scr.ns = !state.scr.ns,
        10 => next.scr.nse = !state.scr.nse,
        11 => next.scr.eel2 = !state.scr.eel2,
        12 => next.scr.fgten = !state.scr.fgten,
        13 => next.scr.hxen = !state.scr.hxen,
        14 => next.hcr.e2h = !state.hcr.e2h,
        15 => next.hcr.tge = !state.hcr.tge,
        16 => next.hcr.ttlb = !state.hcr.ttlb,
        17 => next.hcr.ttlbis = !state.hcr.ttlbis,
        18 => next.hcr.ttlbos = !state.hcr.ttlbos,
        19 => next.hcr.nv = !state.hcr.nv,
        20 => next.hcrx.fnxs = !state.hcrx.fnxs,
        21 => next.hcrx.fgtnxs = !state.hcrx.fgtnxs,
        22 => next.traps.rvae1.local = !state.traps.rvae1.local,
        23 => next.traps.rvae1.inner = !state.traps.rvae1.inner,
        24 => next.traps.rvae1.outer = !state.traps.rvae1.outer,
        25 => next.traps.rvaae1.local = !state.traps.rvaae1.local,
        26 => next.traps.rvaae1.inner = !state.traps.rvaae1.inner,
        27 => next.traps.rvaae1.outer = !state.traps.rvaae1.outer,
        28 => next.traps.rvale1.local = !state.traps.rvale1.local,
        29 => next.traps.rvale1.inner = !state.traps.rvale1.inner,
        30 => next.traps.rvale1.outer = !state.traps.rvale1.outer,
        31 => next.traps.rvaale1.local = !state.traps.rvaale1.local,
        32 => next.traps.rvaale1.inner = !state.traps.rvaale1.inner,
        33 => next.traps.rvaale1.outer = !state.traps.rvaale1.outer,
        34 => next.ds.el1 = !state.ds.el1,
        35 => next.ds.el2 = !state.ds.el2,
        36 => next.ds.el3 = !state.ds.el3,
        37 => next.ds.stage2 = !state.ds.stage2,
        38 => next.present.el2 = !state.present.el2,
        39 => next.present.el3 = !state.present.el3,
        // EL0 to EL3, and one that is none.
        40 => next.el = 0,
        41 => next.el = 1,
        42 => next.el = 2,
        43 => next.el = 3,
        44 => next.el = (4 + below(level, 0, 252)) as u8,
        45 => next.el = 4,
        46 => next.vmid = state.vmid.wrapping_add(1),
        47 => next.vmid = 0,
        48 => next.board.count = 0,
        49 => next.board.count = 9,
        50 => next.board.count = board.count.wrapping_sub(1),
        51 => next.board.count = board.count.wrapping_add(1),
        52 => next.board.count = 255,
        53 => next.board.count = 8,
        54 => next.board.own = board.count,
        55 => next.board.own = 255,
        56 => next.board.own = 0,
        57 => next.board.own = board.own.wrapping_add(1),
        58..=61 => next.board.inner[p] = board.inner[q],
        62..=63 => next.board.inner[p] = board.inner[p].wrapping_add(1),
        64..=67 => next.board.outer[p] = board.outer[q],
        _ => next.board.outer[p] = board.outer[p].wrapping_add(1),
    }
    next
}
