// Processor states: good ones of several shapes, the same with one field turned, and wild ones.
use crate::seeds::{below, draw, flip, number16, once_in, small};
use crate::turns::turned;
use machine::{Board, Ds, Features, Flags, Hcr, Hcrx, Present, Scr, State, Traps};
use std::array;

// The worlds without RME, where `SecureEl2` is Secure with EL2, and those with it.
#[derive(Clone, Copy, PartialEq, Eq)]
enum World {
    Secure,
    NonSecure,
    SecureEl2,
    RmeSecure,
    RmeNonSecure,
    RmeRealm,
    RmeSecureEl2,
}

impl World {
    fn has_rme(self) -> bool {
        matches!(
            self,
            World::RmeSecure | World::RmeNonSecure | World::RmeRealm | World::RmeSecureEl2
        )
    }

    fn is_ns(self) -> bool {
        matches!(
            self,
            World::NonSecure | World::RmeNonSecure | World::RmeRealm
        )
    }

    fn has_secure_el2(self) -> bool {
        matches!(self, World::SecureEl2 | World::RmeSecureEl2)
    }
}

// Whether a host runs: E2H and TGE.
#[derive(Clone, Copy)]
struct Host {
    e2h: bool,
    tge: bool,
}

const NONE: Host = Host {
    e2h: false,
    tge: false,
};

const E2H: Host = Host {
    e2h: true,
    tge: false,
};

const TGE: Host = Host {
    e2h: false,
    tge: true,
};

const BOTH: Host = Host {
    e2h: true,
    tge: true,
};

// The exception level, whether there are EL2 and EL3, the world and the host.
const SHAPES: [(u8, bool, bool, World, Host); 22] = [
    (1, true, false, World::Secure, NONE),
    (1, false, false, World::Secure, NONE),
    (2, true, false, World::Secure, BOTH),
    (2, true, true, World::NonSecure, NONE),
    (3, true, true, World::NonSecure, NONE),
    (3, true, true, World::SecureEl2, E2H),
    (3, true, true, World::Secure, BOTH),
    (1, true, true, World::RmeRealm, NONE),
    (1, true, true, World::Secure, NONE),
    (1, true, true, World::SecureEl2, NONE),
    (3, true, true, World::RmeNonSecure, BOTH),
    (2, true, true, World::RmeRealm, BOTH),
    (3, true, true, World::RmeRealm, E2H),
    (1, false, true, World::NonSecure, NONE),
    (2, true, true, World::NonSecure, E2H),
    (3, false, true, World::Secure, BOTH),
    (2, true, true, World::SecureEl2, TGE),
    (3, true, true, World::RmeSecure, E2H),
    (3, true, true, World::RmeSecureEl2, BOTH),
    (3, true, true, World::SecureEl2, NONE),
    (2, true, true, World::RmeSecureEl2, NONE),
    (1, true, true, World::RmeNonSecure, NONE),
];

pub fn good_state(seed: u64) -> State {
    let (el, el2, el3, world, host) = SHAPES[below(seed, 0, 22) as usize];
    let armed = once_in(seed, 1, 6);
    State {
        el,
        present: Present { el2, el3 },
        features: features_of(draw(seed, 2), world, armed),
        scr: Scr {
            ns: world.is_ns(),
            nse: world == World::RmeRealm,
            eel2: world.has_secure_el2(),
            fgten: armed || flip(seed, 3),
            hxen: armed || flip(seed, 4),
        },
        hcr: Hcr {
            e2h: host.e2h,
            tge: host.tge,
            ttlb: once_in(seed, 5, 24),
            ttlbis: once_in(seed, 6, 16),
            ttlbos: once_in(seed, 7, 16),
            nv: flip(seed, 8),
        },
        hcrx: Hcrx {
            fnxs: once_in(seed, 9, 4),
            fgtnxs: !armed && flip(seed, 10),
        },
        traps: traps_of(draw(seed, 11), armed),
        ds: ds_of(draw(seed, 12)),
        vmid: number16(seed, 13),
        board: board_of(draw(seed, 14)),
    }
}

// Mostly present, so that operations run.
fn features_of(seed: u64, world: World, armed: bool) -> Features {
    Features {
        tlbirange: !once_in(seed, 0, 24),
        tlbios: !once_in(seed, 1, 24),
        d128: !once_in(seed, 2, 8),
        xs: !once_in(seed, 3, 8),
        lpa2: flip(seed, 4),
        rme: world.has_rme(),
        sel2: world.has_secure_el2(),
        fgt: armed || flip(seed, 5),
        hcx: armed || flip(seed, 6),
    }
}

fn traps_of(seed: u64, armed: bool) -> Traps {
    let some = !once_in(seed, 0, 3);
    Traps {
        rvae1: flags_of(draw(seed, 1), armed, some),
        rvaae1: flags_of(draw(seed, 2), armed, some),
        rvale1: flags_of(draw(seed, 3), armed, some),
        rvaale1: flags_of(draw(seed, 4), armed, some),
    }
}

fn flags_of(seed: u64, all: bool, none: bool) -> Flags {
    Flags {
        local: all || !none && flip(seed, 0),
        inner: all || !none && flip(seed, 1),
        outer: all || !none && flip(seed, 2),
    }
}

fn ds_of(seed: u64) -> Ds {
    Ds {
        el1: flip(seed, 0),
        el2: flip(seed, 1),
        el3: flip(seed, 2),
        stage2: flip(seed, 3),
    }
}

// Neighbours share an inner domain, and neighbouring inner domains an outer one; above the count the domains are any.
fn board_of(seed: u64) -> Board {
    let count = 1 + below(seed, 0, 8);
    let inner = 1 + below(seed, 1, 8);
    let outer = (1 + below(seed, 2, 4)) * inner;
    let from = below(seed, 3, 200);
    Board {
        own: small(seed, 4, count),
        count: count as u8,
        inner: domains(draw(seed, 5), count, inner, from),
        outer: domains(draw(seed, 6), count, outer, from),
    }
}

fn domains(seed: u64, count: u64, size: u64, from: u64) -> [u8; 8] {
    array::from_fn(|p| domain(seed, p as u64, count, size, from))
}

fn domain(seed: u64, p: u64, count: u64, size: u64, from: u64) -> u8 {
    if p < count {
        ((p / size.max(1)).wrapping_add(from) % 256) as u8
    } else {
        small(seed, p, 4)
    }
}

// Any flags, on any level, on a small board whose domains need not agree.
pub fn wild_state(seed: u64) -> State {
    State {
        el: small(seed, 0, 4),
        present: Present {
            el2: flip(seed, 1),
            el3: flip(seed, 2),
        },
        features: wild_features(draw(seed, 3)),
        scr: Scr {
            ns: flip(seed, 4),
            nse: flip(seed, 5),
            eel2: flip(seed, 6),
            fgten: flip(seed, 7),
            hxen: flip(seed, 8),
        },
        hcr: Hcr {
            e2h: flip(seed, 9),
            tge: flip(seed, 10),
            ttlb: flip(seed, 11),
            ttlbis: flip(seed, 12),
            ttlbos: flip(seed, 13),
            nv: flip(seed, 14),
        },
        hcrx: Hcrx {
            fnxs: flip(seed, 15),
            fgtnxs: flip(seed, 16),
        },
        traps: traps_of(draw(seed, 17), false),
        ds: ds_of(draw(seed, 18)),
        vmid: number16(seed, 19),
        board: wild_board(draw(seed, 20)),
    }
}

fn wild_features(seed: u64) -> Features {
    Features {
        tlbirange: flip(seed, 0),
        tlbios: flip(seed, 1),
        d128: flip(seed, 2),
        xs: flip(seed, 3),
        lpa2: flip(seed, 4),
        rme: flip(seed, 5),
        sel2: flip(seed, 6),
        fgt: flip(seed, 7),
        hcx: flip(seed, 8),
    }
}

fn wild_board(seed: u64) -> Board {
    let inner = wild_domains(draw(seed, 0));
    Board {
        own: small(seed, 1, 4),
        count: small(seed, 2, 9),
        inner,
        outer: if flip(seed, 3) {
            inner
        } else {
            wild_domains(draw(seed, 4))
        },
    }
}

fn wild_domains(seed: u64) -> [u8; 8] {
    array::from_fn(|p| small(seed, p as u64, 4))
}

// Half of the states are good, most of the others have one field turned.
pub fn state_at(seed: u64) -> State {
    let own = draw(seed, 1);
    match below(seed, 0, 16) {
        0..=7 => good_state(own),
        8..=13 => turned(good_state(own), draw(seed, 2)),
        _ => wild_state(own),
    }
}

// For calls that have to get past the state: few are turned, none are wild.
pub fn fair_state(seed: u64) -> State {
    let good = good_state(draw(seed, 1));
    if once_in(seed, 0, 10) {
        turned(good, draw(seed, 2))
    } else {
        good
    }
}
