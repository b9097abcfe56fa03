// The processor state by its fields, and the board it stands on.

// Which of the upper exception levels there are.
#[derive(Clone, Copy)]
pub struct Present {
    pub el2: bool,
    pub el3: bool,
}

#[derive(Clone, Copy)]
pub struct Features {
    pub tlbirange: bool,
    pub tlbios: bool,
    pub d128: bool,
    pub xs: bool,
    pub lpa2: bool,
    pub rme: bool,
    pub sel2: bool,
    pub fgt: bool,
    pub hcx: bool,
}

// SCR_EL3.
#[derive(Clone, Copy)]
pub struct Scr {
    pub ns: bool,
    pub nse: bool,
    pub eel2: bool,
    pub fgten: bool,
    pub hxen: bool,
}

// HCR_EL2.
#[derive(Clone, Copy)]
pub struct Hcr {
    pub e2h: bool,
    pub tge: bool,
    pub ttlb: bool,
    pub ttlbis: bool,
    pub ttlbos: bool,
    pub nv: bool,
}

// HCRX_EL2.
#[derive(Clone, Copy)]
pub struct Hcrx {
    pub fnxs: bool,
    pub fgtnxs: bool,
}

// One flag for each shareability.
#[derive(Clone, Copy)]
pub struct Flags {
    pub local: bool,
    pub inner: bool,
    pub outer: bool,
}

// The fine-grained trap flags of HFGITR_EL2, one for each E1 name and shareability.
#[derive(Clone, Copy)]
pub struct Traps {
    pub rvae1: Flags,
    pub rvaae1: Flags,
    pub rvale1: Flags,
    pub rvaale1: Flags,
}

// DS of EL1, EL2 and EL3 (TCR_ELx) and of stage 2 (VTCR_EL2).
#[derive(Clone, Copy)]
pub struct Ds {
    pub el1: bool,
    pub el2: bool,
    pub el3: bool,
    pub stage2: bool,
}

// The own number, how many processors there are, and the inner and the outer domain of each. Domains at or above the count have
// no say.
// Two arrays of eight and a count, as C's record has them: no heap, and what stands above the count is in no rule.
#[derive(Clone, Copy)]
pub struct Board {
    pub own: u8,
    pub count: u8,
    pub inner: [u8; 8],
    pub outer: [u8; 8],
}

// The exception level stays a number: a state is given one above 3, and is bad.
#[derive(Clone, Copy)]
pub struct State {
    pub el: u8,
    pub present: Present,
    pub features: Features,
    pub scr: Scr,
    pub hcr: Hcr,
    pub hcrx: Hcrx,
    pub traps: Traps,
    pub ds: Ds,
    pub vmid: u16,
    pub board: Board,
}
