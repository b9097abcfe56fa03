// The processor state as C gives it: flags are bytes, and one that is neither 0 nor 1 makes the state bad.
ghost use Rattle.std.specs.Prelude.{◌≡◌};
ghost use Rattle.received.specs.States.{features_in, scr_in, hcr_in, flags_in, traps_in, board_in, state_in, present_fit, features_fit, scr_fit, hcr_fit, hcrx_fit, flags_fit, traps_fit, ds_fit, state_fits, el_in};

use machine::{Board, Ds, Features, Flags, Hcr, Hcrx, Present, Scr, State, Traps};

// C passes numbers: each flag is a byte. Which of the upper exception levels there are.
#[repr(C)]
#[derive(Clone, Copy)]
pub struct PresentRecord {
    pub el2: u8,
    pub el3: u8,
}

#[repr(C)]
#[derive(Clone, Copy)]
pub struct FeaturesRecord {
    pub tlbirange: u8,
    pub tlbios: u8,
    pub d128: u8,
    pub xs: u8,
    pub lpa2: u8,
    pub rme: u8,
    pub sel2: u8,
    pub fgt: u8,
    pub hcx: u8,
}

// SCR_EL3.
#[repr(C)]
#[derive(Clone, Copy)]
pub struct ScrRecord {
    pub ns: u8,
    pub nse: u8,
    pub eel2: u8,
    pub fgten: u8,
    pub hxen: u8,
}

// HCR_EL2.
#[repr(C)]
#[derive(Clone, Copy)]
pub struct HcrRecord {
    pub e2h: u8,
    pub tge: u8,
    pub ttlb: u8,
    pub ttlbis: u8,
    pub ttlbos: u8,
    pub nv: u8,
}

// HCRX_EL2.
#[repr(C)]
#[derive(Clone, Copy)]
pub struct HcrxRecord {
    pub fnxs: u8,
    pub fgtnxs: u8,
}

// One flag for each shareability.
#[repr(C)]
#[derive(Clone, Copy)]
pub struct FlagsRecord {
    pub local: u8,
    pub inner: u8,
    pub outer: u8,
}

// The fine-grained traps of HFGITR_EL2, one flag for each E1 name and shareability.
#[repr(C)]
#[derive(Clone, Copy)]
pub struct TrapsRecord {
    pub rvae1: FlagsRecord,
    pub rvaae1: FlagsRecord,
    pub rvale1: FlagsRecord,
    pub rvaale1: FlagsRecord,
}

// DS of TCR_EL1, TCR_EL2, TCR_EL3 and VTCR_EL2.
#[repr(C)]
#[derive(Clone, Copy)]
pub struct DsRecord {
    pub el1: u8,
    pub el2: u8,
    pub el3: u8,
    pub stage2: u8,
}

// The arrays are C's, as the header declares them.
#[repr(C)]
#[derive(Clone, Copy)]
pub struct BoardRecord {
    pub own: u8,
    pub count: u8,
    pub inner: [u8; 8],
    pub outer: [u8; 8],
}

// The flags come first and the domains last: a caller copies the record sixteen bytes at a time, and its last sixteen by themselves, so that what is loaded
// here at once lies in one such piece. A load across two of them would wait for both.
#[repr(C)]
#[derive(Clone, Copy)]
pub struct StateRecord {
    pub present: PresentRecord,
    pub features: FeaturesRecord,
    pub scr: ScrRecord,
    pub hcr: HcrRecord,
    pub hcrx: HcrxRecord,
    pub traps: TrapsRecord,
    pub ds: DsRecord,
    pub el: u8,
    pub vmid: u16,
    pub board: BoardRecord,
}

// Flags are compared one beside the other, and all at once: by `all` over an array of them a state takes 1.7 times as many instructions.
impl PresentRecord {
    fn fits(self) -> bool
        ensures { result ≡ present_fit self }
    {
        (self.el2 < 2) & (self.el3 < 2)
    }
}

impl FeaturesRecord {
    fn fits(self) -> bool
        ensures { result ≡ features_fit self }
    {
        (self.tlbirange < 2)
            & (self.tlbios < 2)
            & (self.d128 < 2)
            & (self.xs < 2)
            & (self.lpa2 < 2)
            & (self.rme < 2)
            & (self.sel2 < 2)
            & (self.fgt < 2)
            & (self.hcx < 2)
    }
}

impl From<FeaturesRecord> for Features {
    ghost from_gives = { λ given features. features ≡ features_in given };

    fn from(given: FeaturesRecord) -> Features {
        Features {
            tlbirange: given.tlbirange == 1,
            tlbios: given.tlbios == 1,
            d128: given.d128 == 1,
            xs: given.xs == 1,
            lpa2: given.lpa2 == 1,
            rme: given.rme == 1,
            sel2: given.sel2 == 1,
            fgt: given.fgt == 1,
            hcx: given.hcx == 1,
        }
    }
}

impl ScrRecord {
    fn fits(self) -> bool
        ensures { result ≡ scr_fit self }
    {
        (self.ns < 2) & (self.nse < 2) & (self.eel2 < 2) & (self.fgten < 2) & (self.hxen < 2)
    }
}

impl From<ScrRecord> for Scr {
    ghost from_gives = { λ given scr. scr ≡ scr_in given };

    fn from(given: ScrRecord) -> Scr {
        Scr {
            ns: given.ns == 1,
            nse: given.nse == 1,
            eel2: given.eel2 == 1,
            fgten: given.fgten == 1,
            hxen: given.hxen == 1,
        }
    }
}

impl HcrRecord {
    fn fits(self) -> bool
        ensures { result ≡ hcr_fit self }
    {
        (self.e2h < 2)
            & (self.tge < 2)
            & (self.ttlb < 2)
            & (self.ttlbis < 2)
            & (self.ttlbos < 2)
            & (self.nv < 2)
    }
}

impl From<HcrRecord> for Hcr {
    ghost from_gives = { λ given hcr. hcr ≡ hcr_in given };

    fn from(given: HcrRecord) -> Hcr {
        Hcr {
            e2h: given.e2h == 1,
            tge: given.tge == 1,
            ttlb: given.ttlb == 1,
            ttlbis: given.ttlbis == 1,
            ttlbos: given.ttlbos == 1,
            nv: given.nv == 1,
        }
    }
}

impl HcrxRecord {
    fn fits(self) -> bool
        ensures { result ≡ hcrx_fit self }
    {
        (self.fnxs < 2) & (self.fgtnxs < 2)
    }
}

impl FlagsRecord {
    fn fits(self) -> bool
        ensures { result ≡ flags_fit self }
    {
        (self.local < 2) & (self.inner < 2) & (self.outer < 2)
    }
}

impl From<FlagsRecord> for Flags {
    ghost from_gives = { λ given flags. flags ≡ flags_in given };

    fn from(given: FlagsRecord) -> Flags {
        Flags {
            local: given.local == 1,
            inner: given.inner == 1,
            outer: given.outer == 1,
        }
    }
}

impl TrapsRecord {
    fn fits(self) -> bool
        ensures { result ≡ traps_fit self }
    {
        self.rvae1.fits() & self.rvaae1.fits() & self.rvale1.fits() & self.rvaale1.fits()
    }
}

impl From<TrapsRecord> for Traps {
    ghost from_gives = { λ given traps. traps ≡ traps_in given };

    fn from(given: TrapsRecord) -> Traps {
        Traps {
            rvae1: Flags::from(given.rvae1),
            rvaae1: Flags::from(given.rvaae1),
            rvale1: Flags::from(given.rvale1),
            rvaale1: Flags::from(given.rvaale1),
        }
    }
}

impl DsRecord {
    fn fits(self) -> bool
        ensures { result ≡ ds_fit self }
    {
        (self.el1 < 2) & (self.el2 < 2) & (self.el3 < 2) & (self.stage2 < 2)
    }
}

impl From<BoardRecord> for Board {
    ghost from_gives = { λ given board. board ≡ board_in given };

    fn from(given: BoardRecord) -> Board {
        let inner = given.inner;
        let outer = given.outer;
        Board {
            own: given.own,
            count: given.count,
            inner,
            outer,
        }
    }
}

impl StateRecord {
    #[tactic(auto, unfolding(crate::specs::States::state_fits))]
    fn fits(self) -> bool
        ensures { result ≡ state_fits self }
    {
        self.present.fits()
            & self.features.fits()
            & self.scr.fits()
            & self.hcr.fits()
            & self.hcrx.fits()
            & self.traps.fits()
            & self.ds.fits()
    }

    // 4 is no exception level: a call answers 2 for it, behind what it answers 13 for, so that a flag that is neither 0 nor 1 goes on as a bad state.
    fn el(self) -> u8
        ensures { result ≡ el_in self }
    {
        if self.fits() { self.el } else { 4 }
    }
}

// Registers of two or four flags are made in their place: of a function's result the compiler would make one number, flag by flag, where it
// compares sixteen flags at once.
impl From<StateRecord> for State {
    ghost from_gives = { λ given state. state ≡ state_in given };

    #[tactic(auto, unfolding(crate::specs::States::state_in))]
    fn from(given: StateRecord) -> State {
        State {
            el: given.el(),
            present: Present {
                el2: given.present.el2 == 1,
                el3: given.present.el3 == 1,
            },
            features: Features::from(given.features),
            scr: Scr::from(given.scr),
            hcr: Hcr::from(given.hcr),
            hcrx: Hcrx {
                fnxs: given.hcrx.fnxs == 1,
                fgtnxs: given.hcrx.fgtnxs == 1,
            },
            traps: Traps::from(given.traps),
            ds: Ds {
                el1: given.ds.el1 == 1,
                el2: given.ds.el2 == 1,
                el3: given.ds.el3 == 1,
                stage2: given.ds.stage2 == 1,
            },
            vmid: given.vmid,
            board: Board::from(given.board),
        }
    }
}
