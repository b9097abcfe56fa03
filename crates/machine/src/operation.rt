// An operation by its parts.

// The names, as Arm writes them, without shareability and NXS.
#[derive(Clone, Copy, PartialEq, Eq)]
pub enum Name {
    RVAE1,
    RVAAE1,
    RVALE1,
    RVAALE1,
    RVAE2,
    RVALE2,
    RVAE3,
    RVALE3,
    RIPAS2E1,
    RIPAS2LE1,
}

// The names by what they act on: E1, E2 and E3 names, and RIPAS2.
#[derive(Clone, Copy, PartialEq, Eq)]
pub enum Family {
    E1,
    E2,
    E3,
    Stage2,
}

// Local, IS and OS.
#[derive(Clone, Copy, PartialEq, Eq)]
pub enum Share {
    Local,
    Inner,
    Outer,
}

// TLBI, or TLBIP where `tlbip` holds; `rt` is 0 to 31 in every word. In this order the compiler loads each part by itself: two at once would
// wait for the stores of one byte each that wrote them.
#[derive(Clone, Copy, PartialEq, Eq)]
pub struct Operation {
    pub tlbip: bool,
    pub nxs: bool,
    pub share: Share,
    pub name: Name,
    pub rt: u8,
}
