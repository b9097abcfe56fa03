// What an operation that runs acts on.

// EL1&0, EL2&0, EL2 and EL3.
#[derive(Clone, Copy, PartialEq, Eq)]
pub enum Regime {
    EL10,
    EL20,
    EL2,
    EL3,
}

#[derive(Clone, Copy, PartialEq, Eq)]
pub enum Security {
    Secure,
    NonSecure,
    Realm,
    Root,
}

// What an operation acts on, before its operand is read: `reached` has a bit for each processor, number 0 lowest;
// `asid` says that an ASID applies, `last` that the name has L, `nxs` that it acts as NXS.
#[derive(Clone, Copy, PartialEq, Eq)]
pub struct Scope {
    pub regime: Regime,
    pub security: Security,
    pub vmid: u16,
    pub stage2: bool,
    pub reached: u64,
    pub asid: bool,
    pub last: bool,
    pub nxs: bool,
}
