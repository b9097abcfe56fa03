// An entry by its fields.
use crate::scope::{Regime, Security};

// Whose an entry is: regime, security state, VMID, stage, and IPA space, as NS.
#[derive(Clone, Copy, PartialEq, Eq)]
pub struct Company {
    pub regime: Regime,
    pub security: Security,
    pub vmid: u16,
    pub stage2: bool,
    pub ns: bool,
}

// `wide` says that the width is 128 bits; the granule is a number as TG has it; the base is an address.
// Processor, granule and level stay numbers: insert is given ones that break a rule, and refuses them.
#[derive(Clone, Copy, PartialEq, Eq)]
pub struct Entry {
    pub processor: u8,
    pub company: Company,
    pub asid: u16,
    pub global: bool,
    pub wide: bool,
    pub granule: u8,
    pub level: i8,
    pub leaf: bool,
    pub xs: bool,
    pub base: u64,
}
