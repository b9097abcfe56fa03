// An operand by its fields, what its reader and writer are told, and the range it means.

// Two ranges with ASID, two without, one range, stage 2 with NS (Secure), or stage 2 without.
#[derive(Clone, Copy, PartialEq, Eq)]
pub enum Form {
    TwoRangesAsid,
    TwoRanges,
    OneRange,
    Stage2Ns,
    Stage2NoNs,
}

// What reader and writer are told: TLBIP or TLBI, the form, LPA2, and whether a TLBI base is in units of 64 KiB.
#[derive(Clone, Copy)]
pub struct Told {
    pub tlbip: bool,
    pub form: Form,
    pub lpa2: bool,
    pub unit64k: bool,
}

// The fields as numbers, so that a writer can be given one that does not fit; the base is an address.
#[derive(Clone, Copy, PartialEq, Eq)]
pub struct Operand {
    pub asid: u64,
    pub ns: u64,
    pub tg: u64,
    pub scale: u64,
    pub num: u64,
    pub ttl: u64,
    pub base: u64,
}

// First and last address, both included.
#[derive(Clone, Copy)]
pub struct Range {
    pub first: u64,
    pub last: u64,
}
