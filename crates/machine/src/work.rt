// What an operation does to a table.
use crate::entry::Company;

// An operation with its operand: `reached` has a bit for each processor, number 0 lowest; `level` is the level that TTL names, none where
// TTL is 00; `wide` says that the operation is TLBIP, `d128` that D128 is present, `leaves` that the name has L; `asid` is the ASID where
// one applies; `nxs` says that it acts as NXS.
// The granule stays a number: `checking-end` and `held_in` speak of a work that has none, by 0.
#[derive(Clone, Copy)]
pub struct Work {
    pub company: Company,
    pub reached: u64,
    pub granule: u64,
    pub first: u64,
    pub last: u64,
    pub level: Option<i8>,
    pub wide: bool,
    pub d128: bool,
    pub leaves: bool,
    pub asid: Option<u64>,
    pub nxs: bool,
}
