// A word taken apart bit group by bit group, and put together from a row.
use crate::named::Named;
use crate::rows::{numbers_of, row_of};
use machine::Operation;

// Bits 31:19 of 0xD5080000 (SYS) and of 0xD5480000 (SYSP).
const SYS: u64 = 0x1AA1;

const SYSP: u64 = 0x1AA9;

pub fn decode(word: u64) -> Option<Operation> {
    // Bits 63:19, so that 2^32 or more is neither.
    let tlbip = match word / 524288 {
        SYS => false,
        SYSP => true,
        _ => return None,
    };
    // "CRn is 8, or 9 for NXS."
    let nxs = match word / 4096 % 16 {
        8 => false,
        9 => true,
        _ => return None,
    };
    let op1 = (word / 65536 % 8) as u8;
    let crm = (word / 256 % 16) as u8;
    let op2 = (word / 32 % 8) as u8;
    let (name, share) = row_of([op1, crm, op2])?;
    Some(Operation {
        tlbip,
        nxs,
        share,
        name,
        rt: (word % 32) as u8,
    })
}

pub fn encode(op: Named) -> Option<u64> {
    if op.rt > 31 {
        return None;
    }
    let [op1, crm, op2] = numbers_of(op.name, op.share)?;
    let kind = if op.tlbip { SYSP } else { SYS };
    let crn = if op.nxs { 9 } else { 8 };
    let numbers = u64::from(op1) * 65536 + u64::from(crm) * 256 + u64::from(op2) * 32;
    Some(kind * 524288 + crn * 4096 + numbers + u64::from(op.rt))
}
