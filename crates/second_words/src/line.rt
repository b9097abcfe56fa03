// What a line of the listing says: offset, TLBI or TLBIP, name, and registers.
use crate::spelling::{of_name, of_share};
use machine::Operation;
use std::fmt;

// "SYSP with odd Rt below 31 isn't listed."
pub fn is_listed(op: &Operation) -> bool {
    !op.tlbip || op.rt % 2 == 0 || op.rt == 31
}

// "Register 31 prints XZR."
#[derive(Clone, Copy)]
struct Register(u8);

impl fmt::Display for Register {
    fn fmt<W: fmt::Write>(&self, f: &mut fmt::Formatter<W>) -> fmt::Result {
        if self.0 >= 31 {
            write!(f, "XZR")
        } else {
            write!(f, "X{}", self.0)
        }
    }
}

#[derive(Clone, Copy)]
pub struct Line {
    pub offset: usize,
    pub op: Operation,
}

impl fmt::Display for Line {
    // NXS goes after the shareability. Xt2 is the register after Xt; behind 30 and behind 31 it is register 31.
    fn fmt<W: fmt::Write>(&self, f: &mut fmt::Formatter<W>) -> fmt::Result {
        let op = self.op;
        write!(
            f,
            "{} {} {}{}{}, {}",
            self.offset,
            if op.tlbip { "TLBIP" } else { "TLBI" },
            of_name(op.name).1,
            of_share(op.share).1,
            if op.nxs { "NXS" } else { "" },
            Register(op.rt)
        )?;
        if op.tlbip {
            write!(f, ", {}", Register(op.rt.saturating_add(1)))?;
        }
        Ok(())
    }
}
