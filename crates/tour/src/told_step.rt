// An invalidation in words: its instruction word, and what its operand reads as.
use machine::{Form, Told};
use std::fmt;

// TLBI RVAAE1IS, X0.
pub const WORD: u64 = 0xD5088260;

pub const NO_PAGE_SIZE: u64 = 0x0000000000040000;

pub const TWO_PAGES: u64 = 0x0000400000040000;

pub const FOUR_PAGES: u64 = 0x0000408000040000;

const TOLD: Told = Told {
    tlbip: false,
    form: Form::TwoRanges,
    lpa2: false,
    unit64k: false,
};

// The word with this operand.
#[derive(Clone, Copy)]
pub struct ToldStep(pub u64);

impl fmt::Display for ToldStep {
    fn fmt<W: fmt::Write>(&self, f: &mut fmt::Formatter<W>) -> fmt::Result {
        let operand = self.0;
        write!(f, "TLBI RVAAE1IS ({WORD:#010X}) with {operand:#018X}: ")?;
        match calls::read_operand(TOLD, operand, 0) {
            Err(_) => write!(f, "no page size"),
            // (NUM + 1) times 2^(5 SCALE + 1) granules of 4^TG KiB.
            Ok(fields) => write!(
                f,
                "{} pages of {} KiB from {:#X}",
                (fields.num % 32 + 1) << (fields.scale % 4 * 5 + 1),
                1u64 << (fields.tg % 4 * 2),
                fields.base
            ),
        }
    }
}
