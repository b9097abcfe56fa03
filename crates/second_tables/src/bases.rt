// The bases at which a level is tried.
use crate::bits::field;
use crate::judging::Case;
use crate::span::{base_at, behind};

impl Case<'_> {
    // The next base to be tried. Of many spans only those are tried that stand right behind the span which holds the last address of some
    // step's range: the lower neighbour of a lowest survivor went by a step that does not meet the survivor.
    pub fn next_base(&self, exponent: u8, base: u64) -> Option<u64> {
        let highest = base_at(self.target.last, exponent);
        if base >= highest {
            return None;
        }
        if self.are_few(exponent) {
            return Some(behind(base, exponent));
        }
        self.steps()
            .iter()
            .filter_map(|words| self.step(*words))
            .map(|step| behind(base_at(step.last, exponent), exponent))
            .filter(|behind| base < *behind && *behind <= highest)
            .min()
    }

    fn are_few(&self, exponent: u8) -> bool {
        let first = base_at(self.target.first, exponent);
        let last = base_at(self.target.last, exponent);
        field(last.wrapping_sub(first), exponent, 64) < 64
    }
}
