// What the works of a list's steps say together, one step after the other.
ghost use Rattle.std.specs.Prelude.{◌≡◌};
ghost use Rattle.steps.specs.Steps.{asid_bit, unchecked, with_step};

use machine::{Company, Work};
use spans::size;
use tags::same_company;

// The first step that is refused and the first of another company, if there is one; the processors that every step reaches and the ASIDs below 16 that one uses, a bit
// for each, number 0 lowest.
#[derive(Clone, Copy)]
pub struct Checked {
    pub refused: Option<usize>,
    pub outside: Option<usize>,
    pub common: u64,
    pub used: u64,
}

// Before the first step.
pub fn unchecked() -> Checked
    ensures { result ≡ unchecked }
{
    Checked {
        refused: None,
        outside: None,
        common: 255,
        used: 0,
    }
}

// With step i. Every work has a granule, and what stands for none has not.
// Granule 0 stays the sign of no work: the definition `with_step` and `checking-end` speak of it.
pub fn with_step(checked: Checked, company: Company, i: usize, work: Work) -> Checked
    ensures { result ≡ with_step checked company i work }
{
    let none = if work.granule != 0 { None } else { Some(i) };
    let other = if same_company(work.company, company) {
        None
    } else {
        Some(i)
    };
    Checked {
        refused: checked.refused.or(none),
        outside: checked.outside.or(other),
        common: work.reached & checked.common,
        used: checked.used | asid_bit(work.asid),
    }
}

fn asid_bit(asid: Option<u64>) -> u64
    ensures { result ≡ asid_bit asid }
{
    match asid {
        Some(number) if number < 16 => size(number),
        _ => 0,
    }
}
