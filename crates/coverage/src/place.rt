// The places that a search looks at.
ghost use Rattle.std.specs.Prelude.{◌<◌, true, ◌≡◌};
ghost use Rattle.machine.specs.Judge.{leaf_at, level_at};
ghost use Rattle.machine.specs.Span.{is_level};
ghost use Rattle.coverage.specs.Places.{is_asked, placed};

use machine::{Entry, Target};
use spans::has_span;

// Non-leaf levels rising, then leaf levels rising.
// Kinds stay numbers 0 to 6: the book's `leaf_at` and `level_at` and its order of gaps are over them.
#[tactic(auto, unfolding(machine::specs::Judge::leaf_at))]
pub fn leaf_at(j: u8) -> bool
    ensures { result ≡ leaf_at j }
{
    4 <= j
}

#[tactic(auto, unfolding(machine::specs::Judge::leaf_at, machine::specs::Judge::level_at, machine::specs::Span::is_level))]
pub fn level_at(j: u8) -> i8
    requires { j < 7 }
    ensures { (result ≡ level_at j) × (is_level result ≡ true) }
{
    match j {
        0 => -1,
        1 => 0,
        2 => 1,
        3 => 2,
        4 => 1,
        5 => 2,
        _ => 3,
    }
}

// The kind is asked for, and has a span.
#[tactic(auto, unfolding(crate::specs::Places::is_asked))]
pub fn is_asked(target: Target, leaf: bool, level: i8) -> bool
    ensures { result ≡ is_asked target leaf level }
{
    (!target.leaves || leaf) && has_span(target.wide, target.granule as u64, level)
}

pub fn entry_in(target: Target, asid: u16, p: u8, leaf: bool, level: i8, base: u64) -> Entry
    ensures { result ≡ placed target asid p leaf level base }
{
    Entry {
        processor: p,
        company: target.company,
        asid,
        global: false,
        wide: target.wide,
        granule: target.granule,
        level,
        leaf,
        xs: true,
        base,
    }
}
