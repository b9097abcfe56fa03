// The span of a legal entry.
ghost use Rattle.std.specs.Prelude.{◌%◌, ◌^◌, ◌≤◌, true, ◌≡◌};
ghost use Rattle.machine.specs.Entry.{span_of, is_legal};

use machine::Entry;
use spans::exponent_of;

// That an entry is legal stands in clauses and in no type: the pages name `span_of` and `goes` as functions of plain entries.
// Its exponent, of which the base is a multiple.
pub fn span_of(entry: Entry) -> u64
    requires { is_legal entry ≡ true }
    ensures { (result ≡ span_of entry) × (result ≤ 54) × (entry.base % 2 ^ result ≡ 0) }
{
    exponent_of(entry.wide, entry.granule as u64, entry.level)
}
