// A pair of registers starts at an even one.
ghost use Rattle.std.specs.Prelude.{◌≡◌};
ghost use Rattle.machine.specs.Word.{is_odd_pair};

use machine::Operation;

// SYSP with odd Rt below 31.
pub fn is_odd_pair(op: Operation) -> bool
    ensures { result ≡ is_odd_pair op }
{
    op.tlbip && op.rt % 2 == 1 && op.rt < 31
}
