// A span of 2^k bytes from a base.
ghost use Rattle.std.specs.Prelude.{◌%◌, ◌^◌, ◌≤◌, ◌≡◌, eqb};
ghost use Rattle.laws.specs.Mask.{bit_of};
ghost use Rattle.machine.specs.Span.{in_span};

pub fn size(k: u64) -> u64
    requires { k ≤ 63 }
    ensures { (result ≡ 2 ^ k) × (1 ≤ result) }
{
    1 << k
}

// Bit k of a set of small numbers.
pub fn bit_of(set: u64, k: u64) -> bool
    requires { k ≤ 63 }
    ensures { result ≡ bit_of set k }
{
    set / size(k) % 2 == 1
}

pub fn is_multiple(base: u64, k: u64) -> bool
    requires { k ≤ 63 }
    ensures { result ≡ eqb (base % 2 ^ k) 0 }
{
    base % size(k) == 0
}

pub fn in_span(base: u64, k: u64, address: u64) -> bool
    requires { k ≤ 63 }
    ensures { result ≡ in_span base k address }
{
    base <= address && address - base < size(k)
}
