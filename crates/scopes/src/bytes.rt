// Eight bytes in one number: which of them are 0.
ghost use Rattle.std.specs.Prelude.{◌≡◌};
ghost use Rattle.scopes.specs.Bytes.{gathered_of, zero_bytes};

// 1 in the place of each byte that is 0: to the lower seven bits of a byte 127 is added, which carries into the top bit if one of them is set.
#[tactic(auto, using(crate::proofs::Eight::zero_told))]
pub fn zero_bytes(number: u64) -> u64
    ensures { result ≡ zero_bytes number 8 }
{
    let some = ((number & 0x7F7F7F7F7F7F7F7F) + 0x7F7F7F7F7F7F7F7F) | number;
    (0x8080808080808080 - (some & 0x8080808080808080)) / 128
}

// The lowest bits of the eight side by side.
pub fn gathered(bytes: u64) -> u64
    ensures { result ≡ gathered_of bytes }
{
    let mixed = bytes % 0x100000000 + bytes / 0x100000000 * 16;
    mixed * 0x01020408 / 0x1000000 % 256
}
