// The family of a name, and the bits of a name and of a shareability: the row rule the other way round.
ghost use Rattle.std.specs.Prelude.{◌≡◌, ◌+◌, ◌*◌, ◌≤◌};
ghost use Rattle.machine.specs.Word.{family_of, op1_of, crm_of, op2_of};

use machine::{Family, Name, Share};

pub fn family_of(name: Name) -> Family
    ensures { result ≡ family_of name }
{
    match name {
        Name::RVAE1 | Name::RVAAE1 | Name::RVALE1 | Name::RVAALE1 => Family::E1,
        Name::RVAE2 | Name::RVALE2 => Family::E2,
        Name::RVAE3 | Name::RVALE3 => Family::E3,
        Name::RIPAS2E1 | Name::RIPAS2LE1 => Family::Stage2,
    }
}

// op1 and the local op2 of a name, in their places in a word: constants in place make two tables, and no shifts.
// An arm that is a constant is a row of a table, and one that is a call is a jump.
pub fn name_bits(name: Name) -> u64
    ensures value { result ≡ op1_of (family_of name) * 65536 + op2_of name Share.Local * 32 }
    ensures upper_bound { result ≤ 0x600A0 }
{
    match name {
        Name::RVAE1 => 0x20,
        Name::RVAAE1 => 0x60,
        Name::RVALE1 => 0xA0,
        Name::RVAALE1 => 0xE0,
        Name::RVAE2 => 0x40020,
        Name::RVALE2 => 0x400A0,
        Name::RVAE3 => 0x60020,
        Name::RVALE3 => 0x600A0,
        Name::RIPAS2E1 => 0x40040,
        Name::RIPAS2LE1 => 0x400C0,
    }
}

// CRm in its place, and what op2 has more than the local one: stage 2 has a CRm of its own, and another op2 for OS.
pub fn share_bits(name: Name, share: Share) -> u64
    ensures sum { result + op2_of name Share.Local * 32 ≡ crm_of (family_of name) share * 256 + op2_of name share * 32 }
    ensures upper_bound { result ≤ 0x600 }
{
    // Both are looked up and one is taken: by one `match` on the pair, building took 1.2 times as long.
    let shared = match share {
        Share::Local => 0x600,
        Share::Inner => 0x200,
        Share::Outer => 0x500,
    };
    let stage2 = match share {
        Share::Local => 0x400,
        Share::Inner => 0,
        Share::Outer => 0x420,
    };
    if family_of(name) == Family::Stage2 {
        stage2
    } else {
        shared
    }
}
