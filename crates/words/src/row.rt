// The plain rule: a `match` on op1, CRm and op2 answers the operation row.
ghost use Rattle.std.specs.Prelude.{◌≡◌};
ghost use Rattle.machine.specs.Word.{row_of};

use machine::{Name, Share};

#[tactic(auto, unfolding(machine::specs::Word::row_of))]
pub fn row_of(op1: u8, crm: u8, op2: u8) -> Option<(Name, Share)>
    ensures { result ≡ row_of op1 crm op2 }
{
    let share = match crm {
        2 => Share::Inner,
        5 => Share::Outer,
        _ => Share::Local,
    };
    match (op1, crm, op2) {
        (0, 2 | 5 | 6, 1) => Some((Name::RVAE1, share)),
        (0, 2 | 5 | 6, 3) => Some((Name::RVAAE1, share)),
        (0, 2 | 5 | 6, 5) => Some((Name::RVALE1, share)),
        (0, 2 | 5 | 6, 7) => Some((Name::RVAALE1, share)),
        (4, 2 | 5 | 6, 1) => Some((Name::RVAE2, share)),
        (4, 2 | 5 | 6, 5) => Some((Name::RVALE2, share)),
        (6, 2 | 5 | 6, 1) => Some((Name::RVAE3, share)),
        (6, 2 | 5 | 6, 5) => Some((Name::RVALE3, share)),
        (4, 0, 2) => Some((Name::RIPAS2E1, Share::Inner)),
        (4, 0, 6) => Some((Name::RIPAS2LE1, Share::Inner)),
        (4, 4, 2) => Some((Name::RIPAS2E1, Share::Local)),
        (4, 4, 6) => Some((Name::RIPAS2LE1, Share::Local)),
        (4, 4, 3) => Some((Name::RIPAS2E1, Share::Outer)),
        (4, 4, 7) => Some((Name::RIPAS2LE1, Share::Outer)),
        _ => None,
    }
}
