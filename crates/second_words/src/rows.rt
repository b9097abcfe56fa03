// 'Instruction words' written out: one row for each name and shareability, and a search by either side of a row.
use crate::spelling::{of_name, of_share};
use machine::{Name, Share};

// op1, CRm and op2, as a word has them.
pub type Numbers = [u8; 3];

const ROWS: [(Name, Share, Numbers); 30] = [
    // op1 0: CRm 2 IS, 5 OS, 6 local; op2 1 RVAE1, 3 RVAAE1, 5 RVALE1, 7 RVAALE1.
    (Name::RVAE1, Share::Inner, [0, 2, 1]),
    (Name::RVAE1, Share::Outer, [0, 5, 1]),
    (Name::RVAE1, Share::Local, [0, 6, 1]),
    (Name::RVAAE1, Share::Inner, [0, 2, 3]),
    (Name::RVAAE1, Share::Outer, [0, 5, 3]),
    (Name::RVAAE1, Share::Local, [0, 6, 3]),
    (Name::RVALE1, Share::Inner, [0, 2, 5]),
    (Name::RVALE1, Share::Outer, [0, 5, 5]),
    (Name::RVALE1, Share::Local, [0, 6, 5]),
    (Name::RVAALE1, Share::Inner, [0, 2, 7]),
    (Name::RVAALE1, Share::Outer, [0, 5, 7]),
    (Name::RVAALE1, Share::Local, [0, 6, 7]),
    // op1 4: the same CRm; op2 1 RVAE2, 5 RVALE2.
    (Name::RVAE2, Share::Inner, [4, 2, 1]),
    (Name::RVAE2, Share::Outer, [4, 5, 1]),
    (Name::RVAE2, Share::Local, [4, 6, 1]),
    (Name::RVALE2, Share::Inner, [4, 2, 5]),
    (Name::RVALE2, Share::Outer, [4, 5, 5]),
    (Name::RVALE2, Share::Local, [4, 6, 5]),
    // op1 6: the same CRm; op2 1 RVAE3, 5 RVALE3.
    (Name::RVAE3, Share::Inner, [6, 2, 1]),
    (Name::RVAE3, Share::Outer, [6, 5, 1]),
    (Name::RVAE3, Share::Local, [6, 6, 1]),
    (Name::RVALE3, Share::Inner, [6, 2, 5]),
    (Name::RVALE3, Share::Outer, [6, 5, 5]),
    (Name::RVALE3, Share::Local, [6, 6, 5]),
    // op1 4, CRm 0: op2 2 RIPAS2E1IS, 6 RIPAS2LE1IS.
    (Name::RIPAS2E1, Share::Inner, [4, 0, 2]),
    (Name::RIPAS2LE1, Share::Inner, [4, 0, 6]),
    // op1 4, CRm 4: op2 2 RIPAS2E1, 6 RIPAS2LE1, 3 RIPAS2E1OS, 7 RIPAS2LE1OS.
    (Name::RIPAS2E1, Share::Local, [4, 4, 2]),
    (Name::RIPAS2LE1, Share::Local, [4, 4, 6]),
    (Name::RIPAS2E1, Share::Outer, [4, 4, 3]),
    (Name::RIPAS2LE1, Share::Outer, [4, 4, 7]),
];

pub fn row_of(numbers: Numbers) -> Option<(Name, Share)> {
    ROWS.iter()
        .find(|row| row.2 == numbers)
        .map(|row| (row.0, row.1))
}

// None where no row has the name and the shareability of these numbers.
pub fn numbers_of(name: u8, share: u8) -> Option<Numbers> {
    ROWS.iter()
        .find(|row| of_name(row.0).0 == name && of_share(row.1).0 == share)
        .map(|row| row.2)
}
