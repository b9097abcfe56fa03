// What stands for each name and each shareability: a number and a text.
use machine::{Name, Share};

pub fn of_name(name: Name) -> (u8, &'static str) {
    match name {
        Name::RVAE1 => (0, "RVAE1"),
        Name::RVAAE1 => (1, "RVAAE1"),
        Name::RVALE1 => (2, "RVALE1"),
        Name::RVAALE1 => (3, "RVAALE1"),
        Name::RVAE2 => (4, "RVAE2"),
        Name::RVALE2 => (5, "RVALE2"),
        Name::RVAE3 => (6, "RVAE3"),
        Name::RVALE3 => (7, "RVALE3"),
        Name::RIPAS2E1 => (8, "RIPAS2E1"),
        Name::RIPAS2LE1 => (9, "RIPAS2LE1"),
    }
}

// Local has no letters.
pub fn of_share(share: Share) -> (u8, &'static str) {
    match share {
        Share::Local => (0, ""),
        Share::Inner => (1, "IS"),
        Share::Outer => (2, "OS"),
    }
}
