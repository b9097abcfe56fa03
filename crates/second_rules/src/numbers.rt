// What the numbers stand for that a caller gives: names, shareabilities and regimes, in the order of their numbers.
use machine::{Name, Regime, Share};

const NAMES: [Name; 10] = [
    Name::RVAE1,
    Name::RVAAE1,
    Name::RVALE1,
    Name::RVAALE1,
    Name::RVAE2,
    Name::RVALE2,
    Name::RVAE3,
    Name::RVALE3,
    Name::RIPAS2E1,
    Name::RIPAS2LE1,
];

const SHARES: [Share; 3] = [Share::Local, Share::Inner, Share::Outer];

const REGIMES: [Regime; 4] = [Regime::EL10, Regime::EL20, Regime::EL2, Regime::EL3];

// One function for each enum: a line each.
pub fn name_at(number: u8) -> Option<Name> {
    NAMES.get(usize::from(number)).copied()
}

pub fn share_at(number: u8) -> Option<Share> {
    SHARES.get(usize::from(number)).copied()
}

pub fn regime_at(number: u8) -> Option<Regime> {
    REGIMES.get(usize::from(number)).copied()
}
