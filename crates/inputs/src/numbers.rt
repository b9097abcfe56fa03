// Enums and levels by number, and back.
use machine::{Form, Name, Regime, Security, Share};

const NAMES: [Name; 10] = [
    Name::RVAE1,
    Name::RVAAE1,
    Name::RVALE1,
    Name::RVAALE1,
    Name::RVAE2,
    Name::RVALE2,
    Name::RVAE3,
    Name::RVALE3,
    Name::RIPAS2E1,
    Name::RIPAS2LE1,
];

const SHARES: [Share; 3] = [Share::Local, Share::Inner, Share::Outer];

const REGIMES: [Regime; 4] = [Regime::EL10, Regime::EL20, Regime::EL2, Regime::EL3];

const SECURITIES: [Security; 4] = [
    Security::Secure,
    Security::NonSecure,
    Security::Realm,
    Security::Root,
];

const FORMS: [Form; 5] = [
    Form::TwoRangesAsid,
    Form::TwoRanges,
    Form::OneRange,
    Form::Stage2Ns,
    Form::Stage2NoNs,
];

// No TryFrom: both types are of other crates, and any number gives one. One function for each enum: a line each.
pub fn name_at(n: u64) -> Name {
    NAMES[n.min(9) as usize]
}

pub fn share_at(n: u64) -> Share {
    SHARES[n.min(2) as usize]
}

pub fn regime_at(n: u64) -> Regime {
    REGIMES[n.min(3) as usize]
}

pub fn regime_number(regime: Regime) -> u8 {
    match regime {
        Regime::EL10 => 0,
        Regime::EL20 => 1,
        Regime::EL2 => 2,
        Regime::EL3 => 3,
    }
}

pub fn security_at(n: u64) -> Security {
    SECURITIES[n.min(3) as usize]
}

pub fn security_number(security: Security) -> u8 {
    match security {
        Security::Secure => 0,
        Security::NonSecure => 1,
        Security::Realm => 2,
        Security::Root => 3,
    }
}

pub fn form_at(n: u64) -> Form {
    FORMS[n.min(4) as usize]
}

// Heights 0 to 4 are levels 3 to -1; the others are no level's.
pub fn level_at(height: u64) -> i8 {
    match height {
        0..=4 => 3 - height as i8,
        5 => -2,
        6 => 4,
        7 => -128,
        _ => 127,
    }
}

// 5 for a level that is none: the makers go on with its height, for which there is no span.
pub fn height_of(level: i8) -> u64 {
    match level {
        -1..=3 => (3 - level) as u64,
        _ => 5,
    }
}
