// What each name is, in a table: a row for each.
use machine::{Family, Name, Regime};

// The family, whether the name has L, and whether its operand has an ASID (in a regime that has ASIDs).
fn row(name: Name) -> (Family, bool, bool) {
    match name {
        Name::RVAE1 => (Family::E1, false, true),
        Name::RVAAE1 => (Family::E1, false, false),
        Name::RVALE1 => (Family::E1, true, true),
        Name::RVAALE1 => (Family::E1, true, false),
        Name::RVAE2 => (Family::E2, false, true),
        Name::RVALE2 => (Family::E2, true, true),
        Name::RVAE3 => (Family::E3, false, false),
        Name::RVALE3 => (Family::E3, true, false),
        Name::RIPAS2E1 => (Family::Stage2, false, false),
        Name::RIPAS2LE1 => (Family::Stage2, true, false),
    }
}

pub fn family(name: Name) -> Family {
    row(name).0
}

pub fn has_l(name: Name) -> bool {
    row(name).1
}

// "ASID 63:48 (RVAE1, RVALE1, and E2 names under EL2&0)"
pub fn asid_applies(name: Name, regime: Regime) -> bool {
    row(name).2 && matches!(regime, Regime::EL10 | Regime::EL20)
}
