// Which entries are legal, rule by rule.
use crate::bits::{field, is_multiple};
use crate::span::exponent;
use machine::{Company, Entry, Regime, Security};

pub fn is_legal(entry: Entry) -> bool {
    let company = entry.company;
    if entry.processor > 7 {
        return false;
    }
    if !is_legal_company(company) {
        return false;
    }
    if !has_asids(company) && (entry.asid != 0 || entry.global) {
        return false;
    }
    if !is_legal_level(entry.leaf, entry.level) {
        return false;
    }
    if !entry.leaf && entry.global {
        return false;
    }
    let Some(exponent) = exponent(entry.wide, u64::from(entry.granule), entry.level) else {
        return false;
    };
    is_multiple(entry.base, exponent) && is_legal_address(company, entry.base)
}

pub fn is_legal_company(company: Company) -> bool {
    let el10 = company.regime == Regime::EL10;
    let secure = company.security == Security::Secure;
    let root = company.security == Security::Root;
    // "VMID (0 outside EL1&0)"
    if !el10 && company.vmid != 0 {
        return false;
    }
    // "Stage 2 is EL1&0."
    if company.stage2 && !el10 {
        return false;
    }
    // "IPA space (as NS; Secure stage 2 only, else 0)"
    if company.ns && !(company.stage2 && secure) {
        return false;
    }
    // "EL3's state is Root or Secure; other regimes are never Root."
    if company.regime == Regime::EL3 {
        root || secure
    } else {
        !root
    }
}

// "ASID and global flag (both 0 in EL2, EL3 and stage 2)"
pub fn has_asids(company: Company) -> bool {
    has_two_halves(company)
}

// "Non-leaf is level -1 to 2 [..], leaf 1 to 3."
fn is_legal_level(leaf: bool, level: i8) -> bool {
    if leaf {
        matches!(level, 1 | 2 | 3)
    } else {
        matches!(level, -1 | 0 | 1 | 2)
    }
}

// "bits 63:55 are equal (stage 1 of EL1&0 and EL2&0), or it is below 2^56 (all else)"
pub fn is_legal_address(company: Company, address: u64) -> bool {
    if has_two_halves(company) {
        matches!(field(address, 55, 9), 0 | 511)
    } else {
        field(address, 56, 8) == 0
    }
}

pub fn has_two_halves(company: Company) -> bool {
    !company.stage2 && matches!(company.regime, Regime::EL10 | Regime::EL20)
}
