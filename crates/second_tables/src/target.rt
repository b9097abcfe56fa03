// Which targets are legal, rule by rule.
use crate::bits::field;
use crate::entry::{has_asids, has_two_halves, is_legal_address, is_legal_company};
use machine::{State, Target};

pub fn is_legal_target(state: State, target: Target) -> bool {
    let company = target.company;
    // "Its company must be one an entry can have."
    if !is_legal_company(company) {
        return false;
    }
    if !matches!(target.granule, 1 | 2 | 3) {
        return false;
    }
    // "one ASID or all ("all" in EL2, EL3 and stage 2)"
    if target.asid.is_some() && !has_asids(company) {
        return false;
    }
    // "a non-empty set of existing processors"
    if target.processors == 0 || field(target.processors, state.board.count, 64) != 0 {
        return false;
    }
    // "first not above last, both in one legal half (or both below 2^56)"
    if target.first > target.last {
        return false;
    }
    if !is_legal_address(company, target.first) || !is_legal_address(company, target.last) {
        return false;
    }
    !has_two_halves(company) || field(target.first, 55, 1) == field(target.last, 55, 1)
}
