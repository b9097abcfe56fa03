// Tables of three words a slot: their shape, insert, and look up.
use crate::entry::{has_asids, is_legal};
use crate::numbers::number_of_regime;
use crate::span::{base_at, exponent};
use crate::tag::{slot_at, tag_of};
use machine::{Entry, Match, Refusal, Regime, State};
use second_rules::{is_bad, security_of, vmid_of};

// "Shape is bad if the words aren't a multiple of three or are over 6,144 or 48."
pub fn is_shape(words: &[u64], most: usize) -> bool {
    words.len().is_multiple_of(3) && words.len() <= most
}

pub fn insert(table: &mut [u64], entry: Entry, out: u64) -> Result<usize, Refusal> {
    if !is_shape(table, 6144) {
        return Err(Refusal::BadShape);
    }
    if !is_legal(entry) {
        return Err(Refusal::Illegal);
    }
    let tag = tag_of(entry).ok_or(Refusal::Illegal)?;
    // "the lowest slot that reads as empty"
    for (place, slot) in table.as_chunks_mut::<3>().0.iter_mut().enumerate() {
        if slot_at(slot[0], slot[1]).is_none() {
            *slot = [entry.base, tag, out];
            return Ok(place);
        }
    }
    Err(Refusal::Full)
}

pub fn look_up(
    table: &[u64],
    state: State,
    regime: Regime,
    asid: u16,
    address: u64,
) -> Result<Match, Refusal> {
    if !is_shape(table, 6144) {
        return Err(Refusal::BadShape);
    }
    if is_bad(state) {
        return Err(Refusal::BadState);
    }
    let slots = table.as_chunks::<3>().0;
    let found = slots.iter().position(|&[base, tag, _]| {
        slot_at(base, tag).is_some_and(|entry| is_found(entry, state, regime, asid, address))
    });
    let slot = found.ok_or(Refusal::NotFound(slots.len()))?;
    Ok(Match {
        slot,
        out: slots[slot][2],
        examined: slot + 1,
    })
}

// "a stage 1 leaf of the own processor and that regime whose span holds the address and whose ASID agrees (or it is global, or the regime
// has none); VMID and security state as for an operation"
fn is_found(entry: Entry, state: State, regime: Regime, asid: u16, address: u64) -> bool {
    let company = entry.company;
    if company.stage2 || !entry.leaf {
        return false;
    }
    if entry.processor != state.board.own {
        return false;
    }
    if company.regime != regime {
        return false;
    }
    if company.security != security_of(state, number_of_regime(regime)) {
        return false;
    }
    if company.vmid != vmid_of(state, number_of_regime(regime)) {
        return false;
    }
    if !holds(entry, address) {
        return false;
    }
    entry.asid == asid || entry.global || !has_asids(company)
}

// Whether the entry's span holds the address.
pub fn holds(entry: Entry, address: u64) -> bool {
    exponent(entry.wide, u64::from(entry.granule), entry.level).is_some_and(|exponent| base_at(
        address, exponent,
    ) == entry.base)
}
