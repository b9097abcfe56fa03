// What a slot reads as.
use crate::tally::{Seen, Tally};
use inputs::{SlotWords, below, broken, draw, legal_entry, senseless, slot_of};

pub fn slots() -> Tally {
    Tally::of(25000, |n| slot_seen(slot_at(draw(8, n))))
}

fn slot_at(seed: u64) -> SlotWords {
    let entry = legal_entry(draw(seed, 1));
    match below(seed, 0, 8) {
        0..=1 => slot_of(entry, 0),
        2..=4 => slot_of(broken(entry, draw(seed, 2)), 0),
        _ => senseless(slot_of(entry, 0), draw(seed, 3)),
    }
}

// A slot that reads as empty counts as answer 9.
fn slot_seen(slot: SlotWords) -> Seen {
    let SlotWords { base, tag, .. } = slot;
    let ours = tags::is_entry(base, tag).then(|| tags::entry_at(base, tag));
    Seen {
        number: if ours.is_some() { 0 } else { 9 },
        same: ours == second_tables::slot_at(base, tag),
    }
}
