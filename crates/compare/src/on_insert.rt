// Insert, into tables that are full or have slots that read as empty.
use crate::lent::on_tables;
use crate::tally::{Seen, Tally};
use inputs::{any_work, below, broken, draw, fill_taken, legal_entry, once_in, words_of};
use machine::Entry;

pub fn inserts() -> Tally {
    let mut tally = Tally::drawn(14000, 9, small_insert);
    for (seed, words, few) in [
        (1, 6144, 100000),
        (2, 6144, 1500),
        (3, 6147, 100),
        (4, 6145, 100),
    ] {
        tally.count(large_insert(seed, words, few));
    }
    tally
}

fn small_insert(seed: u64) -> Seen {
    let slots = below(seed, 0, 25);
    let few = if once_in(seed, 1, 2) { 2 } else { 12 };
    let mut table = [0u64; 80];
    fill_taken(
        &mut table,
        slots as usize,
        any_work(draw(seed, 2)),
        few,
        draw(seed, 3),
    );
    insert_seen(
        &mut table,
        words_of(slots, draw(seed, 4)),
        entry_for(draw(seed, 5)),
        draw(seed, 6),
    )
}

fn large_insert(seed: u64, words: usize, few: u64) -> Seen {
    let mut table = [0u64; 6160];
    fill_taken(
        &mut table,
        2048,
        any_work(draw(seed, 2)),
        few,
        draw(seed, 3),
    );
    insert_seen(&mut table, words, legal_entry(draw(seed, 5)), draw(seed, 6))
}

fn entry_for(seed: u64) -> Entry {
    let legal = legal_entry(draw(seed, 0));
    if once_in(seed, 1, 2) {
        legal
    } else {
        broken(legal, draw(seed, 2))
    }
}

fn insert_seen<const N: usize>(table: &mut [u64; N], words: usize, entry: Entry, out: u64) -> Seen {
    on_tables(
        table,
        words,
        |table| calls::insert(table, entry, out),
        |table| second_tables::insert(table, entry, out),
    )
}
