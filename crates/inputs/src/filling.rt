// Tables and lists written by three words at a time, and how many words of them are lent.
use crate::seeds::{below, draw, once_in};
use crate::slots::{slot_for, taken_slot};
use machine::Work;

// Three words at each of the first places, made from the place's number.
pub fn put_threes<F: Fn(u64) -> [u64; 3]>(words: &mut [u64], places: usize, made: F)
    requires { F.IsAlwaysCallable made }
{
    let (threes, _) = words.as_chunks_mut::<3>();
    for (k, three) in threes.iter_mut().take(places).enumerate() {
        *three = made(k as u64);
    }
}

// Slots aimed at the one or the other of two works. A table that is too large keeps the slots behind so many empty.
pub fn fill(table: &mut [u64], slots: usize, one: Work, two: Work, seed: u64) {
    put_threes(table, slots, |i| {
        let own = draw(seed, i);
        let work = if once_in(own, 0, 2) { one } else { two };
        slot_for(work, draw(own, 1)).words()
    });
}

// Slots that are taken, but for one in n that is aimed at a work and may be empty.
pub fn fill_taken(table: &mut [u64], slots: usize, work: Work, n: u64, seed: u64) {
    put_threes(table, slots, |i| {
        let own = draw(seed, i);
        let inner = draw(own, 1);
        if once_in(own, 0, n) {
            slot_for(work, inner).words()
        } else {
            taken_slot(inner).words()
        }
    });
}

// How many words of the table are lent: three a slot, seldom one or two more.
pub fn words_of(slots: u64, seed: u64) -> usize {
    let more = if once_in(seed, 0, 25) {
        1 + below(seed, 1, 2)
    } else {
        0
    };
    (slots % 4096 * 3 + more) as usize
}
