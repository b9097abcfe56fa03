// The listing of small pieces of code.
use crate::tally::{Seen, Tally};
use inputs::{below, draw, flip, given, name_at, once_in, share_at, small, word_of};
use listing::Listed;
use machine::Operation;

pub fn listings() -> Tally {
    Tally::drawn(3000, 14, listing_seen)
}

fn code_word(seed: u64) -> u64 {
    if once_in(seed, 0, 5) {
        return draw(seed, 1);
    }
    let op = Operation {
        name: name_at(below(seed, 2, 10)),
        share: share_at(below(seed, 3, 3)),
        nxs: flip(seed, 4),
        tlbip: flip(seed, 5),
        rt: small(seed, 6, 32),
    };
    given(word_of(op), 6, draw(seed, 7))
}

fn listing_seen(seed: u64) -> Seen {
    let mut code = [0u8; 80];
    put_code(&mut code, draw(seed, 0));
    let len = below(seed, 1, 81) as usize;
    part_seen(&code[..len.min(80)], (52 + below(seed, 2, 300)) as usize)
}

fn put_code(code: &mut [u8], seed: u64) {
    let (words, _) = code.as_chunks_mut::<4>();
    for (place, word) in words.iter_mut().enumerate() {
        *word = ((code_word(draw(seed, place as u64)) % 4294967296) as u32).to_le_bytes();
    }
}

// The second model lists the whole; the proved room lists as much as there is room for, then the rest from there on, then the tail.
fn part_seen(code: &[u8], room: usize) -> Seen {
    let mut theirs = [0u8; 1400];
    let len = second_words::list(code, &mut theirs);
    let mut ours = [0u8; 1400];
    let same = list_parts(code, &mut ours, room).is_some_and(|parts| {
        parts.all == len && parts.is_full(code, &theirs, room) && ours == theirs
    });
    Seen { number: 0, same }
}

// What was listed of the code at first, and how much text all is.
#[derive(Clone, Copy)]
struct Parts {
    first: Listed,
    all: usize,
}

impl Parts {
    // The first part ends with the code's last whole word, or where the next line has no room.
    fn is_full(&self, code: &[u8], text: &[u8], room: usize) -> bool {
        let written = self.first.written;
        let rest = text.get(written..).unwrap_or(&[]);
        self.first.used == code.len() / 4 * 4
            || rest
                .iter()
                .position(|byte| *byte == b'\n')
                .is_none_or(|end| written.saturating_add(end) >= room)
    }
}

// The calls write into a buffer that they are lent, since the library has no heap: `room` is how much at first.
fn list_parts(code: &[u8], out: &mut [u8], room: usize) -> Option<Parts> {
    let first = calls::list(code, 0, out.get_mut(..room)?);
    let rest = calls::list(
        code.get(first.used..)?,
        first.used as u64,
        out.get_mut(first.written..)?,
    );
    let used = first.used.checked_add(rest.used)?;
    let written = first.written.checked_add(rest.written)?;
    let left = code.len().checked_sub(used)?;
    let tail = calls::tail(left, out.get_mut(written..)?);
    Some(Parts {
        first,
        all: written.checked_add(tail)?,
    })
}
