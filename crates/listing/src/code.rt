// The lines of a piece of code, as many as there is room for, and the tail line.
ghost use Rattle.std.specs.Prelude.{◌≡◌, ◌-◌, ◌<◌, ◌≤◌, [], ◌++◌, length, drop, IfSome, IfNone};
ghost use Rattle.std.specs.Bool.{OnTrue, OnFalse};
ghost use Rattle.machine.specs.Listing.{is_listed, line_at, written_of, tail_of, tail_written};
ghost use Rattle.text.specs.Put.{Put, HasRoom, Gains, SameBuffer};
ghost use Rattle.listing.specs.Listed.{listed_of};

use lines::put_line;
use machine::Operation;
use text::Line;
use words::{OperationWord, is_odd_pair};

// How much of the code has been listed, and how many bytes of text that is.
#[derive(Clone, Copy)]
pub struct Listed {
    pub used: usize,
    pub written: usize,
}

// Lists the code, whose first byte has the offset `at`, up to its last whole word or to the first line that does not
// fit into `out`. The offsets are modulo 2^64.
pub fn list_code(code: &[u8], at: u64, out: &mut [u8]) -> Listed
    ensures value { result ≡ listed_of at code.now (length out.old) }
    ensures out_after { out.new ≡ written_of at code.now (length out.old)
        ++ drop result.written out.old }
{
    // No heap, and a line that does not fit leaves `out` as it was: each is put together here first.
    let mut line = [0u8; 52];
    let mut text = Line::new(out);
    let used = list_words(code, at, &mut text, &mut line);
    Listed {
        used,
        written: text.len,
    }
}

// Puts the tail line of so many bytes left over, if there is room, and answers how many bytes of text that is.
pub fn list_tail(left: usize, out: &mut [u8]) -> usize
    ensures value { result ≡ length (tail_written left (length out.old)) }
    ensures out_after { out.new ≡ tail_written left (length out.old) ++ drop result out.old }
{
    // No heap, and a line that does not fit leaves `out` as it was: it is put together here first.
    let mut line = [0u8; 26];
    let k = put_tail(&mut line, left as u64);
    if out.len() < k {
        return 0;
    }
    out[..k].copy_from_slice(&line[..k]);
    k
}

// The same, into a text that has nothing yet, with the room that a line is put together in; it answers how much of the
// code has been listed.
fn list_words(code: &[u8], at: u64, text: &mut Line<'_>, line: &mut [u8]) -> usize
    requires { (text.old.len ≡ 0) × (52 ≤ length line.old) }
    ensures value { record { used = result; written = text.new.len }
        ≡ listed_of at code.now (length text.old.out.now) }
    ensures out_after { text.new.out.now ≡ written_of at code.now (length text.old.out.now)
        ++ drop text.new.len text.old.out.now }
    ensures buffer { SameBuffer text.old text.new }
{
    let (words, _) = code.as_chunks::<4>();
    let mut used = 0;
    for word in words {
        let offset = at.wrapping_add(used as u64);
        if !list_word(u32::from_le_bytes(*word) as u64, offset, text, line) {
            return used;
        }
        used += 4;
    }
    used
}

// Puts the line of a word, if it has one, unless there is no room for it. Most words have none, and are not copied.
fn list_word(word: u64, at: u64, text: &mut Line<'_>, line: &mut [u8]) -> bool
    requires { 52 ≤ length line.old }
    ensures fits { OnTrue result (Gains text.old text.new
        (line_at at word) (length (line_at at word))) }
    ensures full { OnFalse result ((text.new ≡ text.old)
        × (length text.old.out.now - text.old.len < length (line_at at word))) }
    ensures buffer { SameBuffer text.old text.new }
    ensures lengths { length line.new ≡ length line.old }
{
    match put_word(line, at, word) {
        Some(k) if text.out.len() - text.len < k => false,
        Some(k) => {
            text.put_text(&line[..k]);
            true
        }
        None => true,
    }
}

// The line of a word that has one.
fn put_word(out: &mut [u8], at: u64, word: u64) -> Option<usize>
    requires { 52 ≤ length out.old }
    ensures some { IfSome result (λ k. Put out.old 0 out.new k (line_at at word) 52) }
    ensures none { IfNone result (line_at at word ≡ []) }
{
    if !OperationWord::is_fixed(word) {
        return None;
    }
    match (OperationWord { bits: word }).read() {
        Some(op) if is_listed(op) => Some(put_line(out, at, op)),
        _ => None,
    }
}

// SYSP with odd Rt below 31 isn't listed.
fn is_listed(op: Operation) -> bool
    ensures { result ≡ is_listed op }
{
    !is_odd_pair(op)
}

fn put_tail(out: &mut [u8], left: u64) -> usize
    requires { 26 ≤ length out.old }
    ensures { Put out.old 0 out.new result (tail_of left) 26 }
{
    let mut line = Line::new(out);
    put_count(&mut line, left);
    line.len
}

fn put_count(line: &mut Line<'_>, left: u64)
    requires { HasRoom line.old 26 }
    ensures gains { Gains line.old line.new (tail_of left) 26 }
    ensures buffer { SameBuffer line.old line.new }
{
    if left != 0 {
        line.put_text(b"tail ");
        line.put_number(left);
        line.put_byte(b'\n');
    }
}
