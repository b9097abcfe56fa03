// The listing's whole text: the code byte by byte, a word at each fourth. There is a line for each word that is an
// operation and is listed, and one for what is left of the code.
use crate::line::{Line, is_listed};
use crate::room::Room;
use crate::word::decode;
use std::alloc::{AllocError, Global};
use std::fmt;

// Writes as much of the text as there is room for, and answers how many bytes that is.
pub fn list(code: &[u8], out: &mut [u8]) -> usize {
    let mut room = Room { out, len: 0 };
    // A room refuses no text.
    let _ = write_list(code, &mut room);
    room.len
}

// The whole text, where there is memory for it. A loop of its own: what is written to any writer fails in another way.
pub fn list_text(alloc: Global, code: &[u8]) -> Result<String, AllocError> {
    let mut text = String::new(alloc);
    let (words, left) = code.as_chunks::<4>();
    for (place, word) in words.iter().enumerate() {
        if let Some(op) = decode(number_of(*word)).filter(is_listed) {
            let offset = 4 * place;
            writeln!(text, "{}", Line { offset, op })?;
        }
    }
    // "No tail line if none."
    if !left.is_empty() {
        writeln!(text, "tail {}", left.len())?;
    }
    Ok(text)
}

// Little-endian: byte k of a word counts 256 ^ k.
fn number_of(word: [u8; 4]) -> u64 {
    word.iter().rev().fold(
        0,
        |number: u64, byte| number.wrapping_mul(256).wrapping_add(u64::from(*byte)),
    )
}

fn write_list<W: fmt::Write>(code: &[u8], out: &mut W) -> fmt::Result {
    let mut word = 0u64;
    for (place, byte) in code.iter().enumerate() {
        word = with_next(word, *byte);
        if place % 4 == 3 {
            write_word(place / 4 * 4, word, out)?;
        }
    }
    let left = code.len() % 4;
    // "No tail line if none."
    if left == 0 {
        return Ok(());
    }
    writeln!(out, "tail {left}")
}

fn write_word<W: fmt::Write>(offset: usize, word: u64, out: &mut W) -> fmt::Result {
    match decode(word) {
        Some(op) if is_listed(&op) => writeln!(out, "{}", Line { offset, op }),
        _ => Ok(()),
    }
}

// Little-endian: a byte is the highest of the four latest. The ones before it move down, the lowest of them out of the
// word.
fn with_next(word: u64, byte: u8) -> u64 {
    word % 4294967296 / 256 + u64::from(byte) * 16777216
}

#[cfg(test)]
mod tests {
    use super::*;

    // RVAAE1IS with X0, a word that is no operation, and a byte that is left.
    const CODE: [u8; 9] = [0x60, 0x82, 0x08, 0xD5, 0, 0, 0, 0, 1];

    #[test]
    fn lists_an_operation_and_a_tail(rt: HostRuntime) -> Result<(), AllocError> {
        let text = list_text(rt.alloc(), &CODE)?;
        assert_eq!(rt; text.as_str(), "0 TLBI RVAAE1IS, X0\ntail 1\n");
        Ok(())
    }

    #[test]
    fn lists_into_a_buffer(rt: HostRuntime) {
        let mut out = [b'.'; 29];
        let len = list(&CODE, &mut out);
        assert_eq!(rt; len, 27);
        assert_eq!(rt;
            out.as_slice(),
            b"0 TLBI RVAAE1IS, X0\ntail 1\n..".as_slice()
        );
    }

    #[test]
    fn cuts_off_at_the_end(rt: HostRuntime) {
        let mut out = [b'.'; 22];
        let len = list(&CODE, &mut out);
        assert_eq!(rt; len, 22);
        assert_eq!(rt; out.as_slice(), b"0 TLBI RVAAE1IS, X0\nta".as_slice());
    }
}
