// The listing of what a reader gives, written to a writer: the shell round the proved listing of a piece.
#![tactic(auto)]

ghost use Rattle.std.specs.Prelude.{◌≡◌, ◌+◌, ◌%◌, ◌^◌, ◌<◌, ◌≤◌, length, take, drop, OnOk, IfOk, IfSome};
ghost use Rattle.std.specs.Bool.{OnTrue, OnFalse};
ghost use Rattle.std.specs.Io.KnownBytes.{Appends, Consumes, IsAtEnd};
ghost use Rattle.machine.specs.Listing.{lines_of, tail_of};
ghost use Rattle.stream.specs.Whole.{listing_from, Moves};

use std::io;
use std::io::{Read, Write};
use thiserror::Error;

// Why a listing ended before its time: a read failed, or a write. Nothing else can.
#[derive(Debug, Drop, Error)]
pub enum StreamError {
    #[error("input: {0}")]
    Input(io::Error),
    #[error("output: {0}")]
    Output(io::Error),
}

// Lists the code that `input` gives to `output`. Its first byte has the offset `at`, and no more than `most` bytes are
// read at a time. A word that is cut by a read is held over to the next. A read that fails ends the listing as the end
// of the input does, and then is the error; a write that fails ends it at once.
pub fn list_stream<R: Read, W: Write>(
    input: &mut R,
    output: &mut W,
    at: u64,
    most: usize,
) -> Result<(), StreamError>
    ensures { OnOk result (IfSome (R.remaining input.old) (λ code. length code + 1 < 2 ^ 64 →
        Appends (W.contents output.old) (W.contents output.new) (listing_from at code))) }
{
    let mut pieces = Pieces {
        code: [0; 65536],
        text: [0; 65536],
        held: 0,
        offset: at,
    };
    // A proved loop has to end, and nothing says that an input does: no run uses these turns up.
    for _turn in 0..u64::MAX {
        if !pieces.list_next(input, output, most)? {
            return pieces.write_tail(output).map_err(StreamError::Output);
        }
    }
    Ok(())
}

// Code on its way to its listing: the first `held` bytes of `code` are read and not listed yet, and the first of them
// has the offset `offset`.
// Arrays of a fixed size, and no Vec, which could fail to grow: `StreamError` has two cases, as the pages say.
#[derive(Drop)]
struct Pieces {
    code: [u8; 65536],
    text: [u8; 65536],
    held: usize,
    offset: u64,
    ghost few: { held ≤ 3 },
    ghost within: { held ≤ length code },
}

impl Pieces {
    // Reads a piece behind the bytes held over and lists it; there is none at the end of the input.
    fn list_next<R: Read, W: Write>(
        &mut self,
        input: &mut R,
        output: &mut W,
        most: usize,
    ) -> Result<bool, StreamError>
        ensures more { IfOk result (λ more. OnTrue more (Moves
            (R.remaining input.old) (R.remaining input.new)
            (W.contents output.old) (W.contents output.new) self.old.offset self.new.offset
            (take self.old.held self.old.code) (take self.new.held self.new.code))) }
        ensures end { IfOk result (λ more. OnFalse more (IsAtEnd (R.remaining input.old)
            × (output.new ≡ output.old) × (self.new.held ≡ self.old.held))) }
    {
        let held = self.held;
        let read = match read_behind(input, &mut self.code, held, most) {
            Ok(read) => read,
            Err(error) => {
                // The read failed first, so its error is the answer, even where the tail cannot be written.
                let _ = self.write_tail(output);
                return Err(StreamError::Input(error));
            }
        };
        if read == 0 {
            return Ok(false);
        }
        let n = held + read;
        let left = list_words(&self.code[..n], self.offset, output, &mut self.text).map_err(
            StreamError::Output,
        )?;
        self.code.copy_within(n - left..n, 0);
        self.held = left;
        self.offset = self.offset.wrapping_add((n - left) as u64);
        Ok(true)
    }

    fn write_tail<W: Write>(&mut self, output: &mut W) -> io::Result<()>
        ensures { OnOk result (Appends (W.contents output.old) (W.contents output.new)
            (tail_of self.old.held)) }
    {
        let k = listing::list_tail(self.held, &mut self.text);
        output.write_all(&self.text[..k])
    }
}

// Reads `most` bytes at most, but one at least, behind the bytes held over, and answers how many: none at the end of
// the input.
fn read_behind<R: Read>(
    input: &mut R,
    code: &mut [u8],
    held: usize,
    most: usize,
) -> io::Result<usize>
    requires { held < length code.old }
    ensures bound { IfOk result (λ n. held + n ≤ length code.old) }
    ensures most { IfOk result (λ n. 1 < n → n ≤ most) }
    ensures lengths { length code.new ≡ length code.old }
    ensures kept { take held code.new ≡ take held code.old }
    ensures bytes { IfOk result (λ n. Consumes (R.remaining input.old) (R.remaining input.new)
        (take n (drop held code.new))) }
    ensures end { IfOk result (λ n. n ≡ 0 → IsAtEnd (R.remaining input.new)) }
{
    let end = held + most.clamp(1, code.len() - held);
    input.read(&mut code[held..end])
}

// Lists every whole word of the code, unless a write fails, and answers how many bytes are left over.
#[tactic(auto, using(listing::proofs::Longest::progress))]
fn list_words<W: Write>(code: &[u8], at: u64, output: &mut W, text: &mut [u8]) -> io::Result<usize>
    requires { 52 ≤ length text.old }
    ensures left { IfOk result (λ left. left ≡ length code.now % 4) }
    ensures lines { OnOk result (Appends (W.contents output.old) (W.contents output.new)
        (lines_of at code.now)) }
    ensures lengths { length text.new ≡ length text.old }
{
    let mut rest = code;
    let mut at = at;
    // A `while`: how much a turn lists is the listing's answer, which no `for` could step by.
    while 4 <= rest.len() {
        let listed = listing::list_code(rest, at, text);
        output.write_all(&text[..listed.written])?;
        rest = &rest[listed.used..];
        at = at.wrapping_add(listed.used as u64);
    }
    Ok(rest.len())
}
