// Lists the files of data/: tails and the empty input, corners of the form of 01, and every operation as an assembler
// wrote it; in pieces of several sizes, and at offsets past 2^32 and up to 2^64.
#![tactic(auto)]

use std::{fs, io};

fn main(rt: HostRuntime) -> io::Result<()> {
    list_file(&rt, "empty", 0, 65536)?;
    list_file(&rt, "one_byte", 0, 65536)?;
    list_file(&rt, "two_bytes", 0, 65536)?;
    list_file(&rt, "three_bytes", 0, 65536)?;
    list_file(&rt, "corners", 0, 65536)?;
    list_file(&rt, "corners", 0, 1)?;
    list_file(&rt, "corners", 0, 3)?;
    list_file(&rt, "corners", 0, 5)?;
    list_file(&rt, "corners", 4294967288, 65536)?;
    list_file(&rt, "corners", 18446744073709551600, 65536)?;
    list_file(&rt, "every_operation", 0, 4096)
}

fn list_file(rt: &HostRuntime, path: &str, at: u64, most: usize) -> io::Result<()> {
    println!(rt; "== {path}")?;
    let mut input = match fs::open(rt, path) {
        Ok(input) => input,
        Err(error) => {
            // Where standard error takes nothing either, the next file still comes.
            let _ = eprintln!(rt; "{path}: {error}");
            return Ok(());
        }
    };
    if let Err(error) = stream::list_stream(&mut input, &mut rt.stdout(), at, most) {
        let _ = eprintln!(rt; "{error}");
    }
    Ok(())
}
