// A sample of machine code, and its listing.
use std::io;

// The words D5088260, D503201F, D50E85A0 and D54C8620, each with its lowest byte first, and one byte more.
const CODE: [u8; 17] = [
    0x60, 0x82, 0x08, 0xD5, 0x1F, 0x20, 0x03, 0xD5, 0xA0, 0x85, 0x0E, 0xD5, 0x20, 0x86, 0x4C, 0xD5,
    0x00,
];

pub fn list_sample(rt: &impl Print) -> io::Result<()> {
    // The library has no heap: it writes into a buffer that it is lent.
    let mut out = [0u8; 256];
    let listed = calls::list(&CODE, 0, &mut out);
    if let Some(lines) = out.get(..listed.written) {
        rt.write_all(lines)?;
    }
    let written = calls::tail(CODE.len().saturating_sub(listed.used), &mut out);
    if let Some(tail) = out.get(..written) {
        rt.write_all(tail)?;
    }
    Ok(())
}
