// A buffer that is lent, and how much text it has.
use std::fmt;

#[derive(Drop)]
pub struct Room<'a> {
    pub out: &'a mut [u8],
    pub len: usize,
}

impl Room<'_> {
    fn put(&mut self, byte: u8) {
        if self.len < self.out.len() {
            self.out[self.len] = byte;
            self.len += 1;
        }
    }
}

// No text is refused: the buffer's end cuts it off.
impl fmt::Write for Room<'_> {
    fn write_str(&mut self, text: &str) -> fmt::Result {
        for byte in text.as_bytes() {
            self.put(*byte);
        }
        Ok(())
    }
}
