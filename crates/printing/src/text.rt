// Text on its way to standard output. It gathers in a buffer, which is written when it is full: a page is one call of the
// system and not one for each word. Only writing can fail: every error here, and in the files that put lines, is that of the write
// that failed.
ghost use Rattle.std.specs.Prelude.{◌≡◌, ◌≤◌};

use std::io;

// The first `len` bytes are not yet written.
#[derive(Drop)]
pub struct Text {
    bytes: [u8; 65536],
    len: usize,
    ghost fits: { len ≤ 65536 },
}

impl Text {
    pub fn new() -> Text {
        Text {
            bytes: [0; 65536],
            len: 0,
        }
    }

    // Writes what is gathered.
    pub fn flush(&mut self, rt: &impl Print) -> io::Result<()>
        ensures { self.new.len ≡ 0 }
    {
        let end = self.len;
        self.len = 0;
        rt.write_all(&self.bytes[..end])
    }

    // Puts a byte behind the others.
    pub fn put_byte(&mut self, rt: &impl Print, byte: u8) -> io::Result<()> {
        if self.len == 65536 {
            self.flush(rt)?;
        }
        self.bytes[self.len] = byte;
        self.len += 1;
        Ok(())
    }

    // Puts bytes behind the others.
    pub fn put_bytes(&mut self, rt: &impl Print, bytes: &[u8]) -> io::Result<()> {
        for byte in bytes {
            self.put_byte(rt, *byte)?;
        }
        Ok(())
    }

    // Puts a number in base ten.
    pub fn put_number(&mut self, rt: &impl Print, number: u64) -> io::Result<()> {
        let mut digits = itoa::Buffer::new();
        self.put_bytes(rt, digits.format(number).as_bytes())
    }
}

// A text by itself.
pub fn print_text(rt: &impl Print, text: &[u8]) -> io::Result<()> {
    rt.write_all(text)
}
