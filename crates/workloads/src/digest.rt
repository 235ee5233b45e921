//! A digest of bytes and numbers.

use std::io::{self, Write};

/// A digest of the numbers in the order in which they are added, and of the bytes in the order in which they are added. It does
/// not depend on how the bytes are cut into pieces.
#[derive(Debug, Drop)]
pub struct Digest {
    sum: u64,
    /// The last bytes, at most seven, which are not yet part of `sum`. The newest of them is in the lowest bits. `count` is their
    /// number.
    tail: u64,
    count: u32,
}

impl Digest {
    /// Returns the digest of nothing.
    pub fn new() -> Digest {
        Digest {
            sum: 0,
            tail: 0,
            count: 0,
        }
    }

    /// Adds a number.
    #[inline(always)]
    pub fn add(&mut self, number: u64) {
        self.sum = (self.sum ^ number)
            .wrapping_mul(0x9e37_79b9_7f4a_7c15)
            .rotate_left(29);
    }

    /// Returns the value of the digest.
    pub fn value(&self) -> u64 {
        let tail = self.tail.wrapping_add(u64::from(self.count));
        (self.sum ^ tail)
            .wrapping_mul(0x9e37_79b9_7f4a_7c15)
            .rotate_left(29)
    }

    /// Adds a byte.
    fn add_byte(&mut self, byte: u8) {
        self.tail = (self.tail << 8) | u64::from(byte);
        self.count = self.count.wrapping_add(1) % 8;
        if self.count == 0 {
            self.add(self.tail);
            self.tail = 0;
        }
    }

    /// Adds bytes.
    pub fn add_bytes(&mut self, bytes: &[u8]) {
        let front = ((8 - self.count as usize % 8) % 8).min(bytes.len());
        for byte in &bytes[..front] {
            self.add_byte(*byte);
        }
        let (words, end) = bytes[front..].as_chunks::<8>();
        if self.count == 0 {
            for word in words {
                self.add(u64::from_be_bytes(*word));
            }
        }
        for byte in end {
            self.add_byte(*byte);
        }
    }
}

impl Write for Digest {
    fn write(&mut self, buf: &[u8]) -> io::Result<usize> {
        self.add_bytes(buf);
        Ok(buf.len())
    }

    fn flush(&mut self) -> io::Result<()> {
        Ok(())
    }
}
