ghost use Rattle.std.specs.Prelude.{◌≡◌, ◌≤◌, ◌+◌, ◌-◌, nat_le, true, false, [], ◌++◌, length, take, drop, ◌==◌, vec_capacity};

use crate::drain::{TEXT_BYTES, Text};
use std::marker::Model;

/// Bytes in a buffer of fixed size.
#[derive(Debug, Drop)]
pub struct Held {
    // The buffer. Only its first `len` bytes have a meaning.
    bytes: Vec<u8>,
    len: usize,
}

impl Model for Held {
    ghost use Rattle.std.specs.Prelude.{◌-◌, ◌≤◌, length, take};
    ghost use Rattle.streams.specs.Held.{HeldBytes};

    ghost Value = { HeldBytes };

    ghost view = { λ a. record { bytes = take a.len a.bytes.items; free = length a.bytes.items - a.len } };

    ghost invariant = { λ a. a.len ≤ length a.bytes.items };
}

impl Held {
    /// Makes an empty `Held` with the capacity of `buffer`. Allocates nothing.
    pub fn new(buffer: Vec<u8>) -> Self
        ensures bytes { result.bytes ≡ [] }
        ensures free { result.free ≡ vec_capacity buffer }
    {
        let mut bytes = buffer;
        bytes.resize(bytes.capacity(), 0).unwrap();
        Held { bytes, len: 0 }
    }

    /// Appends these bytes and returns true if all of them fit. Otherwise appends nothing and returns false.
    #[inline(always)]
    pub fn append(&mut self, more: &[u8]) -> bool
        ensures fits { result ≡ nat_le (length more.now) self.old.free }
        ensures appended { result ≡ true → self.new.bytes ≡ self.old.bytes ++ more.now }
        ensures free { result ≡ true → self.new.free ≡ self.old.free - length more.now }
        ensures refused { result ≡ false → self.new ≡ self.old }
    {
        if more.len() > self.bytes.len() - self.len {
            return false;
        }
        let end = self.len + more.len();
        self.bytes[self.len..end].copy_from_slice(more);
        self.len = end;
        true
    }

    /// Returns true if a text of any length up to `TEXT_BYTES` fits.
    #[inline(always)]
    pub fn has_space(&self) -> bool
        ensures { result ≡ nat_le TEXT_BYTES self.now.free }
    {
        self.bytes.len() - self.len >= TEXT_BYTES
    }

    /// Appends a text and returns its length in bytes. At least `TEXT_BYTES` bytes have to be free, also for a shorter text.
    #[inline(always)]
    pub fn append_text<T: Text>(&mut self, text: T) -> usize
        requires { TEXT_BYTES ≤ self.old.free }
        ensures appended { self.new.bytes ≡ self.old.bytes ++ T.bytes text }
        ensures free { self.new.free ≡ self.old.free - result }
        ensures len { result ≡ length (T.bytes text) }
        ensures short { result ≤ TEXT_BYTES }
    {
        let end = self.len + TEXT_BYTES;
        let len = text.write(&mut self.bytes[self.len..end]);
        self.len += len;
        len
    }

    /// Returns the held bytes.
    pub fn as_slice(&self) -> &[u8]
        ensures { result.now ≡ self.now.bytes }
    {
        &self.bytes[..self.len]
    }

    /// Returns the number of held bytes.
    pub fn len(&self) -> usize
        ensures { result ≡ length self.now.bytes }
    {
        self.len
    }

    /// Returns true if no bytes are held.
    pub fn is_empty(&self) -> bool
        ensures { result ≡ (length self.now.bytes == 0) }
    {
        self.len == 0
    }

    /// Removes the first `count` bytes and moves the others to the front. At least `count` bytes have to be held.
    pub fn remove_front(&mut self, count: usize)
        requires { count ≤ length self.old.bytes }
        ensures bytes { self.new.bytes ≡ drop count self.old.bytes }
        ensures free { self.new.free ≡ self.old.free + count }
    {
        self.bytes.as_mut_slice().copy_within(count..self.len, 0);
        self.len -= count;
    }
}
