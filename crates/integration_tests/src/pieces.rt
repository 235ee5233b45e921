//! A feed and a drain over memory that work in pieces, and that can fail.

ghost use Rattle.std.specs.Prelude.{◌≡◌, ◌≤◌, true, false, [], length};
ghost use Rattle.integration_tests.specs.declared.pieces.TheConstants.{BUFFER_BYTES};

use replay_core::{Drain, Feed, Stopped};
use streams::{TEXT_BYTES, Text};

/// More bytes than any worked trace writes.
const BUFFER_BYTES: usize = 8192;

/// A feed that returns a slice in pieces of at most `piece` bytes (1 byte if `piece` is 0), and fails after `good_pulls` pulls.
#[derive(Debug, Drop)]
pub struct PieceFeed<'a> {
    rest: &'a [u8],
    piece: usize,
    good_pulls: u32,
    ended: bool,
    failed: bool,
    ghost whole: { ended ≡ true → rest.now ≡ [] },
}

/// Returns a [`PieceFeed`] of these bytes.
pub fn in_pieces<'a>(bytes: &'a [u8], piece: usize, good_pulls: u32) -> PieceFeed<'a>
    ensures remaining { ⟦<PieceFeed<'a> as Feed>⟧.remaining result ≡ Some bytes.now }
    ensures room { ⟦<PieceFeed<'a> as Feed>⟧.room_left result ≡ length bytes.now }
    ensures not_ended { ⟦<PieceFeed<'a> as Feed>⟧.has_ended result ≡ false }
    ensures fine { ⟦<PieceFeed<'a> as Feed>⟧.has_failed result ≡ false }
{
    PieceFeed {
        rest: bytes,
        piece,
        good_pulls,
        ended: false,
        failed: false,
    }
}

impl<'a> Feed for PieceFeed<'a> {
    ghost use Rattle.std.specs.Prelude.{length, Some};

    ghost remaining = { λ s. Some s.rest.now };

    ghost room_left = { λ s. length s.rest.now };

    ghost has_ended = { λ s. s.ended };

    ghost has_failed = { λ s. s.failed };

    fn pull(&mut self, into: &mut [u8]) -> Result<usize, Stopped> {
        if self.ended {
            return Ok(0);
        }
        if self.good_pulls == 0 {
            self.failed = true;
            return Err(Stopped);
        }
        self.good_pulls -= 1;
        let count = into.len().min(self.piece.max(1)).min(self.rest.len());
        into[..count].copy_from_slice(&self.rest[..count]);
        self.rest = &self.rest[count..];
        self.ended = count == 0;
        Ok(count)
    }

    fn room(&self) -> u64 {
        self.rest.len() as u64
    }

    fn ended(&self) -> bool {
        self.ended
    }

    fn failed(&self) -> bool {
        self.failed
    }
}

/// A drain that takes at most `piece` bytes (1 byte if `piece` is 0) per push into a fixed array. It fails after `good_pushes`
/// pushes.
#[derive(Debug, Drop)]
pub struct PieceDrain {
    bytes: [u8; BUFFER_BYTES],
    len: usize,
    piece: usize,
    good_pushes: u32,
    failed: bool,
    ghost within: { len ≤ BUFFER_BYTES },
}

/// Returns a [`PieceDrain`] that has taken nothing.
pub fn taking(piece: usize, good_pushes: u32) -> PieceDrain
    ensures contents { ⟦<PieceDrain as Drain>⟧.contents result ≡ Some [] }
    ensures fine { ⟦<PieceDrain as Drain>⟧.has_failed result ≡ false }
{
    let bytes = [0; BUFFER_BYTES];
    PieceDrain {
        bytes,
        len: 0,
        piece,
        good_pushes,
        failed: false,
    }
}

impl PieceDrain {
    /// Returns the bytes that the drain has taken.
    pub fn taken(&self) -> &[u8]
        ensures { ⟦<PieceDrain as Drain>⟧.contents self.now ≡ Some result.now }
    {
        &self.bytes[..self.len]
    }
}

impl Drain for PieceDrain {
    ghost use Rattle.std.specs.Prelude.{take, Some, nat_le, ◌&&◌, ◌+◌};
    ghost use Rattle.streams.specs.declared.drain.TheConstants.{TEXT_BYTES};

    ghost contents = { λ s. Some (take s.len s.bytes) };

    ghost has_failed = { λ s. s.failed };

    // The drain takes a text in one push. So at least one good push must be left, a push must take `TEXT_BYTES` bytes, and the
    // array must have space for these bytes.
    ghost is_roomy = { λ s. nat_le 1 s.good_pushes && (nat_le TEXT_BYTES s.piece && nat_le (s.len + TEXT_BYTES) BUFFER_BYTES) };

    fn push(&mut self, bytes: &[u8]) -> Result<usize, Stopped> {
        let count = bytes
            .len()
            .min(self.piece.max(1))
            .min(self.bytes.len() - self.len);
        if self.good_pushes == 0 || count == 0 {
            self.failed = true;
            return Err(Stopped);
        }
        self.good_pushes -= 1;
        self.bytes[self.len..self.len + count].copy_from_slice(&bytes[..count]);
        self.len += count;
        Ok(count)
    }

    fn has_space(&self) -> bool {
        self.good_pushes >= 1 && self.piece >= TEXT_BYTES && self.len + TEXT_BYTES <= BUFFER_BYTES
    }

    fn take_text<T: Text>(&mut self, text: T) -> usize {
        let mut line = [0; TEXT_BYTES];
        let count = text.write(&mut line);
        self.good_pushes -= 1;
        self.bytes[self.len..self.len + count].copy_from_slice(&line[..count]);
        self.len += count;
        count
    }

    fn failed(&self) -> bool {
        self.failed
    }
}
