ghost use Rattle.std.specs.Prelude.{◌≡◌, ℕ, ◌<◌, ◌++◌, List, [], ◌∷◌, length, ◌==◌, MatchOption};
ghost use Rattle.words_core.specs.Grammar.{reading_of};
ghost use Rattle.world_core.specs.Output.{line_feed};
ghost use Rattle.replay_core.specs.Pending.{HoldsLine};
ghost use Rattle.replay_core.specs.Standing.{IsRunnable};
ghost use Rattle.streams.specs.Lines.{IsOneLine};

use arrayvec::ArrayVec;
use streams::line_end;
use words_core::{Event, LineFault, read_line};

/// The beginning of a line whose end has not arrived: its first 256 bytes, and whether it has more.
#[derive(Debug, Drop)]
pub struct Pending {
    pub held: ArrayVec<u8, 256>,
    pub longer: bool,
}

impl Pending {
    /// Makes a `Pending` that has no bytes.
    pub fn new() -> Self
        ensures { HoldsLine [] result }
    {
        Pending {
            held: ArrayVec::new(),
            longer: false,
        }
    }

    /// Returns true if `self` has no bytes.
    pub fn is_empty(&self) -> bool
        ensures { (line : List ℕ) → HoldsLine line self.now → result ≡ (length line == 0) }
    {
        self.held.is_empty()
    }

    /// Adds the next bytes of the line.
    pub fn add(&mut self, bytes: &[u8])
        ensures { (line : List ℕ) → HoldsLine line self.old → HoldsLine (line ++ bytes.now) self.new }
    {
        let free = self.held.capacity() - self.held.len();
        if bytes.len() <= free {
            let taken = self.held.try_extend_from_slice(bytes);
            prove!(taken.is_ok());
        } else {
            let taken = self.held.try_extend_from_slice(&bytes[..free]);
            prove!(taken.is_ok());
            self.longer = true;
        }
    }

    /// Reads the pending bytes as a line. The line is too long if it has more bytes than are held.
    pub fn reading(&self) -> Result<Option<Event>, LineFault>
        ensures reading { (line : List ℕ) → HoldsLine line self.now → result ≡ reading_of line }
        ensures runnable { IsRunnable result }
    {
        if self.longer {
            Err(LineFault::Long)
        } else {
            read_line(self.held.as_slice())
        }
    }

    /// Returns the reading of the line that ends with these bytes, and empties `self` for the next line.
    pub fn end_with(&mut self, bytes: &[u8]) -> Result<Option<Event>, LineFault>
        ensures reading { (line : List ℕ) → HoldsLine line self.old → result ≡ reading_of (line ++ bytes.now) }
        ensures runnable { IsRunnable result }
        ensures cleared { (line : List ℕ) → HoldsLine line self.old → HoldsLine [] self.new }
    {
        if self.is_empty() {
            // The whole line is in these bytes, so nothing is copied.
            return read_line(bytes);
        }
        self.add(bytes);
        let reading = self.reading();
        self.clear();
        reading
    }

    /// Empties `self` for the next line.
    pub(crate) fn clear(&mut self)
        ensures { HoldsLine [] self.new }
    {
        self.held.clear();
        self.longer = false;
    }
}

/// Returns the first line that ends in these bytes and the bytes after its LF, or `None` if no line ends in them.
#[inline(always)]
pub(crate) fn split_line(bytes: &[u8]) -> Option<(&[u8], &[u8])>
    ensures { MatchOption result (IsOneLine bytes.now)
        (λ parts. IsOneLine parts.0.now × (bytes.now ≡ (parts.0.now ++ line_feed ∷ []) ++ parts.1.now)) }
{
    let Some(end) = line_end(bytes) else {
        return None;
    };
    Some((&bytes[..end], &bytes[end + 1..]))
}
