//! A buffer for the first bytes of a text that comes in pieces.

ghost use Rattle.std.specs.Prelude.{◌≡◌, ℕ, List, [], ◌++◌, ◌<◌, ◌==◌, length, take};
ghost use Rattle.trace_check.specs.Gathered.{Gathers, whole_of};
ghost use Rattle.trace_check.specs.Forms.{Gives};

use arrayvec::ArrayVec;

/// The first `N` bytes of a text that comes in pieces, and whether more bytes came.
#[derive(Debug, Drop)]
pub struct Gathered<const N: usize> {
    held: ArrayVec<u8, N>,
    longer: bool,
}

impl<const N: usize> Gathered<N> {
    /// Returns an empty buffer.
    pub fn new() -> Self
        ensures { Gathers N [] result }
    {
        Gathered {
            held: ArrayVec::new(),
            longer: false,
        }
    }

    /// Removes all bytes, as if none had come.
    pub fn clear(&mut self)
        ensures { Gathers N [] self.new }
    {
        self.held.clear();
        self.longer = false;
    }

    /// Adds these bytes to those that have come. The buffer stores only the first `N` of all bytes.
    pub fn add(&mut self, bytes: &[u8])
        ensures { (front : List ℕ) → Gathers N front self.old → Gathers N (front ++ bytes.now) self.new }
    {
        let room = self.held.capacity() - self.held.len();
        if bytes.len() <= room {
            let taken = self.held.try_extend_from_slice(bytes);
            prove!(taken.is_ok());
        } else {
            let taken = self.held.try_extend_from_slice(&bytes[..room]);
            prove!(taken.is_ok());
            self.longer = true;
        }
    }

    /// Returns whether no byte has come.
    pub fn is_empty(&self) -> bool
        requires { 0 < N }
        ensures { (came : List ℕ) → Gathers N came self.now → result ≡ (length came == 0) }
    {
        self.held.is_empty()
    }

    /// Returns all bytes that have come, or `None` if there were more than `N`.
    pub fn whole(&self) -> Option<&[u8]>
        ensures { (came : List ℕ) → Gathers N came self.now → Gives (λ bytes. bytes.now) result (whole_of N came) }
    {
        if self.longer {
            None
        } else {
            Some(self.held.as_slice())
        }
    }

    /// Returns the bytes that have come, or the first `N` of them if there were more.
    pub fn front(&self) -> &[u8]
        ensures { (came : List ℕ) → Gathers N came self.now → result.now ≡ take N came }
    {
        self.held.as_slice()
    }
}
