ghost use Rattle.std.specs.Prelude.{◌≡◌, ℕ, ◌+◌, ◌<◌, ◌≤◌, ◌==◌, Bool, true, false, List, Option, None, Ok, length, IfOk, OnErr, is_err};
ghost use Rattle.std.specs.Io.KnownBytes.{ReadConsumes};
ghost use Rattle.streams.specs.Moves.{moved_count};

/// The error of a feed or a drain that has failed. In the call that returns it, the feed gave no byte, or the drain took none.
#[derive(Clone, Copy, Debug, PartialEq, Eq)]
pub struct Stopped;

/// A source that gives a trace in pieces.
pub trait Feed {
    // The bytes that the feed has yet to give, if they are known. It gives them in order, and all of them before it ends.
    ghost remaining: { Self → Option (List ℕ) } = { λ _. None };

    // The largest number of bytes that the feed may still give.
    ghost room_left: { Self → ℕ };

    ghost has_ended: { Self → Bool };

    ghost has_failed: { Self → Bool };

    /// Writes the next bytes to the front of `into` and returns how many it wrote, at most [`Feed::room`]. Returns 0 at the end,
    /// and in all later calls. `into` has to be non-empty, and no earlier pull may have failed.
    fn pull(&mut self, into: &mut [u8]) -> Result<usize, Stopped>
        requires space { 0 < length into.old }
        requires fine { has_failed self.old ≡ false }
        ensures count { moved_count result ≤ length into.new }
        ensures room { room_left self.new + moved_count result ≡ room_left self.old }
        ensures bytes { ReadConsumes (remaining self.old) (remaining self.new) result into.new }
        ensures ended { IfOk result (λ n. has_ended self.new ≡ (n == 0)) }
        ensures stays { has_ended self.old ≡ true → result ≡ Ok 0 }
        ensures not_yet { OnErr result (has_ended self.new ≡ has_ended self.old) }
        ensures failed { has_failed self.new ≡ is_err result };

    /// Returns the largest number of bytes that the feed may still give.
    fn room(&self) -> u64
        ensures { result ≡ room_left self.now };

    /// Returns true if a pull has reached the end.
    fn ended(&self) -> bool
        ensures { result ≡ has_ended self.now };

    /// Returns true if a pull has failed.
    fn failed(&self) -> bool
        ensures { result ≡ has_failed self.now };
}
