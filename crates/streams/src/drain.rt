ghost use Rattle.std.specs.Prelude.{◌≡◌, ℕ, ◌<◌, ◌≤◌, Bool, true, false, List, [], Option, None, length, take, IfOk, is_err};
ghost use Rattle.std.specs.Io.KnownBytes.{Appends, Keeps, WriteAppends};

use crate::feed::Stopped;

/// The largest number of bytes that a [`Text`] may have.
pub const TEXT_BYTES: usize = 160;

/// A text that is written straight into a drain's buffer.
pub trait Text {
    ghost bytes: { Self → List ℕ };

    /// Writes the text to the front of the buffer and returns the length of the text in bytes. The buffer has to have at least
    /// `TEXT_BYTES` bytes. Its bytes after the text may change.
    fn write(self, buffer: &mut [u8]) -> usize
        requires space { TEXT_BYTES ≤ length buffer.old }
        ensures text { take result buffer.new ≡ bytes self }
        ensures short { result ≤ TEXT_BYTES };
}

/// A sink that takes replies in pieces.
pub trait Drain {
    // The bytes that the drain has taken, if they are known.
    ghost contents: { Self → Option (List ℕ) } = { λ _. None };

    // The bytes that the drain has taken and not passed on yet. They are the last bytes of its contents.
    ghost held_back: { Self → List ℕ } = { λ _. [] };

    // True if a push has failed.
    ghost has_failed: { Self → Bool };

    // True if the drain has space for a text of any length up to `TEXT_BYTES`.
    ghost is_roomy: { Self → Bool };

    // True if a send has failed.
    ghost has_failed_to_send: { Self → Bool } = { λ _. false };

    /// Takes a prefix of these bytes, at least one byte, and returns the length of the prefix. Fails at once if a send has
    /// failed. `bytes` has to be non-empty, and no earlier push may have failed.
    fn push(&mut self, bytes: &[u8]) -> Result<usize, Stopped>
        requires some { 0 < length bytes.now }
        requires fine { has_failed self.old ≡ false }
        ensures count { IfOk result (λ n. (0 < n) × (n ≤ length bytes.now)) }
        ensures bytes { WriteAppends (contents self.old) (contents self.new) result bytes.now }
        ensures failed { has_failed self.new ≡ is_err result }
        ensures stopped { has_failed_to_send self.old ≡ true → (is_err result ≡ true) × (held_back self.new ≡ held_back self.old) }
        ensures sends { has_failed_to_send self.new ≡ has_failed_to_send self.old };

    /// Returns true if the drain has space for a text of `TEXT_BYTES` bytes. Returns false if a send has failed.
    fn has_space(&self) -> bool
        ensures space { result ≡ is_roomy self.now }
        ensures stopped { has_failed_to_send self.now ≡ true → result ≡ false };

    /// Takes a text, which is written straight into the drain's buffer, and returns the length of the text in bytes. Call this
    /// only if `has_space` returns true.
    fn take_text<T: Text>(&mut self, text: T) -> usize
        requires space { is_roomy self.old ≡ true }
        ensures taken { Appends (contents self.old) (contents self.new) (T.bytes text) }
        ensures len { result ≡ length (T.bytes text) }
        ensures short { result ≤ TEXT_BYTES }
        ensures failed { has_failed self.new ≡ has_failed self.old }
        ensures sends { has_failed_to_send self.new ≡ has_failed_to_send self.old };

    /// Passes on the bytes that the drain still holds back. Call this before a wait that may be long. A failure is not reported
    /// here, but makes the next push fail. After a failed push or send, nothing is passed on.
    fn send(&mut self)
        ensures bytes { Keeps (contents self.old) (contents self.new) }
        ensures failed { has_failed self.new ≡ has_failed self.old }
        ensures stopped { has_failed self.old ≡ true → held_back self.new ≡ held_back self.old }
        ensures sends { has_failed_to_send self.old ≡ true → (has_failed_to_send self.new ≡ true) × (held_back self.new ≡ held_back self.old) }
    {}

    /// Returns true if a push has failed.
    fn failed(&self) -> bool
        ensures { result ≡ has_failed self.now };
}
