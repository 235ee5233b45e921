ghost use Rattle.std.specs.Prelude.{◌≡◌, ℕ, ◌+◌, ◌%◌, ◌<◌, ◌≤◌, List, Bool, true, ◌↔◌, take, length, IsSome, IfSome, slice_index, EachIndex};
ghost use Rattle.model_core.specs.Layouts.{is_pattern, pattern_byte};

use std::marker::Model;

/// The bytes of a constructed object: 1 to 16 bytes, repeated.
#[derive(Clone, Copy, Debug)]
pub struct Pattern {
    bytes: [u8; 16],
    len: u8,
}

impl Model for Pattern {
    ghost use Rattle.std.specs.Prelude.{ℕ, List, take, length};
    ghost use Rattle.layout_core.specs.Inside.{IsHeld, padded_to_16};

    ghost Value = { List ℕ };

    ghost view = { λ p. take p.len p.bytes };

    ghost invariant = { λ p. IsHeld p.bytes p.len };

    ghost inverse = { λ xs. record { bytes = padded_to_16 xs; len = length xs } };

    ghost inverse_ok = { λ p h. λ i. record { bytes = h.padding i; len = h.taken i } };
}

impl Pattern {
    /// Makes a pattern of 1 to 16 bytes. Returns `None` for any other number of bytes.
    pub fn new(bytes: &[u8]) -> Option<Pattern>
        ensures some { IsSome result ↔ (is_pattern bytes.now ≡ true) }
        ensures value { IfSome result (λ p. p ≡ bytes.now) }
    {
        if bytes.is_empty() || bytes.len() > 16 {
            return None;
        }
        let mut held = [0; 16];
        held[..bytes.len()].copy_from_slice(bytes);
        Some(Pattern {
            bytes: held,
            len: bytes.len() as u8,
        })
    }

    /// Returns the 1 to 16 bytes of the pattern.
    pub fn as_slice(&self) -> &[u8]
        ensures value { result.now ≡ self.now }
        ensures pattern { is_pattern self.now ≡ true }
        ensures some { 0 < length result.now }
    {
        &self.bytes[..usize::from(self.len)]
    }

    /// Fills the slice as a constructed object (Bonwick): byte `j` becomes byte `j mod n` of the pattern, which has `n` bytes.
    pub fn fill(&self, out: &mut [u8])
        ensures { EachIndex out.new (λ j. slice_index out.new j ≡ pattern_byte self.now j) }
    {
        let bytes = self.as_slice();
        let first = bytes.len().min(out.len());
        out[..first].copy_from_slice(&bytes[..first]);
        repeat(out, bytes.len());
    }
}

/// Repeats the first `period` bytes over the whole slice. Each step copies the filled part to the bytes after it, until the slice
/// is full.
fn repeat(out: &mut [u8], period: usize)
    requires { 0 < period }
    ensures bytes { EachIndex out.new (λ j. slice_index out.new j ≡ slice_index out.old (j % period)) }
    ensures length { length out.new ≡ length out.old }
{
    let mut done = period;
    while done < out.len() {
        let (front, rest) = out.split_at_mut(done);
        let more = done.min(rest.len());
        rest[..more].copy_from_slice(&front[..more]);
        done *= 2;
    }
}
