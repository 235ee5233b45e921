//! Sets of small numbers: bits in words of 64 bits, in two levels. One word has a bit for each word of the set, so that the least
//! number in the set is found in two steps, whatever the set's size.
//!
//! # Example
//!
//! ```
//! use sets_core::BitSet;
//!
//! // The numbers below 256 without 0 to 69.
//! let mut set = BitSet::full(rt.alloc(), 256)?;
//! for number in 0..70 {
//!     set.remove(number);
//! }
//! assert_eq!(rt; set.first(), Some(70));
//! set.insert(3);
//! assert_eq!(rt; set.first(), Some(3));
//! ```
#![tactic(auto)]

ghost use Rattle.std.specs.Prelude.{◌≡◌, ◌-◌, ◌^◌, ◌<◌, ◌≤◌, true, false, length, position, replicate, slice_set, IfOk, IfSome};

use std::alloc::{AllocError, Global};
use std::marker::Model;

/// The number of bits of a word.
const WORD_BITS: u16 = 64;

/// The largest size of a set: one word has a bit for each of 64 words.
pub const MAX_SIZE: u16 = 4096;

/// A set of numbers below a fixed size.
///
/// Contracts see it as a list with a truth value for each number below the size: whether the number is in the set.
#[derive(Debug, Drop)]
pub struct BitSet {
    size: u16,
    words: Vec<u64>,
    // Bit w is 1 if word w is not 0.
    filled: u64,
}

impl Model for BitSet {
    ghost use Rattle.std.specs.Prelude.{List, Bool};
    ghost use Rattle.sets_core.specs.Members.{members, IsBitSet};

    ghost Value = { List Bool };

    ghost view = { λ s. members s.size s.words.items };

    ghost invariant = { λ s. IsBitSet s.size s.filled s.words.items };
}

impl BitSet {
    /// Makes the set of all numbers below `size`, which is at most `MAX_SIZE`. Returns `AllocError` if the allocator refuses
    /// memory.
    pub fn full(alloc: Global, size: u16) -> Result<BitSet, AllocError>
        requires { size ≤ MAX_SIZE }
        ensures { IfOk result (λ s. s ≡ replicate size true) }
    {
        let count = (size + WORD_BITS - 1) / WORD_BITS;
        let mut words = Vec::with_capacity(alloc, usize::from(count))?;
        for word in 0..count {
            words.push(ones((size - word * WORD_BITS).min(WORD_BITS)))?;
        }
        let filled = ones(count);
        Ok(BitSet {
            size,
            words,
            filled,
        })
    }

    /// Puts a number into the set.
    #[inline(always)]
    pub fn insert(&mut self, number: u16)
        requires { number < length self.old }
        ensures { self.new ≡ slice_set self.old number true }
    {
        let word = usize::from(number / WORD_BITS);
        self.words[word] |= 1 << (number % WORD_BITS);
        self.filled |= 1 << word;
    }

    /// Takes a number out of the set.
    #[inline(always)]
    pub fn remove(&mut self, number: u16)
        requires { number < length self.old }
        ensures { self.new ≡ slice_set self.old number false }
    {
        let word = usize::from(number / WORD_BITS);
        self.words[word] &= !(1 << (number % WORD_BITS));
        if self.words[word] == 0 {
            self.filled &= !(1 << word);
        }
    }

    /// Returns the least number in the set, or `None` if the set is empty.
    #[inline(always)]
    pub fn first(&self) -> Option<u16>
        ensures value { result ≡ position (λ is_in. is_in) self.now }
        ensures below { IfSome result (λ number. number < length self.now) }
    {
        if self.filled == 0 {
            return None;
        }
        let word = self.filled.trailing_zeros();
        let bit = self.words[word as usize].trailing_zeros();
        Some((word * u32::from(WORD_BITS) + bit) as u16)
    }
}

/// Returns a word whose lowest `count` bits are 1, and the others 0.
fn ones(count: u16) -> u64
    requires { count ≤ WORD_BITS }
    ensures { result ≡ 2 ^ count - 1 }
{
    if count == WORD_BITS {
        return u64::MAX;
    }
    (1 << count) - 1
}
