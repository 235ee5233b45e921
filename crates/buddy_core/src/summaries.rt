//! A tenant's summary: for each order, the slots whose superblock has a free block of this order.

ghost use Rattle.std.specs.Prelude.{◌≡◌, ℕ, ◌+◌, ◌<◌, ◌≤◌, ◌==◌, Bool, false, [], length, position, replicate, slice_index_or, slice_set, IfOk};
ghost use Rattle.std.specs.Int.{bit_at};
ghost use Rattle.model_core.specs.declared.limits.TheConstants.{WIDE_ORDER, WIDE_SUPERBLOCKS};
ghost use Rattle.buddy_core.specs.SummaryWords.{flipped};

use std::alloc::{AllocError, Global};
use std::marker::Model;

/// The number of slots for which a word has a bit.
const WORD_BITS: u16 = 64;

/// The number of words in a row, which has a word for each order. It is a power of two, so a word is found by a shift.
const ROW: usize = 16;

/// For each order, the set of the slots of one tenant whose superblock has a free block of this order.
///
/// The words of all sets are stored together, so a change of one slot mostly writes to one cache line of them.
#[derive(Debug, Drop)]
pub struct Summary {
    // The number of slots.
    slots: u16,
    // For each order: bit g is 1 if word g of the order's set is not 0.
    filled: Vec<u64>,
    // Row g has word g of each set, which says of the slots from 64 g on which of them are in.
    words: Vec<u64>,
}

impl Model for Summary {
    ghost use Rattle.std.specs.Prelude.{List, Bool};
    ghost use Rattle.buddy_core.specs.SummaryWords.{sets_of, IsSummary};

    ghost Value = { List (List Bool) };

    ghost view = { λ s. sets_of s.slots s.filled.items s.words.items };

    ghost invariant = { λ s. IsSummary s.slots s.filled.items s.words.items };
}

impl Summary {
    /// Makes the summary of a tenant that holds nothing. Returns `AllocError` if the allocator refuses memory.
    pub fn new(alloc: Global, order: u8, superblocks: u16) -> Result<Summary, AllocError>
        requires order { order ≤ WIDE_ORDER }
        requires superblocks { superblocks ≤ WIDE_SUPERBLOCKS }
        ensures { IfOk result (λ s. s ≡ replicate (order + 1) (replicate superblocks false)) }
    {
        let rows = usize::from((superblocks + WORD_BITS - 1) / WORD_BITS);
        let filled = vec![in alloc; 0; usize::from(order) + 1]?;
        let words = vec![in alloc; 0; rows * ROW]?;
        Ok(Summary {
            slots: superblocks,
            filled,
            words,
        })
    }

    /// Returns the first slot that has a free block of `order`, or `None` if no slot has one.
    #[inline(always)]
    pub fn first(&self, order: u8) -> Option<u16>
        requires { order < length self.now }
        ensures { result ≡ position (λ is_in. is_in) (slice_index_or self.now order []) }
    {
        let filled = self.filled[usize::from(order)];
        if filled == 0 {
            return None;
        }
        let row = filled.trailing_zeros();
        let word = self.words[row as usize * ROW + usize::from(order)];
        Some((row * u32::from(WORD_BITS) + word.trailing_zeros()) as u16)
    }

    /// Updates the sets after the root word of the superblock in `slot` has changed from `old` to `new`. The word of an empty slot
    /// is 0.
    #[inline(always)]
    pub fn note(&mut self, slot: u16, old: u16, new: u16)
        requires slot { (j : ℕ) → j < length self.old → slot < length (slice_index_or self.old j []) }
        requires before { (j : ℕ) → slice_index_or (slice_index_or self.old j []) slot false ≡ (bit_at old j == 1) }
        requires orders { (j : ℕ) → bit_at new j ≡ 1 → j < length self.old }
        ensures size { length self.new ≡ length self.old }
        ensures sets { (j : ℕ) → slice_index_or self.new j [] ≡ slice_set (slice_index_or self.old j []) slot (bit_at new j == 1) }
    {
        let filled: &mut [u64] = &mut self.filled;
        let words: &mut [u64] = &mut self.words;
        let row = usize::from(slot / WORD_BITS);
        let bit = 1 << (slot % WORD_BITS);
        let mut changed = u32::from(old ^ new);
        while changed != 0 {
            let order = changed.trailing_zeros();
            changed &= !(1 << order);
            let word = row * ROW + order as usize;
            words[word] ^= bit;
            // If no other slot is in the word, it becomes 0 or is 0 no longer.
            if words[word] & !bit == 0 {
                filled[order as usize] ^= 1 << row;
            }
        }
    }
}
