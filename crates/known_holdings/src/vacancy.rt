//! Finds which frames of a slot are taken. This is done once and serves all blocks of the slot.

ghost use Rattle.std.specs.Prelude.{◌≡◌, ℕ, ◌+◌, ◌*◌, ◌^◌, ◌<◌, ◌≤◌, not, ◌||◌, false, length, filter, slice_index, slice_index_or, take, drop, nat_lt};
ghost use Rattle.std.specs.List.{list_any, prefix_len};
ghost use Rattle.std.specs.List.Sorted.{IsNonDecreasing};
ghost use Rattle.model_core.specs.declared.limits.TheConstants.{FRAME_BYTES, MAX_ORDER};
ghost use Rattle.model_core.specs.Blocks.{block};
ghost use Rattle.model_core.specs.Operations.{overlaps};
ghost use Rattle.promise_core.specs.Holdings.{is_vacant, slab_around, blocks_of_slot, vacant_blocks};

use crate::block::FrameBlock;
use crate::cache::HeldCache;
use crate::held::Held;
use crate::rising::{count_below, count_below_near};
use words_core::ORDERS;

/// The largest number of frames in a slot.
const MAX_SLOT_FRAMES: usize = 256;

impl Held {
    /// Returns for each frame of a slot, in order, whether it is taken.
    pub(crate) fn taken_in(&self, slot: &FrameBlock) -> [bool; MAX_SLOT_FRAMES]
        ensures long { length result ≡ 256 }
        ensures taken { (f : ℕ) → f < 2 ^ slot.now.order
            → slice_index_or result f false ≡ not (is_vacant self.now (block (slot.now.first + f) 0)) }
    {
        let mut taken = [false; MAX_SLOT_FRAMES];
        let pages = self.pages_near(u64::from(slot.first()), slot.end());
        mark_blocks(&mut taken, slot, pages);
        mark_caches(&mut taken, slot, &self.caches);
        taken
    }

    /// Returns the result of [`Held::count_vacant`] for each order from 0 to a slot's order, but passes over the slots only once.
    pub fn vacant_by_order(&self, order: u8) -> [u128; ORDERS]
        requires { order ≤ MAX_ORDER }
        ensures long { length result ≡ 11 }
        ensures counts { (k : ℕ) → k ≤ order → slice_index result k ≡ length (vacant_blocks order self.now k) }
    {
        let mut counts = [0u128; ORDERS];
        for slot in &self.slots {
            self.add_vacant(&mut counts, order, *slot);
        }
        counts
    }

    /// Adds the vacant blocks of a slot to the counts of their orders.
    fn add_vacant(&self, counts: &mut [u128; ORDERS], order: u8, slot: u16)
        requires order { order ≤ MAX_ORDER }
        requires few { (k : ℕ) → slice_index counts.old k + 256 < 2 ^ 128 }
        ensures added { (k : ℕ) → k ≤ order
            → slice_index counts.new k ≡ slice_index counts.old k + length (filter (is_vacant self.now) (blocks_of_slot order k slot)) }
        ensures most { (k : ℕ) → slice_index counts.new k ≤ slice_index counts.old k + 256 }
    {
        let mut taken = self.taken_in(&FrameBlock::of_slot(order, slot));
        for k in 0..order + 1 {
            let blocks = 1usize << (order - k);
            counts[k as usize] += count_clear(&taken, blocks) as u128;
            // After this, mark `i` says whether block `i` of the next order has a taken frame.
            join_pairs(&mut taken, blocks / 2);
        }
    }
}

/// Returns how many of the first `blocks` marks are not set.
pub(crate) fn count_clear(taken: &[bool; MAX_SLOT_FRAMES], blocks: usize) -> usize
    requires { blocks ≤ 256 }
    ensures value { result ≡ length (filter not (take blocks taken.now)) }
    ensures most { result ≤ 256 }
{
    taken[..blocks].iter().filter(|mark| !**mark).count()
}

/// For each `i` below `pairs`, sets mark `i` if mark `2 * i` or mark `2 * i + 1` was set, and clears it otherwise.
fn join_pairs(taken: &mut [bool; MAX_SLOT_FRAMES], pairs: usize)
    requires { pairs ≤ 128 }
    ensures { (i : ℕ) → i < pairs → slice_index_or taken.new i false
        ≡ (slice_index_or taken.old (2 * i) false || slice_index_or taken.old (2 * i + 1) false) }
{
    for i in 0..pairs {
        taken[i] = taken[2 * i] || taken[2 * i + 1];
    }
}

/// Marks the frames of the slot that lie in one of these blocks.
fn mark_blocks(taken: &mut [bool; MAX_SLOT_FRAMES], slot: &FrameBlock, blocks: &[FrameBlock])
    ensures { (f : ℕ) → f < 2 ^ slot.now.order → slice_index_or taken.new f false
        ≡ (slice_index_or taken.old f false || list_any (overlaps (block (slot.now.first + f) 0)) blocks.now) }
{
    for other in blocks {
        mark(taken, slot, other);
    }
}

/// Marks the frames of the slot that lie in a slab with a live object of one of these caches.
fn mark_caches(taken: &mut [bool; MAX_SLOT_FRAMES], slot: &FrameBlock, caches: &[HeldCache])
    ensures { (f : ℕ) → f < 2 ^ slot.now.order → slice_index_or taken.new f false ≡ (slice_index_or taken.old f false
        || list_any (λ c. list_any (λ p. overlaps (block (slot.now.first + f) 0) (slab_around c p)) c.live) caches.now) }
{
    // If page blocks took the whole slot, no cache has to be searched.
    if taken[..1 << slot.order()].iter().all(|mark| *mark) {
        return;
    }
    for cache in caches {
        cache.mark_slabs(taken, slot);
    }
}

impl HeldCache {
    /// Marks the frames of the slot that lie in a slab with a live object, one slab after the other.
    fn mark_slabs(&self, taken: &mut [bool; MAX_SLOT_FRAMES], slot: &FrameBlock)
        ensures { (f : ℕ) → f < 2 ^ slot.now.order → slice_index_or taken.new f false ≡ (slice_index_or taken.old f false
            || list_any (λ p. overlaps (block (slot.now.first + f) 0) (slab_around self.now p)) self.now.live) }
    {
        let begin = FrameBlock::around(slot.first(), self.order()).first_byte();
        let mut rest = &self.live[count_below(&self.live, begin)..];
        'slabs: while let Some(first) = rest.first() {
            let slab = self.slab_around(*first);
            if u64::from(slab.first()) >= slot.end() {
                return;
            }
            mark(taken, slot, &slab);
            rest = self.behind(&slab, rest);
        }
    }

    /// Returns the places that are at or after the end of the slab.
    fn behind<'a>(&self, slab: &FrameBlock, places: &'a [u32]) -> &'a [u32]
        requires { IsNonDecreasing places.now }
        ensures { result.now ≡ drop (prefix_len (λ p. nat_lt p (FRAME_BYTES * (slab.now.first + 2 ^ slab.now.order))) places.now) places.now }
    {
        // After allowed replies, a slab has at most `count` live objects, so the first place after the slab is near the front of
        // `places`.
        &places[count_below_near(places, self.count() as usize, slab.end_byte())..]
    }
}

/// Marks the frames of the slot that lie in the block.
fn mark(taken: &mut [bool; MAX_SLOT_FRAMES], slot: &FrameBlock, other: &FrameBlock)
    ensures { (f : ℕ) → f < 2 ^ slot.now.order → slice_index_or taken.new f false
        ≡ (slice_index_or taken.old f false || overlaps (block (slot.now.first + f) 0) other.now) }
{
    let first = u64::from(slot.first());
    let from = u64::from(other.first()).saturating_sub(first);
    let to = other.end().saturating_sub(first).min(1 << slot.order());
    for f in from..to {
        taken[f as usize] = true;
    }
}
