//! What a tenant has, as replies reported it.

ghost use Rattle.std.specs.Prelude.{◌≡◌, ℕ, ◌+◌, ◌-◌, ◌*◌, ◌/◌, ◌%◌, ◌^◌, ◌<◌, ◌≤◌, nat_le, nat_lt, ◌==◌, ◌&&◌, Bool, map, find, filter, length, Some, option_map, true, false, MatchOption, slice_index_or, position, IfSome};
ghost use Rattle.std.specs.List.{list_any, list_all, range_with_len};
ghost use Rattle.std.specs.Option.{option_copied};
ghost use Rattle.model_core.specs.declared.limits.TheConstants.{MAX_ORDER, MAX_CACHES};
ghost use Rattle.model_core.specs.Machine.{order_in};
ghost use Rattle.model_core.specs.Blocks.{Block, block};
ghost use Rattle.model_core.specs.Operations.{overlaps};
ghost use Rattle.model_core.specs.Reach.{within_block};
ghost use Rattle.promise_core.specs.Bytes.{holder_of, object_with};
ghost use Rattle.known_holdings.specs.Holders.{shown_holder};
ghost use Rattle.promise_core.specs.Holdings.{blocks_of_slot, vacant_blocks, has_vacant_block, can_be_taken, slab_around, has_slot, known_cache, is_vacant, can_stand, is_slot_busy};

use crate::block::FrameBlock;
use crate::cache::HeldCache;
use crate::holder::RangeHolder;
use crate::rising::{all_within, with_key};
use crate::vacancy::count_clear;
use model_core::limits::{FRAME_BYTES, MAX_CACHES};
use std::marker::Model;

/// A tenant's slots, its live page blocks by first frame, and its caches by number, all in ascending order.
#[derive(Debug, Drop)]
pub struct Held {
    pub(crate) slots: Vec<u16>,
    pub(crate) pages: Vec<FrameBlock>,
    /// No live page block has more than `2^longest` frames.
    pub(crate) longest: u8,
    pub(crate) caches: Vec<HeldCache>,
}

impl Model for Held {
    ghost use Rattle.promise_core.specs.Holdings.{Holdings};
    ghost use Rattle.std.specs.List.Sorted.{IsNonDecreasing};
    ghost use Rattle.known_holdings.specs.Inside.{AreListed, ArePages};

    ghost Value = { Holdings };

    ghost view = { λ h. record { slots = h.slots.items; pages = h.pages.items; caches = h.caches.items } };

    ghost invariant = { λ h. AreListed h.caches.items × ArePages h.longest h.pages.items × IsNonDecreasing h.slots.items };
}

impl Held {
    /// Returns the held slots in ascending order.
    pub fn slots(&self) -> &[u16]
        ensures { result.now ≡ self.now.slots }
    {
        self.slots.as_slice()
    }

    /// Returns the live page blocks in ascending order of their first frames.
    pub fn pages(&self) -> &[FrameBlock]
        ensures { result.now ≡ self.now.pages }
    {
        self.pages.as_slice()
    }

    /// Returns the caches in ascending order of their numbers.
    pub fn caches(&self) -> &[HeldCache]
        ensures { result.now ≡ self.now.caches }
    {
        self.caches.as_slice()
    }

    /// Returns whether the tenant holds the slot.
    pub fn has_slot(&self, slot: u32) -> bool
        ensures { result ≡ has_slot self.now slot }
    {
        self.slots.iter().any(|held| u32::from(*held) == slot)
    }

    /// Returns `slot` as a `u16` if the tenant holds this slot, or `None` otherwise.
    pub fn held_slot(&self, slot: u32) -> Option<u16>
        ensures { MatchOption result (has_slot self.now slot ≡ false) (λ u. (u ≡ slot) × (has_slot self.now slot ≡ true)) }
    {
        self.find_slot(slot)
    }

    fn find_slot(&self, slot: u32) -> Option<u16>
        ensures { result ≡ find (λ v. v == slot) self.now.slots }
    {
        self.slots
            .iter()
            .copied()
            .find(|held| u32::from(*held) == slot)
    }

    /// Returns whether some cache may have an empty slab. `may_have_empty`, indexed by cache number, says which caches may have
    /// one.
    pub fn may_have_some_empty(&self, may_have_empty: &[bool]) -> bool
        ensures { result ≡ list_any (λ c. slice_index_or may_have_empty.now c.number false) self.now.caches }
    {
        self.caches
            .iter()
            .any(|cache| is_marked(may_have_empty, cache.number()))
    }

    /// Returns the order of the live page block that begins at the frame, if one does.
    #[tactic(auto, using(crate::proofs::ComputedTests::order_found))]
    pub fn order_at(&self, frame: u32) -> Option<u8>
        ensures { result ≡ order_in self.now.pages frame }
    {
        match self.page_at(frame) {
            Some(page) => Some(page.order()),
            None => None,
        }
    }

    /// Returns the live page block that begins at the frame, if one does.
    pub fn page_at(&self, frame: u32) -> Option<&FrameBlock>
        ensures { option_copied result ≡ find (λ b. b.first == frame) self.now.pages }
    {
        with_key(&self.pages, frame)
    }

    /// Returns the cache with this number, if there is one.
    pub fn cache(&self, number: u32) -> Option<&HeldCache>
        ensures { option_copied result ≡ known_cache self.now number }
    {
        self.caches
            .iter()
            .find(|cache| u32::from(cache.number()) == number)
    }

    /// Returns whether the tenant has `MAX_CACHES` caches, the most that it may have.
    pub fn has_most_caches(&self) -> bool
        ensures { result ≡ nat_le MAX_CACHES (length self.now.caches) }
    {
        usize::from(MAX_CACHES) <= self.caches.len()
    }

    /// Returns whether no frame of the block is taken.
    #[tactic(auto, using(crate::proofs::ComputedTests::vacant_is))]
    pub fn is_vacant(&self, block: &FrameBlock) -> bool
        ensures { result ≡ is_vacant self.now block.now }
    {
        !(self.is_in_pages(block) || self.is_in_slabs(block))
    }

    /// Returns whether a page block shares a frame with the block.
    fn is_in_pages(&self, block: &FrameBlock) -> bool
        ensures { result ≡ list_any (overlaps block.now) self.now.pages }
    {
        // Of the blocks that `pages_near` returns, the last are the nearest to `block`, so they are tested first.
        self.pages_near(u64::from(block.first()), block.end())
            .iter()
            .rev()
            .any(|page| block.overlaps(page))
    }

    /// Returns all live page blocks whose first frame is before `end` and whose last frame is `begin` or later, and maybe more
    /// live page blocks.
    pub(crate) fn pages_near(&self, begin: u64, end: u64) -> &[FrameBlock]
        requires order { begin ≤ end }
        requires small { end < 2 ^ 33 }
        ensures { (test : Block → Bool)
            → ((b : Block) → test b ≡ true → (begin < b.first + 2 ^ b.order) × (b.first < end))
            → list_any test self.now.pages ≡ list_any test result.now }
    {
        // A block that begins before the frame `first` does not reach the frame `begin`.
        let first = begin.saturating_sub((1u64 << self.longest) - 1);
        all_within(&self.pages, first, end, (end - first) as usize)
    }

    /// Returns the first live page block that shares a frame with the block, if there is one.
    pub fn page_over(&self, block: &FrameBlock) -> Option<FrameBlock>
        ensures { result ≡ find (overlaps block.now) self.now.pages }
    {
        self.pages.iter().copied().find(|page| block.overlaps(page))
    }

    /// Returns whether the slab of a live object shares a frame with the block.
    fn is_in_slabs(&self, block: &FrameBlock) -> bool
        ensures { result ≡ list_any (λ c. list_any (λ p. overlaps block.now (slab_around c p)) c.live) self.now.caches }
    {
        self.caches.iter().any(|cache| cache.has_slab_over(block))
    }

    /// Returns whether this block can become a page block or a slab. Slots have `2^order` frames.
    #[tactic(auto, unfolding(promise_core::specs::Holdings::can_stand))]
    pub fn can_stand(&self, order: u8, block: &FrameBlock) -> bool
        requires { order ≤ MAX_ORDER }
        ensures { result ≡ can_stand order self.now block.now }
    {
        block.order() <= order
            && block.first() % (1u32 << block.order()) == 0
            && self.has_slot(block.first() / (1u32 << order))
            && self.is_vacant(block)
    }

    /// Returns whether a frame of the slot is taken.
    pub fn is_slot_busy(&self, order: u8, slot: u16) -> bool
        requires { order ≤ MAX_ORDER }
        ensures { result ≡ is_slot_busy order self.now slot }
    {
        !self.is_vacant(&FrameBlock::of_slot(order, slot))
    }

    /// Returns how many aligned blocks of `2^k` frames in a slot of `2^order` frames have no taken frame.
    fn count_vacant_in(&self, order: u8, k: u8, slot: u16) -> u32
        requires order { order ≤ MAX_ORDER }
        requires k { k ≤ MAX_ORDER }
        ensures value { result ≡ length (filter (is_vacant self.now) (blocks_of_slot order k slot)) }
        ensures most { result ≤ 256 }
    {
        // In a slot of 64 frames or more, single frames are counted with `taken_in`, which searches each cache once, with a short
        // search for each slab. This costs less than testing the frames one by one.
        if k > 0 || order < 6 {
            let blocks = 1u32 << order.saturating_sub(k);
            return self.count_vacant_from(k, u32::from(slot) * blocks, blocks);
        }
        let taken = self.taken_in(&FrameBlock::of_slot(order, slot));
        count_clear(&taken, 1 << order) as u32
    }

    /// Returns how many of the aligned blocks of `2^k` frames with the numbers `begin` to `begin + blocks - 1` have no taken
    /// frame.
    fn count_vacant_from(&self, k: u8, begin: u32, blocks: u32) -> u32
        requires k { k ≤ MAX_ORDER }
        requires end { begin + blocks ≤ 2 ^ 24 }
        ensures value { result ≡ length (filter (is_vacant self.now) (map (λ i. block (i * 2 ^ k) k) (range_with_len begin blocks))) }
        ensures most { result ≤ blocks }
    {
        let mut count = 0u32;
        for i in 0..blocks {
            if self.is_vacant(&FrameBlock::numbered(begin + i, k)) {
                count += 1;
            }
        }
        count
    }

    /// Returns how many aligned blocks of `2^k` frames in held slots of `2^order` frames have no taken frame.
    pub fn count_vacant(&self, order: u8, k: u8) -> u128
        requires order { order ≤ MAX_ORDER }
        requires k { k ≤ MAX_ORDER }
        ensures { result ≡ length (vacant_blocks order self.now k) }
    {
        let mut count = 0u128;
        for slot in &self.slots {
            count += u128::from(self.count_vacant_in(order, k, *slot));
        }
        count
    }

    /// Returns whether some aligned block of `2^k` frames in a held slot has no taken frame.
    pub fn has_vacant_block(&self, order: u8, k: u8) -> bool
        requires order { order ≤ MAX_ORDER }
        requires k { k ≤ MAX_ORDER }
        ensures { result ≡ has_vacant_block order self.now k }
    {
        self.count_vacant(order, k) > 0
    }

    /// Returns whether a take from the cache may return the object at the place.
    #[tactic(auto, unfolding(promise_core::specs::Holdings::can_be_taken))]
    pub fn can_be_taken(&self, order: u8, cache: &HeldCache, place: u32) -> bool
        requires { order ≤ MAX_ORDER }
        ensures { result ≡ can_be_taken order self.now cache.now place }
    {
        if !cache.is_aligned(place) {
            return false;
        }
        let beside = cache.beside(place);
        (!beside.is_empty() || self.can_stand(order, &cache.slab_around(place)))
            && cache.has_gap_among(place, beside)
    }

    /// Returns the live page block or live object that contains the `len` bytes that begin at `place`, if there is one. Returns
    /// `None` if `len` is 0.
    #[tactic(auto, unfolding(promise_core::specs::Bytes::holder_of))]
    pub fn holder_of(&self, place: u32, len: u32) -> Option<RangeHolder>
        ensures { option_map shown_holder result ≡ holder_of self.now place len }
    {
        if len == 0 {
            return None;
        }
        if self.has_page_with(place, len) {
            return Some(RangeHolder::Page);
        }
        self.object_with(place, len)
    }

    fn has_page_with(&self, place: u32, len: u32) -> bool
        requires { 1 ≤ len }
        ensures { result ≡ list_any (within_block place len) self.now.pages }
    {
        let frame = u64::from(place / FRAME_BYTES);
        // Of the blocks that `pages_near` returns, the last are the nearest to `place`, so they are tested first.
        self.pages_near(frame, frame + 1)
            .iter()
            .rev()
            .any(|page| page.has_range(place, len))
    }

    fn object_with(&self, place: u32, len: u32) -> Option<RangeHolder>
        ensures { option_map shown_holder result ≡ object_with place len self.now.caches }
    {
        for c in &self.caches {
            if let Some(first) = c.object_with(place, len) {
                return Some(RangeHolder::Object {
                    cache: c.number(),
                    first,
                });
            }
        }
        None
    }
}

/// Returns the mark at index `number`, or false if there is none.
pub fn is_marked(marks: &[bool], number: u8) -> bool
    ensures { result ≡ slice_index_or marks.now number false }
{
    marks.get(usize::from(number)).copied().unwrap_or(false)
}

/// Returns the index of the cache with this number, if there is one.
pub(crate) fn index_of_cache(caches: &[HeldCache], number: u32) -> Option<usize>
    ensures value { result ≡ position (λ c. c.number == number) caches.now }
    ensures inside { IfSome result (λ i. i < length caches.now) }
{
    caches
        .iter()
        .position(|cache| u32::from(cache.number()) == number)
}
