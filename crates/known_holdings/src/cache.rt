//! A cache of a tenant, as the command that made it and the reply describe it.

ghost use Rattle.std.specs.Prelude.{◌≡◌, ℕ, ◌+◌, ◌-◌, ◌*◌, ◌/◌, ◌%◌, ◌^◌, ◌<◌, ◌≤◌, nat_le, nat_lt, ◌==◌, ◌&&◌, not, find, filter, length, [], IfOk, OnErr};
ghost use Rattle.std.specs.List.{list_any, list_all};
ghost use Rattle.model_core.specs.declared.limits.TheConstants.{FRAME_BYTES, MAX_ORDER, MAX_SIZE};
ghost use Rattle.model_core.specs.Choice.{is_any_below};
ghost use Rattle.model_core.specs.Operations.{overlaps};
ghost use Rattle.model_core.specs.Layouts.{pattern_byte};
ghost use Rattle.model_core.specs.Reach.{is_within};
ghost use Rattle.model_core.specs.Machine.{put_rising};
ghost use Rattle.promise_core.specs.Holdings.{slab_around, live_beside, is_slab_full, are_apart, is_grid};
ghost use Rattle.known_holdings.specs.Inside.{IsKnownLayout, IsObjectAt};

use crate::block::FrameBlock;
use crate::layout::KnownLayout;
use crate::rising::{all_within, first_from, first_within, put, remove, with_key};
use arrayvec::ArrayVec;
use model_core::limits::{FRAME_BYTES, MAX_PATTERN};
use std::alloc::{AllocError, Global};
use std::marker::Model;

/// A cache with its live objects. Sizes are in bytes.
#[derive(Debug, Drop)]
pub struct HeldCache {
    number: u8,
    size: u32,
    align: u32,
    pattern: ArrayVec<u8, MAX_PATTERN>,
    chunk: u32,
    order: u8,
    count: u32,
    /// The first places of the live objects, in ascending order.
    pub(crate) live: Vec<u32>,
}

impl Model for HeldCache {
    ghost use Rattle.promise_core.specs.Holdings.{KnownCache};
    ghost use Rattle.std.specs.List.Sorted.{IsNonDecreasing};
    ghost use Rattle.known_holdings.specs.Inside.{IsKnownLayout};

    ghost Value = { KnownCache };

    ghost view = { λ c. record { number = c.number; size = c.size; align = c.align; pattern = c.pattern.items; chunk = c.chunk; order = c.order; count = c.count; live = c.live.items } };

    ghost invariant = { λ c. IsKnownLayout c.size c.align c.chunk c.order c.count × IsNonDecreasing c.live.items };
}

impl HeldCache {
    /// Returns a cache without live objects. Its fresh objects contain the pattern, repeated.
    pub fn new(
        alloc: Global,
        number: u8,
        layout: KnownLayout,
        pattern: &ArrayVec<u8, MAX_PATTERN>,
    ) -> HeldCache
        requires { IsKnownLayout layout.size layout.align layout.chunk layout.order layout.count }
        ensures { result ≡ record {
          number = number;
          size = layout.size;
          align = layout.align;
          pattern = pattern.now.items;
          chunk = layout.chunk;
          order = layout.order;
          count = layout.count;
          live = [];
        } }
    {
        HeldCache {
            number,
            size: layout.size,
            align: layout.align,
            pattern: copy_of(pattern),
            chunk: layout.chunk,
            order: layout.order,
            count: layout.count,
            live: Vec::new(alloc),
        }
    }

    /// Adds the object that begins at the place. Fails if memory runs out; the cache is then unchanged.
    pub(crate) fn take(&mut self, place: u32) -> Result<(), AllocError>
        ensures taken { IfOk result (λ _. self.new ≡ record self.old { live = put_rising (λ p. p) place self.old.live }) }
        ensures kept { OnErr result (self.new ≡ self.old) }
    {
        put(&mut self.live, place)?;
        Ok(())
    }

    /// Removes the object that begins at the place.
    pub(crate) fn give(&mut self, place: u32)
        ensures { self.new ≡ record self.old { live = filter (λ p. not (p == place)) self.old.live } }
    {
        remove(&mut self.live, place);
    }

    /// Returns the number of the cache.
    pub fn number(&self) -> u8
        ensures { result ≡ self.now.number }
    {
        self.number
    }

    /// Returns the size of an object in bytes, 1 to `MAX_SIZE`.
    pub fn size(&self) -> u32
        ensures value { result ≡ self.now.size }
        ensures some { 1 ≤ result }
        ensures most { result ≤ MAX_SIZE }
    {
        self.size
    }

    /// Returns the first places of the live objects in ascending order.
    pub fn live(&self) -> &[u32]
        ensures { result.now ≡ self.now.live }
    {
        self.live.as_slice()
    }

    /// Returns the order of a slab, which has `2^order` frames.
    pub fn order(&self) -> u8
        ensures value { result ≡ self.now.order }
        ensures most { result ≤ MAX_ORDER }
    {
        self.order
    }

    /// Returns whether the cache has a live object.
    pub fn is_in_use(&self) -> bool
        ensures { result ≡ nat_lt 0 (length self.now.live) }
    {
        !self.live.is_empty()
    }

    /// Returns whether a live object begins at the place.
    pub fn has_live(&self, place: u32) -> bool
        ensures { result ≡ list_any (λ p. p == place) self.now.live }
    {
        with_key(&self.live, place).is_some()
    }

    /// Returns the slab of an object that begins at this place.
    pub fn slab_around(&self, place: u32) -> FrameBlock
        ensures { result ≡ slab_around self.now place }
    {
        FrameBlock::around(place / FRAME_BYTES, self.order)
    }

    /// Returns whether the slab of a live object shares a frame with the block.
    pub fn has_slab_over(&self, block: &FrameBlock) -> bool
        ensures { result ≡ list_any (λ p. overlaps block.now (slab_around self.now p)) self.now.live }
    {
        let begin = FrameBlock::around(block.first(), self.order).first_byte();
        match first_from(&self.live, begin) {
            Some(place) => block.overlaps(&self.slab_around(*place)),
            None => false,
        }
    }

    /// Returns, in ascending order, the first places of the live objects in the slab that contains the place.
    pub fn beside(&self, place: u32) -> &[u32]
        ensures { result.now ≡ live_beside self.now place }
    {
        let slab = self.slab_around(place);
        all_within(
            &self.live,
            slab.first_byte(),
            slab.end_byte(),
            self.count as usize,
        )
    }

    /// Returns whether all objects of the slab that contains the place are live.
    fn is_slab_full(&self, place: u32) -> bool
        ensures { result ≡ is_slab_full self.now place }
    {
        self.beside(place).len() == self.count as usize
    }

    /// Returns whether every slab with a live object is full, that is, all of its objects are live.
    pub fn is_full(&self) -> bool
        ensures { result ≡ list_all (is_slab_full self.now) self.now.live }
    {
        self.live.iter().all(|place| self.is_slab_full(*place))
    }

    /// Returns the first place of the live object that contains the `len` bytes that begin at `place`, if there is one.
    pub fn object_with(&self, place: u32, len: u32) -> Option<u32>
        ensures { result ≡ find (λ first. is_within place len first self.now.size) self.now.live }
    {
        // An object that begins before `low` does not reach the end of the range. An object that begins after `place` misses the
        // beginning of the range.
        let end = u64::from(place) + u64::from(len);
        let low = end.saturating_sub(u64::from(self.size));
        first_within(&self.live, low, u64::from(place) + 1).copied()
    }

    /// Returns whether an object at the place shares no byte with the objects at these places.
    fn is_apart(&self, place: u32, beside: &[u32]) -> bool
        ensures { result ≡ list_all (are_apart self.now place) beside.now }
    {
        beside.iter().all(|p| self.are_apart(place, *p))
    }

    fn are_apart(&self, p: u32, q: u32) -> bool
        ensures { result ≡ are_apart self.now p q }
    {
        let size = u64::from(self.size);
        u64::from(p) + size <= u64::from(q) || u64::from(q) + size <= u64::from(p)
    }

    /// Returns whether the place is a multiple of the cache's alignment.
    pub fn is_aligned(&self, place: u32) -> bool
        ensures { result ≡ (place % self.now.align == 0) }
    {
        place % self.align == 0
    }

    /// Returns how many objects a slab has.
    pub fn count(&self) -> u32
        ensures { result ≡ self.now.count }
    {
        self.count
    }

    /// Returns whether a slab with object `i` at the place can have these live objects.
    fn is_on_grid(&self, place: u32, i: u32, beside: &[u32]) -> bool
        requires { i < self.now.count }
        ensures { result ≡ (nat_le (i * self.now.chunk) place
            && is_grid self.now (slab_around self.now place) (place - i * self.now.chunk) beside.now) }
    {
        let before = i * self.chunk;
        before <= place && self.is_grid(place, place - before, beside)
    }

    /// Returns whether a slab with its first object at `origin` can have these live objects.
    #[tactic(auto, using(crate::proofs::ComputedTests::inside_slab))]
    fn is_grid(&self, place: u32, origin: u32, beside: &[u32]) -> bool
        ensures { result ≡ is_grid self.now (slab_around self.now place) origin beside.now }
    {
        let slab = self.slab_around(place);
        slab.has_range(origin, self.objects_bytes()) && self.are_steps(origin, beside)
    }

    /// Returns the number of bytes from the first object of a slab to the end of its last one.
    fn objects_bytes(&self) -> u32
        ensures value { result ≡ (self.now.count - 1) * self.now.chunk + self.now.size }
        ensures small { result < 2 ^ 21 }
    {
        (self.count - 1) * self.chunk + self.size
    }

    /// Returns whether an object begins at each of these places, in a slab with its first object at `origin`.
    fn are_steps(&self, origin: u32, beside: &[u32]) -> bool
        ensures { result ≡ list_all (λ p. nat_le origin p && ((p - origin) % self.now.chunk == 0
            && nat_lt ((p - origin) / self.now.chunk) self.now.count)) beside.now }
    {
        beside.iter().all(|p| self.is_step(origin, *p))
    }

    /// Returns whether an object begins at the place, in a slab with its first object at `origin`.
    fn is_step(&self, origin: u32, place: u32) -> bool
        ensures { result ≡ (nat_le origin place
            && ((place - origin) % self.now.chunk == 0 && nat_lt ((place - origin) / self.now.chunk) self.now.count)) }
    {
        origin <= place
            && (place - origin) % self.chunk == 0
            && (place - origin) / self.chunk < self.count
    }

    /// Returns the bounds of a range that contains every index that an object at the place can have in its slab. The range begins
    /// at the first result and ends before the second.
    fn numbers_at(&self, place: u32) -> (u32, u32)
        ensures most { result.1 ≤ self.now.count }
        ensures others { (i : ℕ) → i < self.now.count → IsObjectAt self.now place i → (result.0 ≤ i) × (i < result.1) }
    {
        let slab = self.slab_around(place);
        let chunk = u64::from(self.chunk);
        let count = u64::from(self.count);
        let objects = u64::from(place) + u64::from(self.objects_bytes());
        let low = (objects.saturating_sub(slab.end_byte()) + chunk - 1) / chunk;
        let high = u64::from(place).saturating_sub(slab.first_byte()) / chunk + 1;
        (low.min(count) as u32, high.min(count) as u32)
    }

    /// Returns whether a slab with one of its objects at the place can have these live objects.
    fn is_on_some_grid(&self, place: u32, beside: &[u32]) -> bool
        ensures { result ≡ is_any_below (λ i. nat_le (i * self.now.chunk) place
            && is_grid self.now (slab_around self.now place) (place - i * self.now.chunk) beside.now) self.now.count }
    {
        let (low, high) = self.numbers_at(place);
        for i in low..high {
            if self.is_on_grid(place, i, beside) {
                return true;
            }
        }
        false
    }

    /// Returns whether one more object of the slab that contains the place can begin at the place. `beside` has the first places
    /// of the slab's live objects.
    pub(crate) fn has_gap_among(&self, place: u32, beside: &[u32]) -> bool
        ensures { result ≡ (nat_lt (length beside.now) self.now.count
            && (list_all (are_apart self.now place) beside.now && is_any_below (λ i. nat_le (i * self.now.chunk) place
            && is_grid self.now (slab_around self.now place) (place - i * self.now.chunk) beside.now) self.now.count)) }
    {
        beside.len() < self.count as usize
            && self.is_apart(place, beside)
            && self.is_on_some_grid(place, beside)
    }

    /// Returns the byte at an offset of a fresh object.
    pub fn fresh_byte(&self, offset: u32) -> u8
        ensures { result ≡ pattern_byte self.now.pattern offset }
    {
        byte_of_pattern(self.pattern.as_slice(), offset)
    }
}

/// Returns the byte of the repeated pattern at this offset, or 0 if the pattern is empty.
fn byte_of_pattern(pattern: &[u8], offset: u32) -> u8
    ensures { result ≡ pattern_byte pattern.now offset }
{
    if pattern.is_empty() {
        return 0;
    }
    pattern[offset as usize % pattern.len()]
}

/// Returns a copy of the items.
pub fn copy_of<T: Copy + Default + Drop, const N: usize>(items: &ArrayVec<T, N>) -> ArrayVec<T, N>
    ensures { result.items ≡ items.now.items }
{
    let mut copy = ArrayVec::new();
    let taken = copy.try_extend_from_slice(items.as_slice());
    prove!(taken.is_ok());
    copy
}
