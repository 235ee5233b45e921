//! The shadow memory of a tenant, and how replies change it.

ghost use Rattle.std.specs.Prelude.{◌≡◌, ℕ, ◌+◌, ◌*◌, ◌^◌, ◌<◌, ◌≤◌, ◌==◌, ◌&&◌, not, filter, length, [], ◌∷◌, Some, true, false, OnOk, OnErr, option_map, slice_index};
ghost use Rattle.std.specs.List.{list_any};
ghost use Rattle.model_core.specs.declared.limits.TheConstants.{FRAME_BYTES, MAX_ORDER};
ghost use Rattle.model_core.specs.Machine.{in_block, slot_of};
ghost use Rattle.promise_core.specs.Holdings.{KnownCache, slab_around};
ghost use Rattle.promise_core.specs.Bytes.{Holder, is_object, is_same, with_bytes, doubted, without};
ghost use Rattle.promise_core.specs.State.{with_object, is_in_no_slab};
ghost use Rattle.known_holdings.specs.Holders.{shown_holder, shown_cell};
ghost use Rattle.shadow_memory.specs.Left.{left_slots, left_at, has_place, Becomes};
ghost use Rattle.shadow_memory.specs.Inside.{StaysNear, AreFrom, AreStepped, within};

use crate::change::{Change, Doubt, Put, Remove};
use crate::holder_predicates::{Fails, IsInNoSlab, IsNotBeside, IsObject, IsOfCache, IsPage};
use crate::kept::KeptByte;
use crate::slot::SlotBytes;
use crate::slots::{change_slots, drop_slot, kept_from, left_in, places_of};
use known_holdings::{FrameBlock, Held, LeftByte, RangeHolder};
use std::alloc::{AllocError, Global};
use std::marker::Model;

/// The shadow memory of a tenant: what was left at each place of the slots that it holds.
#[derive(Debug, Drop)]
pub struct ShadowMemory {
    order: u8,
    slots: Vec<SlotBytes>,
    /// The reach of each cache, indexed by cache number. The distance from an object's first byte to any byte that the object
    /// left is less than the reach of its cache.
    reach: [u64; 256],
}

impl Model for ShadowMemory {
    ghost use Rattle.std.specs.Prelude.{◌≤◌};
    ghost use Rattle.model_core.specs.declared.limits.TheConstants.{MAX_ORDER};
    ghost use Rattle.shadow_memory.specs.Left.{Left};
    ghost use Rattle.shadow_memory.specs.Inside.{AreSlots};

    ghost Value = { Left };

    ghost view = { λ b. record { order = b.order; slots = b.slots.items } };

    ghost invariant = { λ b. (b.order ≤ MAX_ORDER) × AreSlots b.order b.slots.items b.reach };
}

impl ShadowMemory {
    /// Returns shadow memory without slots, for slots of `2^order` frames.
    pub fn new(alloc: Global, order: u8) -> ShadowMemory
        requires { order ≤ MAX_ORDER }
        ensures { result ≡ record { order = order; slots = [] } }
    {
        let reach = [0; 256];
        ShadowMemory {
            order,
            slots: Vec::new(alloc),
            reach,
        }
    }

    /// Returns the order of a slot, which has `2^order` frames.
    pub fn order(&self) -> u8
        ensures value { result ≡ self.now.order }
        ensures most { result ≤ MAX_ORDER }
    {
        self.order
    }

    /// Adds a slot, in which nothing was left. Fails if memory runs out; the shadow memory is then unchanged.
    pub fn grant(&mut self, slot: u16) -> Result<(), AllocError>
        requires new { list_any (λ v. v == slot) (left_slots self.old) ≡ false }
        requires low { (slot + 1) * 2 ^ self.old.order * FRAME_BYTES ≤ 2 ^ 32 }
        ensures granted { OnOk result (Becomes self.old (slot ∷ left_slots self.old) (λ cells. cells) self.new) }
        ensures kept { OnErr result (self.new ≡ self.old) }
    {
        let places = places_of(self.order) as usize;
        let bytes = SlotBytes::fresh(*self.slots.allocator(), slot, places)?;
        self.slots.insert(0, bytes)?;
        Ok(())
    }

    /// Removes the slot and what was left in it, if the tenant holds the slot.
    pub fn take_back(&mut self, slot: u32)
        ensures { Becomes self.old (filter (λ v. not (v == slot)) (left_slots self.old))
            (without (λ place holder. slot_of self.old.order place == slot)) self.new }
    {
        drop_slot(&mut self.slots, slot);
    }

    /// Removes all slots, with what was left in them.
    pub fn reset(&mut self)
        ensures { self.new ≡ record self.old { slots = [] } }
    {
        self.slots.clear();
    }

    /// Stores bytes that were read or written in this holder, from `place` on. All of them are in slots that the tenant holds.
    pub fn put(&mut self, holder: RangeHolder, place: u32, bytes: &[u8])
        requires held { (j : ℕ) → j < length bytes.now → has_place self.old (place + j) ≡ true }
        requires near { (number first : ℕ) → shown_holder holder ≡ Holder.Object number first → first ≤ place }
        ensures { Becomes self.old (left_slots self.old) (with_bytes (shown_holder holder) place bytes.now) self.new }
    {
        let begin = u64::from(place);
        let end = begin + bytes.len() as u64;
        extend_reach(&mut self.reach, holder, end);
        let put = Put {
            holder,
            begin: place,
            bytes,
        };
        change_slots(&mut self.slots, self.order, begin, end, &put);
    }

    /// Follows an alloc of the page block: forgets the bytes that objects left in it.
    pub fn alloc(&mut self, block: &FrameBlock)
        ensures { Becomes self.old (left_slots self.old)
            (without (λ place holder. in_block place block.now && not (is_same Holder.Page holder))) self.new }
    {
        self.change(block.first_byte(), block.end_byte(), &Remove(Fails(IsPage)));
    }

    /// Follows a free of the page block: the bytes that page blocks left in it are now in doubt.
    pub fn free(&mut self, block: &FrameBlock)
        ensures { Becomes self.old (left_slots self.old)
            (doubted (λ place holder. in_block place block.now && is_same Holder.Page holder)) self.new }
    {
        self.change(block.first_byte(), block.end_byte(), &Doubt(IsPage));
    }

    /// Follows a give of the object at `first` of the cache with this number: the bytes that the object left are now in doubt.
    pub fn give(&mut self, number: u32, first: u32)
        ensures { Becomes self.old (left_slots self.old) (doubted (λ place. is_same (Holder.Object number first))) self.new }
    {
        let begin = u64::from(first);
        let end = begin.saturating_add(reach_of(&self.reach, number));
        self.change(begin, end, &Doubt(IsObject { number, first }));
    }

    /// Follows a take from the cache with this number. The object that was taken begins at `first`, lies in `slab` and has `size`
    /// bytes. Forgets the bytes that were left in the slab by holders that cannot share a slab with the object.
    pub fn take(&mut self, slab: &FrameBlock, number: u8, first: u32, size: u32)
        ensures { (c : KnownCache) → c.number ≡ number → c.size ≡ size → slab_around c first ≡ slab.now
            → Becomes self.old (left_slots self.old) (with_object first (Some c)) self.new }
    {
        // The first change forgets the bytes in the slab that no object of the cache left. The second forgets the bytes of other
        // objects of the cache that overlap the object.
        let own = u32::from(number);
        let low = u64::from(first.saturating_sub(size));
        let end_of_own = u64::from(first) + u64::from(size);
        let high = end_of_own.saturating_add(reach_of(&self.reach, own));
        let begin = slab.first_byte();
        let end = slab.end_byte();
        self.change(begin, end, &Remove(Fails(IsOfCache { number: own })));
        let test = IsNotBeside {
            number,
            first,
            size,
        };
        self.change(begin.max(low), end.min(high), &Remove(test));
    }

    /// Follows a destroy of the cache with this number: forgets the bytes that its objects left.
    pub fn destroy(&mut self, number: u32)
        ensures { Becomes self.old (left_slots self.old) (without (λ place. is_object (λ n p. n == number))) self.new }
    {
        self.change(0, 1u64 << 32, &Remove(IsOfCache { number }));
    }

    /// Follows a reap: forgets the bytes of each object whose first place is in no slab with a live object of its cache.
    pub fn reap(&mut self, held: &Held)
        ensures { Becomes self.old (left_slots self.old) (without (λ place. is_object (is_in_no_slab held.now))) self.new }
    {
        self.change(0, 1u64 << 32, &Remove(IsInNoSlab { held }));
    }

    /// Returns what was left at a place. Returns `None` if nothing was left there, or if the tenant does not hold the slot.
    pub fn at(&self, place: u32) -> Option<LeftByte>
        ensures { option_map shown_cell result ≡ left_at self.now place }
    {
        left_in(&self.slots, self.order, place)
    }

    /// Returns the stored bytes from a place on, at most to the end of its slot. Returns no bytes if the tenant does not hold the
    /// slot.
    pub(crate) fn kept_from(&self, place: u32) -> &[KeptByte]
        ensures { AreFrom self.now place result.now }
    {
        kept_from(&self.slots, self.order, place)
    }

    /// States that the places of the slots are below `2^32`. Does nothing.
    pub(crate) fn places_are_low(&self)
        ensures { (place : ℕ) → has_place self.now place ≡ true → place < 2 ^ 32 }
    {
        let _slots = &self.slots;
    }

    /// Changes what was left at the places in `begin..end`.
    fn change<C: Change>(&mut self, begin: u64, end: u64, change: &C)
        requires { StaysNear (C.step change.now) }
        ensures order { self.new.order ≡ self.old.order }
        ensures slots { AreStepped self.old.order (within begin end (C.step change.now)) self.old.slots self.new.slots }
    {
        change_slots(&mut self.slots, self.order, begin, end, change);
    }
}

/// Returns the reach of the cache with this number, or 0 if the number is too large.
fn reach_of(reach: &[u64; 256], number: u32) -> u64
    ensures { result ≡ slice_index reach.now number }
{
    reach.get(number as usize).copied().unwrap_or(0)
}

/// If the holder is an object, raises its cache's reach to at least the number of bytes from the object's first place to `end`.
fn extend_reach(reach: &mut [u64; 256], holder: RangeHolder, end: u64)
    ensures more { (n : ℕ) → slice_index reach.old n ≤ slice_index reach.new n }
    ensures near { (number first : ℕ) → shown_holder holder ≡ Holder.Object number first
        → end ≤ first + slice_index reach.new number }
{
    if let RangeHolder::Object { cache, first } = holder {
        let distance = end.saturating_sub(u64::from(first));
        let most = reach[usize::from(cache)].max(distance);
        reach[usize::from(cache)] = most;
    }
}
