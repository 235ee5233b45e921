//! Finds the object that begins at a place, tests whether it is live, and marks it free.

ghost use Rattle.std.specs.Prelude.{◌≡◌, ℕ, ◌*◌, ◌+◌, ◌/◌, ◌%◌, ◌^◌, ◌<◌, ◌≤◌, Some, length, IfSome, MatchOption, not, true, false};
ghost use Rattle.model_core.specs.declared.limits.TheConstants.{FRAME_BYTES, MAX_CACHES, WIDE_FRAMES, WIDE_ORDER, RECORD_OFFSET};
ghost use Rattle.model_core.specs.Blocks.{around};
ghost use Rattle.slab_tables.specs.Content.{Content, IsSlabs, kept_at, cache_at, index_of_cache, layout_numbers};
ghost use Rattle.machine_changes.specs.Records.{is_set};
ghost use Rattle.machine_changes.specs.Shows.{machine_frame_of, has_slab, is_of_cache, is_live, IsSlab};
ghost use Rattle.machine_changes.specs.Objects.{IsLiveObject, IsNoObject};
ghost use Rattle.buddy_core.specs.Content as buddies;
ghost use Rattle.space_core.specs.Windows.{home_of};
ghost use Rattle.slab_core.specs.Objects.{found_in, IsTurned, IsToCount, IsRecounted};
ghost use Rattle.slab_core.specs.Giving.{BeginsAt, IsLowered, IsRecordLowered};
ghost use Rattle.machine_changes.specs.Slots.{HoldTogether};
ghost use Rattle.space_core.specs.Content as spaces;
ghost use Rattle.space_core.specs.Laws.{SpaceLaws};
ghost use Rattle.klist_core.specs.Places.{place_at};

use crate::Slabs;
use model_core::limits::{FRAME_BYTES, RECORD_OFFSET};
use slab_tables::{Cache, ListId, Tables};
use space_core::Space;

/// A cache of a tenant: the tenant, the cache's number, and its stored state.
#[derive(Clone, Copy)]
pub(crate) struct TenantCache<'a> {
    pub(crate) tenant: u8,
    pub(crate) number: u32,
    pub(crate) kept: &'a Cache,
}

/// A slab: its first frame in the tenant's numbering, and its first machine frame.
#[derive(Clone, Copy)]
pub(crate) struct Slab {
    pub(crate) first: u32,
    pub(crate) machine_frame: u32,
}

/// An object: its slab, and its index in the slab.
#[derive(Clone, Copy)]
pub(crate) struct Object {
    pub(crate) slab: Slab,
    pub(crate) index: u32,
}

/// Returns the place of the byte that contains the bit of object `index` in the control record in frame `frame`.
pub(crate) fn record_place(frame: u32, index: u32) -> u32
    requires frame { frame < WIDE_FRAMES }
    requires index { index < 256 }
    ensures { result ≡ FRAME_BYTES * frame + RECORD_OFFSET + index / 8 }
{
    FRAME_BYTES * frame + RECORD_OFFSET + index / 8
}

/// Returns true if bit `bit` of `bits` is 1. `bits` is a byte of a control record, or a whole record that is stored outside its
/// slab.
#[inline(always)]
fn is_bit_set(bits: u32, bit: u32) -> bool
    requires { bit < 16 }
    ensures { result ≡ is_set bits bit }
{
    bits >> bit & 1 == 1
}

/// Clears a bit of a control record and returns true if it was set. `bit` is the bit's index in the record, 0 to 255.
#[inline(always)]
fn lower(bytes: &mut [u8], bit: u32) -> bool
    requires whole { length bytes.old ≡ 32 }
    requires bit { bit < 256 }
    ensures { IsLowered bytes.old bytes.new bit result }
{
    if !is_bit_set(u32::from(bytes[bit as usize / 8]), bit % 8) {
        return false;
    }
    bytes[bit as usize / 8] ^= 1 << (bit % 8);
    true
}

/// Clears a bit of the control record at place `place` of tenant `t` and returns true if it was set. The record lies in
/// `superblock`.
#[inline(always)]
fn lower_in_record(space: &mut Space, superblock: u16, t: u8, place: u32, bit: u32) -> bool
    requires home { home_of space.old t place 32 ≡ Some superblock }
    requires bit { bit < 256 }
    ensures { IsRecordLowered space.old space.new t place bit result }
{
    lower(space.window_in(superblock, t, place, 32), bit)
}

/// Returns the first frame of the aligned block of `2^order` frames around a place.
pub(crate) fn block_around(place: u32, order: u8) -> u32
    requires { order ≤ 3 }
    ensures value { result ≡ (around (place / FRAME_BYTES) order).first }
    ensures below { FRAME_BYTES * result ≤ place }
{
    place / FRAME_BYTES >> order << order
}

/// Returns the machine frame of a frame of tenant `t`, or `None` if the tenant does not hold the frame's slot.
pub(crate) fn machine_frame_in(tables: &Tables, space: &Space, t: u8, frame: u32) -> Option<u32>
    requires tenant { t < length space.now.slots }
    requires machine_frames { length tables.now.lists.places ≡ length space.now.owners * 2 ^ tables.now.top }
    ensures value { result ≡ machine_frame_of tables.now.top space.now.slots t frame }
    ensures below { IfSome result (λ machine_frame. machine_frame < length tables.now.lists.places) }
{
    tables.laws();
    let order = tables.order();
    let slot = frame >> order;
    let m = space.machine_of(t, slot)?;
    Some(machine_frame_under(frame, slot, m, order))
}

/// Returns the machine frame of `frame`, which lies in slot `slot`. `superblock` is the slot's superblock, of `2^order` frames.
///
/// Adds to `frame` the difference between the first machine frame of the superblock and the first frame of the slot. If the
/// difference wraps around, the sum wraps back. This takes fewer instructions than computing the frame's index in the slot first.
#[inline(always)]
fn machine_frame_under(frame: u32, slot: u32, superblock: u16, order: u8) -> u32
    requires slot { slot ≡ frame / 2 ^ order }
    requires order { order ≤ WIDE_ORDER }
    ensures { result ≡ superblock * 2 ^ order + frame % 2 ^ order }
{
    frame.wrapping_add(u32::from(superblock).wrapping_sub(slot) << order)
}

impl Slabs {
    /// Returns the machine frame of a frame of tenant `t`, or `None` if the tenant does not hold the frame's slot.
    pub(crate) fn machine_frame(&self, space: &Space, t: u8, frame: u32) -> Option<u32>
        requires tenant { t < length space.now.slots }
        requires machine_frames { length self.now.lists.places ≡ length space.now.owners * 2 ^ self.now.top }
        ensures value { result ≡ machine_frame_of self.now.top space.now.slots t frame }
        ensures below { IfSome result (λ machine_frame. machine_frame < length self.now.lists.places) }
    {
        machine_frame_in(&self.tables, space, t, frame)
    }

    /// Returns the superblock of a machine frame.
    #[inline(always)]
    pub(crate) fn superblock(&self, machine_frame: u32) -> u16
        requires tables { IsSlabs self.now }
        requires machine_frame { machine_frame < length self.now.lists.places }
        ensures { result ≡ machine_frame / 2 ^ self.now.top }
    {
        (machine_frame >> self.tables.order()) as u16
    }

    /// Returns true if a slab begins at frame `frame` of tenant `t`. Returns false if the tenant does not hold the slot of the
    /// frame.
    ///
    /// `space` has to be the memory in which these slabs lie, with as many frames as `self` has machine frames.
    pub fn is_slab(&self, space: &Space, t: u8, frame: u32) -> bool
        requires tenant { t < length space.now.slots }
        requires machine_frames { length self.now.lists.places ≡ length space.now.owners * 2 ^ self.now.top }
        ensures { result ≡ has_slab self.now (machine_frame_of self.now.top space.now.slots t frame) }
    {
        match self.machine_frame(space, t, frame) {
            None => false,
            Some(machine_frame) => self.is_slab_in(machine_frame),
        }
    }

    /// Returns true if a slab begins at the machine frame. A caller that has already looked up the superblock saves the lookup of
    /// [`Slabs::is_slab`].
    #[inline(always)]
    pub fn is_slab_in(&self, machine_frame: u32) -> bool
        requires { machine_frame < length self.now.lists.places }
        ensures { result ≡ has_slab self.now (Some machine_frame) }
    {
        self.tables.place_of(machine_frame).is_some()
    }

    /// Returns true if the slab exists and belongs to the cache.
    fn is_of_cache(&self, cache: TenantCache<'_>, slab: Slab) -> bool
        requires cache { cache.number < MAX_CACHES }
        requires machine_frame { slab.machine_frame < length self.now.lists.places }
        ensures { result ≡ is_of_cache (index_of_cache cache.entry.tenant cache.entry.number) slab.first
            (place_at self.now.lists.places slab.machine_frame) }
    {
        match self.tables.place_of(slab.machine_frame) {
            None => false,
            Some((number, first)) => {
                ListId { number }.is_of(cache.tenant, cache.number) && first == slab.first
            }
        }
    }

    /// Returns true if the object is live.
    pub(crate) fn is_live_object(
        &self,
        space: &Space,
        cache: TenantCache<'_>,
        object: Object,
    ) -> bool
        requires tenant { cache.tenant < length space.now.slots }
        requires laws { SpaceLaws space.now }
        requires tables { IsSlabs self.now }
        requires unit { space.now.unit ≡ FRAME_BYTES * 2 ^ self.now.top }
        requires slab { IsSlab space.now self.now cache.tenant cache.number object.slab.first object.slab.machine_frame cache.kept.now }
        requires index { object.index < (layout_numbers cache.kept.now).count }
        ensures { result ≡ is_live space.now cache.entry.tenant cache.entry.kept.now
            (kept_at self.now.kept object.slab.machine_frame) object.slab.first object.index }
    {
        if cache.kept.layout.in_page() {
            let superblock = self.superblock(object.slab.machine_frame);
            let place = record_place(object.slab.first, object.index);
            space.byte_in(superblock, cache.tenant, place) >> (object.index % 8) & 1 == 1
        } else {
            let outside = self.tables.kept_of(object.slab.machine_frame).outside;
            outside >> object.index & 1 == 1
        }
    }

    /// Returns the object of `cache` that begins at `place`, live or not, or `None` if no object of the cache begins there.
    /// Always inlined: otherwise a give takes a third more instructions.
    #[inline(always)]
    pub(crate) fn locate(&self, space: &Space, cache: TenantCache<'_>, place: u32) -> Option<Object>
        requires tenant { cache.tenant < length space.now.slots }
        requires parts { (b : buddies.Content) × HoldTogether space.now b self.now }
        requires cache { cache_at self.now cache.tenant cache.number ≡ Some cache.kept.now }
        ensures { MatchOption result (IsNoObject space.now self.now cache.entry.tenant cache.entry.number place)
            (λ o. BeginsAt space.now self.now cache.entry.tenant cache.entry.number place (found_in cache.entry.kept.now o)) }
    {
        let order = cache.kept.layout.order();
        let first = block_around(place, order);
        let machine_frame = self.machine_frame(space, cache.tenant, first)?;
        let slab = Slab {
            first,
            machine_frame,
        };
        if !self.is_of_cache(cache, slab) {
            return None;
        }
        let colour = self.tables.kept_of(machine_frame).colour;
        let index = cache
            .kept
            .layout
            .index_of(colour, place - FRAME_BYTES * first)?;
        Some(Object { slab, index })
    }

    /// Returns the live object of `cache` that begins at `place`, or `None` if no live object of the cache begins there.
    #[inline(always)]
    pub(crate) fn find(&self, space: &Space, cache: TenantCache<'_>, place: u32) -> Option<Object>
        requires tenant { cache.tenant < length space.now.slots }
        requires parts { (b : buddies.Content) × HoldTogether space.now b self.now }
        requires cache { cache_at self.now cache.tenant cache.number ≡ Some cache.kept.now }
        ensures { MatchOption result (IsNoObject space.now self.now cache.entry.tenant cache.entry.number place)
            (λ o. IsLiveObject space.now self.now cache.entry.tenant cache.entry.number place (found_in cache.entry.kept.now o)) }
    {
        let object = self.locate(space, cache, place)?;
        if self.is_live_object(space, cache, object) {
            Some(object)
        } else {
            None
        }
    }

    /// Clears the bit of an object in the record of its slab, and returns true if the bit was set. If it was not set, nothing
    /// changes.
    ///
    /// A give reads and clears the bit in this one call, because two calls would look up the byte twice.
    #[inline(always)]
    pub(crate) fn clear_bit(
        &mut self,
        space: &mut Space,
        cache: TenantCache<'_>,
        object: Object,
    ) -> bool
        requires tenant { cache.tenant < length space.old.slots }
        requires laws { SpaceLaws space.old }
        requires tables { IsSlabs self.old }
        requires unit { space.old.unit ≡ FRAME_BYTES * 2 ^ self.old.top }
        requires slab { IsSlab space.old self.old cache.tenant cache.number object.slab.first object.slab.machine_frame cache.kept.now }
        requires index { object.index < (layout_numbers cache.kept.now).count }
        ensures live { result ≡ is_live space.old cache.entry.tenant cache.entry.kept.now
            (kept_at self.old.kept object.slab.machine_frame) object.slab.first object.index }
        ensures turned { result ≡ true
            → IsTurned space.old space.new self.old self.new cache.entry.tenant (found_in cache.entry.kept.now object) }
        ensures kept { result ≡ false → (space.new ≡ space.old) × (self.new ≡ self.old) }
    {
        let machine_frame = object.slab.machine_frame;
        if cache.kept.layout.in_page() {
            let superblock = self.superblock(machine_frame);
            let place = record_place(object.slab.first, 0);
            lower_in_record(space, superblock, cache.tenant, place, object.index)
        } else {
            let outside = self.tables.kept_of(machine_frame).outside;
            if !is_bit_set(u32::from(outside), object.index) {
                return false;
            }
            self.tables
                .set_outside(machine_frame, outside ^ 1 << object.index);
            true
        }
    }

    /// Updates the number of live objects in a slab after an object was marked: adds 1 if the object is now live, or subtracts 1
    /// if it is now free.
    #[inline(always)]
    pub(crate) fn recount(&mut self, cache: TenantCache<'_>, object: Object, live: bool)
        requires { (r : spaces.Content) × (r' : spaces.Content) × (b : buddies.Content) × (s : Content)
            × IsToCount r r' b s self.old cache.tenant cache.number (found_in cache.kept.now object) live }
        ensures { (r r' : spaces.Content) (b : buddies.Content) (s : Content)
            → IsToCount r r' b s self.old cache.entry.tenant cache.entry.number (found_in cache.entry.kept.now object) live
            → IsRecounted r r' b s self.new cache.entry.tenant cache.entry.number (found_in cache.entry.kept.now object) live }
    {
        let slab = object.slab;
        let before = u32::from(self.tables.kept_of(slab.machine_frame).live);
        let count = if live { before + 1 } else { before - 1 };
        self.tables.set_count(
            cache.tenant,
            cache.number,
            cache.kept,
            slab.first,
            slab.machine_frame,
            count,
        );
    }
}
