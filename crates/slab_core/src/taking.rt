//! Taking an object.

ghost use Rattle.std.specs.Prelude.{◌≡◌, ℕ, ◌+◌, ◌*◌, ◌/◌, ◌%◌, ◌^◌, ◌<◌, ◌≤◌, not, true, false, List, Some, Ok, length, slice_index, IsSome, IfSome, IfOk, OnErr, MatchOption};
ghost use Rattle.std.specs.List.{position_or_len, slice_range};
ghost use Rattle.std.specs.Int.{w64, to_le_bytes};
ghost use Rattle.model_core.specs.declared.limits.TheConstants.{FRAME_BYTES};
ghost use Rattle.model_core.specs.Machine.{Machine};
ghost use Rattle.model_core.specs.Slabs.{cache_of, slab_of};
ghost use Rattle.model_core.specs.CacheOperations.{hand_out, take_step};
ghost use Rattle.slab_tables.specs.Content.{IsSlabs, kept_at, cache_at, layout_numbers};
ghost use Rattle.machine_changes.specs.Records.{is_set};
ghost use Rattle.machine_changes.specs.Shows.{live_of, IsSlab, Agree, ShowsMachine};
ghost use Rattle.machine_changes.specs.Keeps.{Spares};
ghost use Rattle.machine_changes.specs.Slots.{HoldTogether};
ghost use Rattle.model_core.specs.Machine as model;
ghost use Rattle.machine_changes.specs.Objects.{IsLiveObject, IsToUse, IsAllFull};
ghost use Rattle.machine_changes.specs.Changes.{Found, found};
ghost use Rattle.space_core.specs.Laws.{SpaceLaws};
ghost use Rattle.space_core.specs.Windows.{home_of, window_of};
ghost use Rattle.slab_core.specs.Objects.{standing, HasClear, IsRaised, IsRecordRaised, IsTurned};
ghost use Rattle.slab_core.specs.Taking.{place_taken, IsTakenObject};

use crate::Slabs;
use crate::objects::{Object, Slab, TenantCache, record_place};
use buddy_core::Buddy;
use model_core::limits::FRAME_BYTES;
use model_core::refusals::TakeRefusal;
use slab_tables::Kind;
use space_core::Space;

/// Reads the eight bytes that begin at index `at` as one little-endian number.
#[inline(always)]
fn eight_at(bytes: &[u8], at: usize) -> u64
    requires { at + 8 ≤ length bytes.now }
    ensures { to_le_bytes w64 result ≡ slice_range bytes.now at (at + 8) }
{
    u64::from_le_bytes([
        bytes[at],
        bytes[at + 1],
        bytes[at + 2],
        bytes[at + 3],
        bytes[at + 4],
        bytes[at + 5],
        bytes[at + 6],
        bytes[at + 7],
    ])
}

/// Returns the index of the first clear bit of a control record, 0 to 255.
#[inline(always)]
fn first_clear(bytes: &[u8]) -> u32
    requires whole { length bytes.now ≡ 32 }
    requires clear { HasClear bytes.now }
    ensures below { result < 8 * length bytes.now }
    ensures ones { (j : ℕ) → j < result → is_set (slice_index bytes.now (j / 8)) (j % 8) ≡ true }
    ensures clear { is_set (slice_index bytes.now (result / 8)) (result % 8) ≡ false }
{
    for i in 0..4 {
        let word = eight_at(bytes, 8 * i);
        if word != u64::MAX {
            return 64 * i as u32 + word.trailing_ones();
        }
    }
    unreachable!()
}

/// Sets the first clear bit of a control record and returns its index, 0 to 255.
#[inline(always)]
fn raise(bytes: &mut [u8]) -> u32
    requires whole { length bytes.old ≡ 32 }
    requires clear { HasClear bytes.old }
    ensures { IsRaised bytes.old bytes.new result }
{
    let bit = first_clear(bytes);
    bytes[bit as usize / 8] ^= 1 << (bit % 8);
    bit
}

/// Sets the first clear bit of the control record at place `place` of tenant `t` and returns the index of the bit. The record
/// lies in `superblock`.
#[inline(always)]
fn raise_in_record(space: &mut Space, superblock: u16, t: u8, place: u32) -> u32
    requires home { home_of space.old t place 32 ≡ Some superblock }
    requires clear { (bytes : List ℕ) → window_of space.old t place 32 ≡ Some bytes → HasClear bytes }
    ensures { IsRecordRaised space.old space.new t place result }
{
    raise(space.window_in(superblock, t, place, 32))
}

/// An object that a take has allocated, with what a caller needs to lend its bytes.
#[derive(Clone, Copy, Debug, PartialEq, Eq)]
pub struct Taken {
    /// The place of the object's first byte.
    pub place: u32,
    /// The object's size in bytes.
    pub size: u32,
    /// The superblock that contains the object's bytes.
    pub superblock: u16,
}

impl Slabs {
    /// Takes an object of cache `c` of tenant `t` and returns its first place.
    ///
    /// The object is the first free one of the first partial slab. If no slab is partial, it is the first object of the first
    /// empty slab. If no slab is empty either, it is the first object of a new slab. If no free block is large enough for the new
    /// slab, but one would be if all empty slabs of the tenant were freed, they are freed first.
    ///
    /// Refuses with `NoCache` if the tenant has no such cache, then with `NoFrames` if a new slab is needed and no block would be
    /// found for it even then. A refused call changes nothing.
    pub fn take(
        &mut self,
        space: &mut Space,
        buddy: &mut Buddy,
        t: u8,
        c: u32,
    ) -> Result<u32, TakeRefusal>
        requires tenant { t < length space.old.slots }
        requires agree { Agree space.old buddy.old self.old }
        ensures answer { (m : Machine) → ShowsMachine space.old buddy.old self.old t m → result ≡ (take_step self.old.top c m).answer }
        ensures shows { (m : Machine) → ShowsMachine space.old buddy.old self.old t m
            → ShowsMachine space.new buddy.new self.new t (take_step self.old.top c m).machine }
        ensures object { IfOk result (λ place. (o : Found) × IsLiveObject space.new self.new t c place o) }
        ensures spares { Spares t space.old space.new buddy.old buddy.new self.old self.new }
        ensures agree { Agree space.new buddy.new self.new }
        ensures refused { OnErr result ((space.new ≡ space.old) × ((buddy.new ≡ buddy.old) × (self.new ≡ self.old))) }
    {
        match self.take_object(space, buddy, t, c) {
            Ok(taken) => Ok(taken.place),
            Err(refusal) => Err(refusal),
        }
    }

    /// Does the same as [`Slabs::take`], and also returns the object's size and superblock. So a caller that lends the bytes need
    /// not look up the cache and the slot again.
    #[inline(always)]
    pub fn take_object(
        &mut self,
        space: &mut Space,
        buddy: &mut Buddy,
        t: u8,
        c: u32,
    ) -> Result<Taken, TakeRefusal>
        requires tenant { t < length space.old.slots }
        requires agree { Agree space.old buddy.old self.old }
        ensures answer { (m : Machine) → ShowsMachine space.old buddy.old self.old t m
            → place_taken result ≡ (take_step self.old.top c m).answer }
        ensures shows { (m : Machine) → ShowsMachine space.old buddy.old self.old t m
            → ShowsMachine space.new buddy.new self.new t (take_step self.old.top c m).machine }
        ensures object { IfOk result (IsTakenObject space.new self.new t c) }
        ensures spares { Spares t space.old space.new buddy.old buddy.new self.old self.new }
        ensures agree { Agree space.new buddy.new self.new }
        ensures refused { OnErr result ((space.new ≡ space.old) × ((buddy.new ≡ buddy.old) × (self.new ≡ self.old))) }
    {
        self.laws_with(space, buddy, t);
        let kept = *self.tables.cache(t, c).ok_or(TakeRefusal::NoCache)?;
        let cache = TenantCache {
            tenant: t,
            number: c,
            kept: &kept,
        };
        if let Some(slab) = self.slab_to_use(space, buddy, cache) {
            return Ok(self.hand_out(space, buddy, cache, slab));
        }
        self.take_new(space, buddy, t, c)
    }

    /// Does the same as [`Slabs::take_object`] for a cache whose slabs are all full. The object is the first of a new slab.
    ///
    /// It is a separate function so that the copy of the cache in `take_object` need not be in memory. The copy here has to be in
    /// memory, because a call borrows it.
    #[cold]
    #[inline(never)]
    fn take_new(
        &mut self,
        space: &mut Space,
        buddy: &mut Buddy,
        t: u8,
        c: u32,
    ) -> Result<Taken, TakeRefusal>
        requires tenant { t < length space.old.slots }
        requires agree { Agree space.old buddy.old self.old }
        requires full { IsAllFull self.old t c }
        ensures answer { (m : Machine) → ShowsMachine space.old buddy.old self.old t m
            → place_taken result ≡ (take_step self.old.top c m).answer }
        ensures shows { (m : Machine) → ShowsMachine space.old buddy.old self.old t m
            → ShowsMachine space.new buddy.new self.new t (take_step self.old.top c m).machine }
        ensures object { IfOk result (IsTakenObject space.new self.new t c) }
        ensures spares { Spares t space.old space.new buddy.old buddy.new self.old self.new }
        ensures agree { Agree space.new buddy.new self.new }
        ensures refused { OnErr result ((space.new ≡ space.old) × ((buddy.new ≡ buddy.old) × (self.new ≡ self.old))) }
    {
        self.laws_with(space, buddy, t);
        let before = *self.tables.cache(t, c).ok_or(TakeRefusal::NoCache)?;
        let cache = TenantCache {
            tenant: t,
            number: c,
            kept: &before,
        };
        let slab = self.grow(space, buddy, cache).ok_or(TakeRefusal::NoFrames)?;
        // Reads the cache again, because it has now made one more slab.
        let after = *self.tables.cache(t, c).unwrap();
        let cache = TenantCache {
            kept: &after,
            ..cache
        };
        Ok(self.hand_out(space, buddy, cache, slab))
    }

    /// Returns the slab that a take uses: the first partial one, or the first empty one if none is partial. Returns `None` if
    /// all slabs are full.
    fn slab_to_use(&self, space: &Space, buddy: &Buddy, cache: TenantCache<'_>) -> Option<Slab>
        requires tenant { cache.tenant < length space.now.slots }
        requires parts { HoldTogether space.now buddy.now self.now }
        requires cache { cache_at self.now cache.tenant cache.number ≡ Some cache.kept.now }
        ensures slab { MatchOption result (IsAllFull self.now cache.entry.tenant cache.entry.number)
            (λ p. IsToUse space.now self.now cache.entry.tenant cache.entry.number cache.entry.kept.now (standing p)) }
        ensures free { IfSome result (λ p. (kept_at self.now.kept p.machine_frame).live
            < (layout_numbers cache.entry.kept.now).count) }
    {
        let (tenant, number) = (cache.tenant, cache.number);
        if let Some((first, machine_frame)) = self.tables.first(tenant, number, Kind::Partial) {
            return Some(Slab {
                first,
                machine_frame,
            });
        }
        let (first, machine_frame) = self.tables.first(tenant, number, Kind::Empty)?;
        Some(Slab {
            first,
            machine_frame,
        })
    }

    /// Marks the first free object of a slab live and returns its index. The caller updates the slab's number of live objects.
    #[inline(always)]
    fn mark_least_free(&mut self, space: &mut Space, cache: TenantCache<'_>, slab: Slab) -> u32
        requires tenant { cache.tenant < length space.old.slots }
        requires laws { SpaceLaws space.old }
        requires tables { IsSlabs self.old }
        requires unit { space.old.unit ≡ FRAME_BYTES * 2 ^ self.old.top }
        requires slab { IsSlab space.old self.old cache.tenant cache.number slab.first slab.machine_frame cache.kept.now }
        requires free { position_or_len not (live_of space.old cache.tenant cache.kept.now
            (kept_at self.old.kept slab.machine_frame) slab.first) < (layout_numbers cache.kept.now).count }
        ensures least { result ≡ position_or_len not (live_of space.old cache.entry.tenant cache.entry.kept.now
            (kept_at self.old.kept slab.machine_frame) slab.first) }
        ensures turned { IsTurned space.old space.new self.old self.new cache.entry.tenant
            (found cache.entry.kept.now slab.first slab.machine_frame result) }
    {
        let machine_frame = slab.machine_frame;
        if cache.kept.layout.in_page() {
            let superblock = self.superblock(machine_frame);
            raise_in_record(space, superblock, cache.tenant, record_place(slab.first, 0))
        } else {
            let outside = self.tables.kept_of(machine_frame).outside;
            let index = u32::from(outside).trailing_ones();
            self.tables.set_outside(machine_frame, outside ^ 1 << index);
            index
        }
    }

    /// Allocates the first free object of a slab, and returns what a caller needs to lend the object's bytes.
    #[inline(always)]
    fn hand_out(
        &mut self,
        space: &mut Space,
        buddy: &Buddy,
        cache: TenantCache<'_>,
        slab: Slab,
    ) -> Taken
        requires tenant { cache.tenant < length space.old.slots }
        requires agree { Agree space.old buddy.now self.old }
        requires slab { IsSlab space.old self.old cache.tenant cache.number slab.first slab.machine_frame cache.kept.now }
        requires free { (kept_at self.old.kept slab.machine_frame).live < (layout_numbers cache.kept.now).count }
        ensures answer { (m : Machine) (x : model.Cache) (y : model.Slab)
            → ShowsMachine space.old buddy.now self.old cache.entry.tenant m
            → cache_of m cache.entry.number ≡ Some x → slab_of x slab.first ≡ Some y → Ok result.place ≡ (hand_out x y m).answer }
        ensures shows { (m : Machine) (x : model.Cache) (y : model.Slab)
            → ShowsMachine space.old buddy.now self.old cache.entry.tenant m
            → cache_of m cache.entry.number ≡ Some x → slab_of x slab.first ≡ Some y
            → ShowsMachine space.new buddy.now self.new cache.entry.tenant (hand_out x y m).machine }
        ensures object { IsTakenObject space.new self.new cache.entry.tenant cache.entry.number result }
        ensures spares { Spares cache.entry.tenant space.old space.new buddy.now buddy.now self.old self.new }
        ensures agree { Agree space.new buddy.now self.new }
    {
        self.laws_with(space, buddy, cache.tenant);
        let superblock = self.superblock(slab.machine_frame);
        let index = self.mark_least_free(space, cache, slab);
        // The colour is read here, next to the count that `recount` reads. If it were read before the object is marked, its
        // address would be computed twice.
        let colour = self.tables.kept_of(slab.machine_frame).colour;
        self.recount(cache, Object { slab, index }, true);
        Taken {
            place: FRAME_BYTES * slab.first + cache.kept.layout.offset(colour, index),
            size: cache.kept.layout.size(),
            superblock,
        }
    }
}
