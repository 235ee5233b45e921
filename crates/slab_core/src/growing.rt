//! Makes a slab out of a block: clears the control record and constructs each object.

ghost use Rattle.std.specs.Prelude.{◌≡◌, ◌↔◌, ℕ, ◌+◌, ◌*◌, ◌^◌, ◌<◌, length, option_map, Some, IsSome, IfSome, IfNone};
ghost use Rattle.model_core.specs.declared.limits.TheConstants.{WIDE_FRAMES};
ghost use Rattle.model_core.specs.Layouts.{IsLayout};
ghost use Rattle.model_core.specs.Machine.{Machine, choice};
ghost use Rattle.model_core.specs.Slabs.{cache_of, grown, by_need, choice_by_need};
ghost use Rattle.model_core.specs.Machine as model;
ghost use Rattle.slab_tables.specs.Content.{cache_at, layout_numbers};
ghost use Rattle.machine_changes.specs.Shows.{ShowsMachine, Agree};
ghost use Rattle.machine_changes.specs.Keeps.{Spares};
ghost use Rattle.machine_changes.specs.Changes.{IsGrown};
ghost use Rattle.machine_changes.specs.Objects.{IsAllFull};
ghost use Rattle.layout_core.specs.Objects.{IsColour};
ghost use Rattle.space_core.specs.Content as spaces;
ghost use Rattle.space_core.specs.Laws.{SpaceLaws};
ghost use Rattle.space_core.specs.Windows.{home_of};
ghost use Rattle.slab_core.specs.Calls.{IsFilled, IsConstructed, IsNew};
ghost use Rattle.slab_core.specs.Fitting.{HasFreeBlock};

use crate::Slabs;
use crate::objects::{Slab, TenantCache};
use buddy_core::Buddy;
use model_core::limits::{FRAME_BYTES, RECORD_BYTES, RECORD_OFFSET};
use space_core::Space;

impl Slabs {
    /// Makes the next slab of a cache whose slabs are all full.
    ///
    /// If no free block is large enough, but one would be if all empty slabs of the tenant were freed, frees them first. Returns
    /// `None` and changes nothing if no block would be found even then.
    #[inline(always)]
    pub(crate) fn grow(
        &mut self,
        space: &mut Space,
        buddy: &mut Buddy,
        cache: TenantCache<'_>,
    ) -> Option<Slab>
        requires tenant { cache.tenant < length space.old.slots }
        requires agree { Agree space.old buddy.old self.old }
        requires cache { cache_at self.old cache.tenant cache.number ≡ Some cache.kept.now }
        requires full { IsAllFull self.old cache.tenant cache.number }
        ensures chosen { (m : Machine) → ShowsMachine space.old buddy.old self.old cache.entry.tenant m
            → choice_by_need self.old.top (layout_numbers cache.entry.kept.now).order m ≡ option_map (λ o. o.first) result }
        ensures shows { IfSome result (λ o. (m : Machine) (x : model.Cache)
            → ShowsMachine space.old buddy.old self.old cache.entry.tenant m → cache_of m cache.entry.number ≡ Some x
            → ShowsMachine space.new buddy.new self.new cache.entry.tenant
            (grown o.first x (by_need self.old.top (layout_numbers cache.entry.kept.now).order m))) }
        ensures slab { IfSome result (λ o. IsNew space.new self.new cache.entry.tenant cache.entry.number cache.entry.kept.now o.first o.machine_frame) }
        ensures spares { Spares cache.entry.tenant space.old space.new buddy.old buddy.new self.old self.new }
        ensures agree { Agree space.new buddy.new self.new }
        ensures refused { IfNone result ((space.new ≡ space.old) × ((buddy.new ≡ buddy.old) × (self.new ≡ self.old))) }
    {
        self.laws_with(space, buddy, cache.tenant);
        if let Some(slab) = self.make_slab(space, buddy, cache) {
            return Some(slab);
        }
        let order = cache.kept.layout.order();
        if order > buddy.order() || !self.fits_by_need(space, buddy, cache.tenant, order) {
            return None;
        }
        self.give_back_all(space, buddy, cache.tenant);
        self.make_slab(space, buddy, cache)
    }

    /// Makes the next slab of the cache out of a free block. Returns `None` and changes nothing if no free block is large enough.
    /// Frees no slab.
    #[inline(always)]
    fn make_slab(
        &mut self,
        space: &mut Space,
        buddy: &mut Buddy,
        cache: TenantCache<'_>,
    ) -> Option<Slab>
        requires tenant { cache.tenant < length space.old.slots }
        requires agree { Agree space.old buddy.old self.old }
        requires cache { cache_at self.old cache.tenant cache.number ≡ Some cache.kept.now }
        ensures grown { IfSome result (λ o. IsGrown space.old space.new buddy.old buddy.new self.old self.new cache.entry.tenant cache.entry.number cache.entry.kept.now o.first o.machine_frame) }
        ensures chosen { (m : Machine) → ShowsMachine space.old buddy.old self.old cache.entry.tenant m
            → choice self.old.top m (layout_numbers cache.entry.kept.now).order ≡ option_map (λ o. o.first) result }
        ensures shows { IfSome result (λ o. (m : Machine) (x : model.Cache)
            → ShowsMachine space.old buddy.old self.old cache.entry.tenant m → cache_of m cache.entry.number ≡ Some x
            → ShowsMachine space.new buddy.new self.new cache.entry.tenant (grown o.first x m)) }
        ensures free { IsSome result ↔ HasFreeBlock buddy.old cache.entry.tenant (layout_numbers cache.entry.kept.now).order }
        ensures spares { Spares cache.entry.tenant space.old space.new buddy.old buddy.new self.old self.new }
        ensures agree { Agree space.new buddy.new self.new }
        ensures refused { IfNone result ((space.new ≡ space.old) × ((buddy.new ≡ buddy.old) × (self.new ≡ self.old))) }
    {
        self.laws_with(space, buddy, cache.tenant);
        let order = cache.kept.layout.order();
        if order > buddy.order() {
            return None;
        }
        let first = buddy.reserve(cache.tenant, order)?;
        let Some(machine_frame) = self.machine_frame(space, cache.tenant, first) else {
            unreachable!()
        };
        self.tables.add_slab(cache.tenant, cache.number, cache.kept, first, machine_frame);
        let colour = self.tables.kept_of(machine_frame).colour;
        construct(space, cache, first, colour);
        Some(Slab {
            first,
            machine_frame,
        })
    }
}

/// Fills the object at `place` with the cache's pattern, repeated.
fn fill(space: &mut Space, cache: TenantCache<'_>, place: u32)
    requires tenant { cache.tenant < length space.old.slots }
    requires in_reach { IsSome (home_of space.old cache.tenant place cache.kept.now.layout.size) }
    ensures { IsFilled space.old space.new cache.entry.tenant place cache.entry.kept.now.layout.size cache.entry.kept.now.pattern }
{
    let bytes = space.window_mut(cache.tenant, place, cache.kept.layout.size());
    cache.kept.pattern.fill(bytes);
}

/// Makes the block at frame `first` an empty slab, with every object constructed.
///
/// Writes each byte of each object once, and clears the control record if it is in frame `first`.
pub(crate) fn construct(space: &mut Space, cache: TenantCache<'_>, first: u32, colour: u32)
    requires tenant { cache.tenant < length space.old.slots }
    requires laws { SpaceLaws space.old }
    requires layout { IsLayout cache.kept.now.layout.size cache.kept.now.layout.align (layout_numbers cache.kept.now) }
    requires in_reach { IsSome (home_of space.old cache.tenant (FRAME_BYTES * first)
        (FRAME_BYTES * 2 ^ (layout_numbers cache.kept.now).order)) }
    requires first { first < WIDE_FRAMES }
    requires colour { IsColour cache.kept.now.layout colour }
    ensures { IsConstructed space.old space.new cache.entry.tenant cache.entry.kept.now first colour
        (layout_numbers cache.entry.kept.now).count }
{
    clear_record(space, cache, first);
    for i in 0..cache.kept.layout.count() {
        construct_one(space, cache, first, colour, i);
    }
}

/// Clears the control record of the block at frame `first`, if the record is in that frame.
fn clear_record(space: &mut Space, cache: TenantCache<'_>, first: u32)
    requires tenant { cache.tenant < length space.old.slots }
    requires laws { SpaceLaws space.old }
    requires in_reach { IsSome (home_of space.old cache.tenant (FRAME_BYTES * first)
        (FRAME_BYTES * 2 ^ (layout_numbers cache.kept.now).order)) }
    requires first { first < WIDE_FRAMES }
    ensures { (colour : ℕ) → IsConstructed space.old space.new cache.entry.tenant cache.entry.kept.now first colour 0 }
{
    if cache.kept.layout.in_page() {
        space.zero(
            cache.tenant,
            FRAME_BYTES * first + RECORD_OFFSET,
            RECORD_BYTES,
        );
    }
}

/// Constructs object `i` of the block at frame `first`. The caller constructs the objects in order.
fn construct_one(space: &mut Space, cache: TenantCache<'_>, first: u32, colour: u32, i: u32)
    requires tenant { cache.tenant < length space.old.slots }
    requires layout { IsLayout cache.kept.now.layout.size cache.kept.now.layout.align (layout_numbers cache.kept.now) }
    requires in_reach { IsSome (home_of space.old cache.tenant (FRAME_BYTES * first)
        (FRAME_BYTES * 2 ^ (layout_numbers cache.kept.now).order)) }
    requires first { first < WIDE_FRAMES }
    requires colour { IsColour cache.kept.now.layout colour }
    requires object { i < (layout_numbers cache.kept.now).count }
    ensures { (before : spaces.Content) → IsConstructed before space.old cache.entry.tenant cache.entry.kept.now first colour i
        → IsConstructed before space.new cache.entry.tenant cache.entry.kept.now first colour (i + 1) }
{
    space.laws();
    let place = FRAME_BYTES * first + cache.kept.layout.offset(colour, i);
    fill(space, cache, place);
}
