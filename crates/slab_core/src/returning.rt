//! Frees empty slabs: zeroes their frames and returns them to the buddy system.

ghost use Rattle.std.specs.Prelude.{◌≡◌, ℕ, ◌*◌, ◌<◌, ◌≤◌, ◌^◌, ◌==◌, ◌↔◌, length, flat_map, Some, true, false, OnErr};
ghost use Rattle.model_core.specs.declared.limits.TheConstants.{MAX_CACHES, WIDE_FRAMES};
ghost use Rattle.model_core.specs.Machine.{Machine};
ghost use Rattle.model_core.specs.Slabs.{cache_of, empty_blocks};
ghost use Rattle.model_core.specs.CacheOperations.{frames_of, reap_step, destroy_step};
ghost use Rattle.slab_tables.specs.Changes.{without_slab};
ghost use Rattle.klist_core.specs.Places.{IsEmpty};
ghost use Rattle.slab_tables.specs.Content.{IsTenant, IsSlabs, kept_at, cache_at, index_of_cache, head_of};
ghost use Rattle.slab_core.specs.Calls.{idle_at, empty_frames_in, IsUnused};
ghost use Rattle.space_core.specs.Content as spaces;
ghost use Rattle.buddy_core.specs.Content as buddies;
ghost use Rattle.machine_changes.specs.Steady.{IsSteady};
ghost use Rattle.machine_changes.specs.Shows.{IsSlab, ShowsMachine, Agree};
ghost use Rattle.machine_changes.specs.Keeps.{Spares};
ghost use Rattle.machine_changes.specs.Changes.{IsReturned};

use crate::Slabs;
use crate::objects::{Slab, TenantCache};
use buddy_core::Buddy;
use model_core::limits::FRAME_BYTES;
use model_core::refusals::DestroyRefusal;
use slab_tables::Kind;
use space_core::Space;

impl Slabs {
    /// Frees an empty slab.
    fn give_back(
        &mut self,
        space: &mut Space,
        buddy: &mut Buddy,
        cache: TenantCache<'_>,
        slab: Slab,
    )
        requires tenant { cache.tenant < length space.old.slots }
        requires agree { Agree space.old buddy.old self.old }
        requires slab { IsSlab space.old self.old cache.tenant cache.number slab.first slab.machine_frame cache.kept.now }
        requires empty { (kept_at self.old.kept slab.machine_frame).live ≡ 0 }
        ensures tables { self.new ≡ without_slab self.old slab.machine_frame }
        ensures returned { IsReturned space.old space.new buddy.old buddy.new self.old self.new cache.entry.tenant (λ f. f == slab.first) }
        ensures spares { Spares cache.entry.tenant space.old space.new buddy.old buddy.new self.old self.new }
        ensures agree { Agree space.new buddy.new self.new }
    {
        self.laws_with(space, buddy, cache.tenant);
        let _ = buddy.release(cache.tenant, slab.first);
        let bytes = FRAME_BYTES << cache.kept.layout.order();
        space.zero(cache.tenant, FRAME_BYTES * slab.first, bytes);
        self.tables.remove_slab(slab.machine_frame);
    }

    /// Frees all empty slabs of the cache.
    fn give_back_empty(&mut self, space: &mut Space, buddy: &mut Buddy, cache: TenantCache<'_>)
        requires tenant { cache.tenant < length space.old.slots }
        requires agree { Agree space.old buddy.old self.old }
        requires cache { cache_at self.old cache.tenant cache.number ≡ Some cache.kept.now }
        ensures returned { IsReturned space.old space.new buddy.old buddy.new self.old self.new cache.entry.tenant
            (idle_at (λ i. i == index_of_cache cache.entry.tenant cache.entry.number) space.old self.old cache.entry.tenant) }
        ensures empty { IsEmpty self.new.lists.places (head_of cache.entry.tenant cache.entry.number 2) }
        ensures lists { (head : ℕ) → IsEmpty self.old.lists.places head → IsEmpty self.new.lists.places head }
        ensures tables { IsSlabs self.new }
        ensures spares { Spares cache.entry.tenant space.old space.new buddy.old buddy.new self.old self.new }
        ensures agree { Agree space.new buddy.new self.new }
    {
        self.laws_with(space, buddy, cache.tenant);
        while let Some((first, machine_frame)) = self
            .tables
            .first(cache.tenant, cache.number, Kind::Empty)
        {
            let slab = Slab {
                first,
                machine_frame,
            };
            self.give_back(space, buddy, cache, slab);
        }
    }

    /// Frees all empty slabs of tenant `t`.
    pub(crate) fn give_back_all(&mut self, space: &mut Space, buddy: &mut Buddy, t: u8)
        requires tenant { t < length space.old.slots }
        requires agree { Agree space.old buddy.old self.old }
        ensures returned { IsReturned space.old space.new buddy.old buddy.new self.old self.new t (idle_at (λ i. true) space.old self.old t) }
        ensures spares { Spares t space.old space.new buddy.old buddy.new self.old self.new }
        ensures agree { Agree space.new buddy.new self.new }
    {
        self.laws_with(space, buddy, t);
        for c in 0..self.tables.caches_below(t) {
            if let Some(kept) = self.tables.cache(t, c).copied() {
                let cache = TenantCache {
                    tenant: t,
                    number: c,
                    kept: &kept,
                };
                self.give_back_empty(space, buddy, cache);
            }
        }
    }

    /// Frees all empty slabs of tenant `t` and returns the number of frames freed.
    pub fn reap(&mut self, space: &mut Space, buddy: &mut Buddy, t: u8) -> u32
        requires tenant { t < length space.old.slots }
        requires agree { Agree space.old buddy.old self.old }
        ensures answer { (m : Machine) → ShowsMachine space.old buddy.old self.old t m → result ≡ (reap_step m).answer }
        ensures shows { (m : Machine) → ShowsMachine space.old buddy.old self.old t m
            → ShowsMachine space.new buddy.new self.new t (reap_step m).machine }
        ensures spares { Spares t space.old space.new buddy.old buddy.new self.old self.new }
        ensures agree { Agree space.new buddy.new self.new }
    {
        self.laws_with(space, buddy, t);
        let frames = self.empty_frames(t);
        self.give_back_all(space, buddy, t);
        self.tables.lower(t);
        frames
    }

    /// Destroys cache `c` of tenant `t`, frees its slabs and returns the number of frames freed.
    ///
    /// Refuses with `NoCache` if there is no such cache, then with `CacheInUse` if one of its objects is live. A refused call
    /// changes nothing.
    pub fn destroy(
        &mut self,
        space: &mut Space,
        buddy: &mut Buddy,
        t: u8,
        c: u32,
    ) -> Result<u32, DestroyRefusal>
        requires tenant { t < length space.old.slots }
        requires agree { Agree space.old buddy.old self.old }
        ensures answer { (m : Machine) → ShowsMachine space.old buddy.old self.old t m → result ≡ (destroy_step c m).answer }
        ensures shows { (m : Machine) → ShowsMachine space.old buddy.old self.old t m
            → ShowsMachine space.new buddy.new self.new t (destroy_step c m).machine }
        ensures spares { Spares t space.old space.new buddy.old buddy.new self.old self.new }
        ensures agree { Agree space.new buddy.new self.new }
        ensures refused { OnErr result ((space.new ≡ space.old) × ((buddy.new ≡ buddy.old) × (self.new ≡ self.old))) }
    {
        self.laws_with(space, buddy, t);
        let Some(kept) = self.tables.cache(t, c).copied() else {
            return Err(DestroyRefusal::NoCache);
        };
        let cache = TenantCache {
            tenant: t,
            number: c,
            kept: &kept,
        };
        if self.in_use(t, c) {
            return Err(DestroyRefusal::CacheInUse);
        }
        let frames = self.empty_frames_of(t, c);
        self.give_back_empty(space, buddy, cache);
        self.tables.remove_cache(t, c);
        Ok(frames)
    }

    /// Returns true if some slab of cache `c` of tenant `t` has a live object.
    fn in_use(&self, t: u8, c: u32) -> bool
        requires tenant { IsTenant self.now t }
        requires cache { c < MAX_CACHES }
        ensures { (result ≡ false) ↔ IsUnused self.now t c }
    {
        0 < self.tables.count(t, c, Kind::Full) || 0 < self.tables.count(t, c, Kind::Partial)
    }

    /// Returns the number of frames in empty slabs of tenant `t`.
    fn empty_frames(&self, t: u8) -> u32
        requires { IsTenant self.now t }
        ensures { (r : spaces.Content) (b : buddies.Content) (m : Machine) → Agree r b self.now → IsSteady r b self.now t
            → ShowsMachine r b self.now t m → result ≡ frames_of (flat_map empty_blocks m.caches) }
    {
        let mut frames = 0;
        for c in 0..self.tables.caches_below(t) {
            frames += self.empty_frames_of(t, c);
        }
        frames
    }

    /// Returns the number of frames in empty slabs of cache `c` of tenant `t`, or 0 if there is no such cache.
    pub(crate) fn empty_frames_of(&self, t: u8, c: u32) -> u32
        requires tenant { IsTenant self.now t }
        requires cache { c < MAX_CACHES }
        ensures few { result ≤ 8 * WIDE_FRAMES }
        ensures frames { (r : spaces.Content) (b : buddies.Content) (m : Machine) → Agree r b self.now → IsSteady r b self.now t
            → ShowsMachine r b self.now t m → result ≡ empty_frames_in (cache_of m c) }
    {
        self.tables.laws();
        let Some(cache) = self.tables.cache(t, c) else {
            return 0;
        };
        self.tables.count(t, c, Kind::Empty) << cache.layout.order()
    }
}
