//! The tables with the operations that callers use.

ghost use Rattle.std.specs.Prelude.{◌≡◌, ◌≢◌, ℕ, ◌<◌, ◌≤◌, ◌==◌, ◌^◌, ◌*◌, ◌+◌, Some, None, length, is_none, slice_index, option_map, IfOk, IfSome, IfNone, IsSome, MatchOption};
ghost use Rattle.klist_core.specs.Places.{ArePlaces, IsEmpty, IsFirst, place_at, inserted};
ghost use Rattle.klist_core.specs.Lists.{keys_of};
ghost use Rattle.model_core.specs.declared.limits.TheConstants.{MAX_CACHES, WIDE_ORDER, WIDE_SUPERBLOCKS, WIDE_TENANTS, WIDE_FRAMES};
ghost use Rattle.slab_tables.specs.Content.{IsSlabs, IsTenant, IsPlacedIn, empty_tables, kept_at, cache_at, index_of_cache, head_of, kind_number, layout_numbers};
ghost use Rattle.slab_tables.specs.Changes.{with_new_slab, with_count, with_outside, without_slab, with_cache, new_cache, IsLeastNumber, IsAllUsed, IsCleared, IsReset, IsMoved, with_slab_moved};

use crate::cache::{Cache, Kept};
use crate::kind::{Counts, Kind};
use crate::list::ListId;
use crate::places::{SlabLists, index_of, machine_frame_at};
use klist_core::Lists;
use layout_core::{Layout, Pattern};
use model_core::limits::MAX_CACHES;
use std::alloc::{AllocError, Global};
use std::marker::Model;

/// The tables of all tenants' caches.
#[derive(Debug, Drop)]
pub struct Tables {
    order: u8,
    lists: SlabLists,
    kept: Vec<Kept>,
    caches: Vec<Option<Cache>>,
    live: Vec<u32>,
    /// For each tenant, a number that is greater than the numbers of all the tenant's caches.
    below: Vec<u8>,
}

impl Model for Tables {
    ghost use Rattle.slab_tables.specs.Content.{Content, AreTables};

    ghost Value = { Content };

    ghost view = { λ s. record { top = s.order; lists = s.lists; kept = s.kept.items; caches = s.caches.items; live = s.live.items } };

    ghost invariant = { λ s. AreTables (record { top = s.order; lists = s.lists; kept = s.kept.items; caches = s.caches.items; live = s.live.items }) s.below.items };
}

impl Tables {
    /// Makes tables without caches or slabs, for `superblocks` superblocks of `2^order` frames and `tenants` tenants.
    /// `superblocks` is at most `WIDE_SUPERBLOCKS`, `order` at most `WIDE_ORDER`, and `tenants` at most `WIDE_TENANTS`. The machine has at
    /// most `WIDE_FRAMES` frames.
    ///
    /// Allocates all memory that will ever be used. Returns `AllocError` if the allocator refuses it.
    pub fn new(
        alloc: Global,
        order: u8,
        superblocks: u16,
        tenants: u8,
    ) -> Result<Tables, AllocError>
        requires order { order ≤ WIDE_ORDER }
        requires superblocks { superblocks ≤ WIDE_SUPERBLOCKS }
        requires tenants { tenants ≤ WIDE_TENANTS }
        requires frames { superblocks * 2 ^ order ≤ WIDE_FRAMES }
        ensures { IfOk result (λ s. s ≡ empty_tables order superblocks tenants) }
    {
        let machine_frames = u32::from(superblocks) << order;
        let caches = u32::from(MAX_CACHES) * u32::from(tenants);
        let blank = Kept {
            colour: 0,
            live: 0,
            outside: 0,
        };
        Ok(Tables {
            order,
            kept: vec![in alloc; blank; machine_frames as usize]?,
            caches: vec![in alloc; None; caches as usize]?,
            live: vec![in alloc; 0; caches as usize]?,
            below: vec![in alloc; 0; usize::from(tenants)]?,
            lists: SlabLists::new(alloc, order, superblocks, tenants)?,
        })
    }

    /// A law: the tables and their lists satisfy their invariants. This function itself does nothing.
    pub fn laws(&self)
        ensures slabs { IsSlabs self.now }
        ensures table { ArePlaces self.now.lists }
    {
        self.lists.lists().laws();
    }

    /// Returns the order of a superblock, which has `2^order` frames.
    pub fn order(&self) -> u8
        ensures { result ≡ self.now.top }
    {
        self.order
    }

    /// Returns the lists of the slabs of all caches. The node of a slab is its first machine frame, and the key is its first frame
    /// in the numbering of its tenant. A [`ListId`] has the number of a list.
    pub fn lists(&self) -> &Lists
        ensures { result.now ≡ self.now.lists }
    {
        self.lists.lists()
    }

    /// Returns cache `c` of tenant `t`, or `None` if there is no such cache. `c` may be any number.
    pub fn cache(&self, t: u8, c: u32) -> Option<&Cache>
        requires { IsTenant self.now t }
        ensures { option_map (λ x. x.now) result ≡ cache_at self.now t c }
    {
        if c >= u32::from(MAX_CACHES) {
            return None;
        }
        self.caches[index_of(t, c)].as_ref()
    }

    /// Returns a number, at most 32, that is greater than the numbers of all caches of tenant `t`. A loop over the tenant's
    /// caches can end there.
    pub fn caches_below(&self, t: u8) -> u32
        requires { IsTenant self.now t }
        ensures few { result ≤ MAX_CACHES }
        ensures none { (c : ℕ) → result ≤ c → cache_at self.now t c ≡ None }
    {
        u32::from(self.below[usize::from(t)])
    }

    /// Returns the stored state of the slab that begins at the machine frame. If no slab begins there, the result means nothing.
    pub fn kept_of(&self, machine_frame: u32) -> Kept
        requires { machine_frame < length self.now.lists.places }
        ensures { result ≡ kept_at self.now.kept machine_frame }
    {
        self.kept[machine_frame as usize]
    }

    /// Returns the list number and the first frame of the slab that begins at the machine frame, or `None` if no slab begins
    /// there.
    pub fn place_of(&self, machine_frame: u32) -> Option<(u32, u32)>
        requires { machine_frame < length self.now.lists.places }
        ensures { result ≡ place_at self.now.lists.places machine_frame }
    {
        self.lists.lists().place_of(machine_frame)
    }

    /// Returns the first frame of the first slab of this kind in cache `c` of tenant `t`, and the machine frame of that frame.
    /// Returns `None` if the cache has no slab of this kind. For full slabs the function searches all machine frames.
    pub fn first(&self, t: u8, c: u32, kind: Kind) -> Option<(u32, u32)>
        requires tenant { IsTenant self.now t }
        requires cache { c < MAX_CACHES }
        ensures { MatchOption result
            (IsEmpty self.now.lists.places (head_of t c (kind_number kind)))
            (λ p. IsFirst self.now.lists.places (head_of t c (kind_number kind)) p.0 p.1) }
    {
        let list = ListId::of(t, c, kind).number;
        match kind {
            Kind::Full => self.lists.lists().first(list),
            Kind::Partial | Kind::Empty => self.lists.lists().first_by_key(list),
        }
    }

    /// Returns the number of slabs of this kind in cache `c` of tenant `t`.
    pub fn count(&self, t: u8, c: u32, kind: Kind) -> u32
        requires tenant { IsTenant self.now t }
        requires cache { c < MAX_CACHES }
        ensures { result ≡ length (keys_of self.now.lists.places (head_of t c (kind_number kind))) }
    {
        self.lists.lists().len(ListId::of(t, c, kind).number)
    }

    /// Returns the number of live objects of cache `c` of tenant `t`.
    pub fn live(&self, t: u8, c: u32) -> u32
        requires tenant { IsTenant self.now t }
        requires cache { c < MAX_CACHES }
        ensures { result ≡ slice_index self.now.live (index_of_cache t c) }
    {
        self.live[index_of(t, c)]
    }

    /// Makes a cache without slabs for tenant `t` and returns its number: the least number that no other cache of the tenant has.
    /// Returns `None` and changes nothing if all numbers are used.
    pub fn create(&mut self, t: u8, layout: Layout, pattern: Pattern) -> Option<u8>
        requires { IsTenant self.old t }
        ensures answer { MatchOption result (IsAllUsed self.old t) (IsLeastNumber self.old t) }
        ensures created { IfSome result (λ c. self.new ≡ with_cache self.old t c (Some (new_cache layout pattern))) }
        ensures full { IfNone result (self.new ≡ self.old) }
    {
        // These two calls give the laws of the layout and the pattern, which the invariant needs.
        layout.laws();
        let _bytes = pattern.as_slice();
        let c = self.free_number(t)?;
        self.caches[index_of(t, c.into())] = Some(Cache {
            layout,
            pattern,
            made: 0,
        });
        let below = self.below[usize::from(t)];
        if below <= c {
            self.below[usize::from(t)] = c + 1;
        }
        Some(c)
    }

    /// Returns the least number that no cache of tenant `t` has, or `None` if all numbers are used.
    fn free_number(&self, t: u8) -> Option<u8>
        requires { IsTenant self.now t }
        ensures { MatchOption result (IsAllUsed self.now t) (IsLeastNumber self.now t) }
    {
        for c in 0..MAX_CACHES {
            if self.cache(t, c.into()).is_none() {
                return Some(c);
            }
        }
        None
    }

    /// Removes cache `c` of tenant `t`, which has no slab.
    pub fn remove_cache(&mut self, t: u8, c: u32)
        requires tenant { IsTenant self.old t }
        requires cache { IsSome (cache_at self.old t c) }
        requires without_slabs { (first machine_frame : ℕ) → ¬ IsPlacedIn self.old t c first machine_frame }
        ensures { self.new ≡ with_cache self.old t c None }
    {
        self.caches[index_of(t, c)] = None;
    }

    /// Lowers [`Tables::caches_below`] of tenant `t` to one more than the tenant's highest cache number, or to 0 if it has no
    /// cache.
    pub fn lower(&mut self, t: u8)
        requires { IsTenant self.old t }
        ensures { self.new ≡ self.old }
    {
        let mut below = self.below[usize::from(t)];
        while below > 0 && self.cache(t, u32::from(below) - 1).is_none() {
            below -= 1;
        }
        self.below[usize::from(t)] = below;
    }

    /// Adds a new, empty slab to cache `c` of tenant `t`. The slab begins at frame `first`, whose machine frame is
    /// `machine_frame`. The call changes the cache's count of made slabs, so `cache`, which was read before, is then out of date.
    pub fn add_slab(&mut self, t: u8, c: u32, cache: &Cache, first: u32, machine_frame: u32)
        requires tenant { IsTenant self.old t }
        requires cache { cache_at self.old t c ≡ Some cache.now }
        requires machine_frame { machine_frame < length self.old.lists.places }
        requires free { place_at self.old.lists.places machine_frame ≡ None }
        requires fresh { (n : ℕ) → place_at self.old.lists.places n ≢ Some (head_of t c 2, first) }
        ensures { self.new ≡ with_new_slab self.old t c cache.now first machine_frame }
    {
        let colours = cache.layout.colours();
        self.lists
            .insert(ListId::of(t, c, Kind::Empty).number, machine_frame, first);
        self.kept[machine_frame as usize] = cache.next_slab();
        let made = (cache.made + 1) % colours;
        self.caches[index_of(t, c)] = Some(Cache { made, ..*cache });
    }

    /// Sets the number of live objects to `count` in the slab of cache `c` of tenant `t` that begins at frame `first`. The
    /// machine frame of `first` is `machine_frame`. If the slab's kind changes, the slab moves to the list of the new kind, in a
    /// number of steps that does not grow with the list.
    #[inline(always)]
    pub fn set_count(
        &mut self,
        t: u8,
        c: u32,
        cache: &Cache,
        first: u32,
        machine_frame: u32,
        count: u32,
    )
        requires tenant { IsTenant self.old t }
        requires cache { cache_at self.old t c ≡ Some cache.now }
        requires slab { IsPlacedIn self.old t c first machine_frame }
        requires alone { (n : ℕ) → IsPlacedIn self.old t c first n → n ≡ machine_frame }
        requires few { count ≤ (layout_numbers cache.now).count }
        ensures { self.new ≡ with_count self.old t c cache.now first machine_frame count }
    {
        cache.layout.laws();
        let total = cache.layout.count();
        let before = u32::from(self.kept[machine_frame as usize].live);
        let counts = Counts {
            total,
            before,
            after: count,
        };
        let slab = cache.layout.order();
        self.lists.relist(t, c, counts, machine_frame, first, slab);
        let kept = &mut self.kept[machine_frame as usize];
        kept.live = count as u16;
        let i = index_of(t, c);
        self.live[i] = self.live[i] + count - before;
    }

    /// Sets the bits that show which objects of the slab at the machine frame are live. These bits are used only if the objects
    /// are large.
    pub fn set_outside(&mut self, machine_frame: u32, outside: u16)
        requires { machine_frame < length self.old.lists.places }
        ensures { self.new ≡ with_outside self.old machine_frame outside }
    {
        self.kept[machine_frame as usize].outside = outside;
    }

    /// Removes the empty slab at the machine frame from its list.
    pub fn remove_slab(&mut self, machine_frame: u32)
        requires placed { IsSome (place_at self.old.lists.places machine_frame) }
        requires empty { (kept_at self.old.kept machine_frame).live ≡ 0 }
        ensures { self.new ≡ without_slab self.old machine_frame }
    {
        self.lists.remove(machine_frame);
    }

    /// Removes all caches and slabs of tenant `t`.
    pub fn reset(&mut self, t: u8)
        requires { IsTenant self.old t }
        ensures { IsReset self.old self.new t }
    {
        for number in 0..self.caches_below(t) {
            self.clear(t, number);
        }
        self.below[usize::from(t)] = 0;
    }

    /// Removes cache `c` of tenant `t`, if it exists, with its slabs.
    fn clear(&mut self, t: u8, c: u32)
        requires tenant { IsTenant self.old t }
        requires cache { c < MAX_CACHES }
        ensures { IsCleared self.old self.new (λ n. n == index_of_cache t c) }
    {
        self.lists.clear(ListId::of(t, c, Kind::Full).number);
        self.lists.clear(ListId::of(t, c, Kind::Partial).number);
        self.lists.clear(ListId::of(t, c, Kind::Empty).number);
        let i = index_of(t, c);
        self.live[i] = 0;
        self.caches[i] = None;
    }

    /// Moves all slabs of superblock `from`, with their stored states, to the same frames of superblock `to`, which has no slabs.
    /// The first frame of each slab in its tenant's numbering stays the same.
    pub fn move_slot(&mut self, from: u16, to: u16)
        requires from { (from + 1) * 2 ^ self.old.top ≤ length self.old.lists.places }
        requires to { (to + 1) * 2 ^ self.old.top ≤ length self.old.lists.places }
        requires apart { from ≢ to }
        requires free { (i : ℕ) → i < 2 ^ self.old.top → place_at self.old.lists.places (to * 2 ^ self.old.top + i) ≡ None }
        ensures { IsMoved self.old self.new from to }
    {
        let order = self.order;
        for i in 0..1u32 << order {
            self.move_slab(
                machine_frame_at(order, from, i),
                machine_frame_at(order, to, i),
            );
        }
    }

    /// Moves the slab that begins at machine frame `from`, if there is one, to machine frame `to`, where no slab begins.
    fn move_slab(&mut self, from: u32, to: u32)
        requires from { from < length self.old.lists.places }
        requires to { to < length self.old.lists.places }
        requires apart { from ≢ to }
        requires free { place_at self.old.lists.places to ≡ None }
        ensures { self.new ≡ with_slab_moved self.old from to }
    {
        self.lists.replace(from, to);
        self.kept[to as usize] = self.kept[from as usize];
    }
}
