//! Decides whether a block would fit if all empty slabs were freed.

ghost use Rattle.std.specs.Prelude.{◌≡◌, ◌↔◌, ℕ, ◌-◌, ◌*◌, ◌^◌, ◌<◌, ◌≤◌, true, false, is_some, length, MatchOption};
ghost use Rattle.model_core.specs.declared.limits.TheConstants.{MAX_CACHES, WIDE_FRAMES, WIDE_ORDER};
ghost use Rattle.model_core.specs.Machine.{Machine, choice};
ghost use Rattle.model_core.specs.Slabs.{reaped};
ghost use Rattle.machine_changes.specs.Fitting.{WouldFit};
ghost use Rattle.machine_changes.specs.Shows.{ShowsMachine, Agree};
ghost use Rattle.machine_changes.specs.Slots.{HoldTogether};
ghost use Rattle.machine_changes.specs.Steady.{IsSteady};
ghost use Rattle.klist_core.specs.Places.{IsEmpty};
ghost use Rattle.slab_tables.specs.Content.{IsTenant, head_of};
ghost use Rattle.buddy_core.specs.Content.{BuddyLaws, holding_of, taken_of};
ghost use Rattle.slab_core.specs.Calls.{idle_at};
ghost use Rattle.slab_core.specs.Fitting.{HasFreeBlock, IsUnusedFrame, IsBorder, IsUnusedTo, IsWhole, IsUnusedBlock, WouldFitAround, WouldFitInSlabs, AreRefused, has_number};

use crate::Slabs;
use crate::block_set::{MAX_WORDS, add_block, has_block};
use crate::objects::machine_frame_in;
use buddy_core::Buddy;
use slab_tables::{Kind, Tables};
use space_core::Space;

/// Returns true if tenant `t` has a free block of order `k` or more.
fn has_free(buddy: &Buddy, t: u8, k: u8) -> bool
    requires tenant { t < length buddy.now.tenants }
    requires laws { BuddyLaws buddy.now }
    ensures { (result ≡ true) ↔ HasFreeBlock buddy.now t k }
{
    for order in k..=buddy.order() {
        if buddy.free_count(t, order) > 0 {
            return true;
        }
    }
    false
}

impl Slabs {
    /// Returns true if a block of order `k` would be found for tenant `t` if all empty slabs of the tenant were freed.
    ///
    /// Reads only counts and the heads of lists if a large enough block is free, or if no slab is empty. Otherwise checks only
    /// the frames of those blocks of order `k` in which empty slabs begin. The set of blocks that it refuses takes 128 KiB of the
    /// stack, since it has a bit for each frame that a tenant can have.
    pub fn would_fit(&self, space: &Space, buddy: &Buddy, t: u8, k: u8) -> bool
        requires tenant { t < length space.now.slots }
        requires order { k ≤ self.now.top }
        requires agree { Agree space.now buddy.now self.now }
        ensures fits { (result ≡ true) ↔ WouldFit space.now buddy.now self.now t k }
        ensures answer { (m : Machine) → ShowsMachine space.now buddy.now self.now t m
            → result ≡ is_some (choice self.now.top (reaped m) k) }
    {
        self.laws_with(space, buddy, t);
        let view = View {
            tables: &self.tables,
            space,
            buddy,
            tenant: t,
        };
        has_free(buddy, t, k) || view.would_fit_in_slabs(&mut [0; MAX_WORDS], k)
    }

    /// Returns the same as [`Slabs::would_fit`], for a caller that has found no free block large enough. The set of blocks that
    /// the search refuses is the tenant's own set in `self`, not on the stack.
    #[cold]
    #[inline(never)]
    pub(crate) fn fits_by_need(&mut self, space: &Space, buddy: &Buddy, t: u8, k: u8) -> bool
        requires tenant { t < length space.now.slots }
        requires order { k ≤ self.old.top }
        requires agree { Agree space.now buddy.now self.old }
        requires none { HasFreeBlock buddy.now t k → ⊥ }
        ensures fits { (result ≡ true) ↔ WouldFit space.now buddy.now self.old t k }
        ensures answer { (m : Machine) → ShowsMachine space.now buddy.now self.old t m
            → result ≡ is_some (choice self.old.top (reaped m) k) }
        ensures same { self.new ≡ self.old }
    {
        self.laws_with(space, buddy, t);
        let view = View {
            tables: &self.tables,
            space,
            buddy,
            tenant: t,
        };
        view.would_fit_in_slabs(self.refused[usize::from(t)].as_mut_slice(), k)
    }
}

/// The tables, memory and buddy systems that a search reads, and the tenant for which it searches.
#[derive(Clone, Copy)]
struct View<'a> {
    tables: &'a Tables,
    space: &'a Space,
    buddy: &'a Buddy,
    tenant: u8,
}

impl View<'_> {
    /// Returns true if a block of order `k` would fit around an empty slab: if some empty slab begins in an aligned block
    /// of order `k` whose frames are not taken, except by empty slabs.
    fn would_fit_in_slabs(self, refused: &mut [u64], k: u8) -> bool
        requires tenant { self.tenant < length self.space.now.slots }
        requires order { k ≤ self.tables.now.top }
        requires words { length self.tables.now.lists.places ≤ 64 * length refused.old }
        requires parts { HoldTogether self.space.now self.buddy.now self.tables.now }
        requires steady { IsSteady self.space.now self.buddy.now self.tables.now self.tenant }
        ensures fits { (result ≡ true) ↔ WouldFitInSlabs self.entry.space.now self.entry.buddy.now self.entry.tables.now self.entry.tenant k }
        ensures words { length refused.new ≡ length refused.old }
    {
        self.has_empty_slab() && self.would_fit_around(refused, k)
    }

    /// Returns true if some slab of the tenant is empty.
    fn has_empty_slab(self) -> bool
        requires { IsTenant self.tables.now self.tenant }
        ensures { (result ≡ false) ↔ ((c : ℕ) → c < MAX_CACHES
            → IsEmpty self.entry.tables.now.lists.places (head_of self.entry.tenant c 2)) }
    {
        self.tables.laws();
        for c in 0..self.tables.caches_below(self.tenant) {
            if self.tables.first(self.tenant, c, Kind::Empty).is_some() {
                return true;
            }
        }
        false
    }

    /// Returns true if a block of order `k` would fit around an empty slab. Walks each block of that order in which an empty slab
    /// begins.
    #[inline(never)]
    fn would_fit_around(self, refused: &mut [u64], k: u8) -> bool
        requires tenant { self.tenant < length self.space.now.slots }
        requires order { k ≤ self.tables.now.top }
        requires words { length self.tables.now.lists.places ≤ 64 * length refused.old }
        requires parts { HoldTogether self.space.now self.buddy.now self.tables.now }
        requires steady { IsSteady self.space.now self.buddy.now self.tables.now self.tenant }
        ensures fits { (result ≡ true) ↔ WouldFitInSlabs self.entry.space.now self.entry.buddy.now self.entry.tables.now self.entry.tenant k }
        ensures words { length refused.new ≡ length refused.old }
    {
        // One bit for each block of order `k`: a block that was walked and refused is not walked again for another cache.
        let words = refused.len().div_ceil(1 << k);
        let refused = &mut refused[..words];
        refused.fill(0);
        for c in 0..self.tables.caches_below(self.tenant) {
            if self.would_fit_in_cache(refused, c, k) {
                return true;
            }
        }
        false
    }

    /// Returns true if a block of order `k` would fit around an empty slab of cache `c`. Skips the blocks in the set `refused`.
    /// Each block that the search refuses is added to this set.
    fn would_fit_in_cache(self, refused: &mut [u64], c: u32, k: u8) -> bool
        requires tenant { self.tenant < length self.space.now.slots }
        requires cache { c < MAX_CACHES }
        requires order { k ≤ self.tables.now.top }
        requires words { length self.tables.now.lists.places ≤ 64 * length refused.old * 2 ^ k }
        requires parts { HoldTogether self.space.now self.buddy.now self.tables.now }
        requires steady { IsSteady self.space.now self.buddy.now self.tables.now self.tenant }
        requires refused { AreRefused self.space.now self.buddy.now self.tables.now self.tenant k (has_number refused.old) }
        ensures fits { (result ≡ true) ↔ WouldFitAround self.entry.space.now self.entry.buddy.now self.entry.tables.now self.entry.tenant c k }
        ensures words { length refused.new ≡ length refused.old }
        ensures refused { AreRefused self.entry.space.now self.entry.buddy.now self.entry.tables.now self.entry.tenant k
            (has_number refused.new) }
    {
        let mut next = self.tables.first(self.tenant, c, Kind::Empty);
        while let Some((slab, machine_frame)) = next {
            let number = slab >> k;
            if !has_block(refused, number) {
                if self.is_unused_block(number << k, k) {
                    return true;
                }
                add_block(refused, number);
            }
            next = self.tables.lists().after(machine_frame);
        }
        false
    }

    /// Returns true if no frame of the block of order `k` at frame `first` is taken, except by empty slabs.
    fn is_unused_block(self, first: u32, k: u8) -> bool
        requires tenant { self.tenant < length self.space.now.slots }
        requires first { first < WIDE_FRAMES }
        requires block { IsWhole self.buddy.now self.tenant first k }
        requires parts { HoldTogether self.space.now self.buddy.now self.tables.now }
        requires steady { IsSteady self.space.now self.buddy.now self.tables.now self.tenant }
        ensures { (result ≡ true) ↔ IsUnusedBlock self.entry.space.now self.entry.buddy.now self.entry.tables.now self.entry.tenant first k }
    {
        let order = self.buddy.order();
        let orders = self.buddy.orders_under(self.tenant, first >> order);
        let end = first + (1 << k);
        let mut frame = first;
        while frame < end {
            let begins = orders[(frame % (1 << order)) as usize];
            let Some(next) = self.past_unused(frame, begins) else {
                return false;
            };
            frame = next;
        }
        true
    }

    /// Returns a frame `next` above `frame`. No frame from `frame` to `next - 1` is taken, except by empty slabs. Returns `None`
    /// if `frame` is taken, but not by an empty slab. `begins` is the order of the taken block that begins at `frame`, or `None`
    /// if no taken block begins there.
    #[inline(always)]
    fn past_unused(self, frame: u32, begins: Option<u8>) -> Option<u32>
        requires tenant { self.tenant < length self.space.now.slots }
        requires frame { frame < 2 ^ 32 - 1 }
        requires border { IsBorder self.buddy.now self.tenant frame }
        requires begins { begins ≡ taken_of (holding_of self.tenant self.buddy.now) frame }
        requires parts { HoldTogether self.space.now self.buddy.now self.tables.now }
        requires steady { IsSteady self.space.now self.buddy.now self.tables.now self.tenant }
        ensures { MatchOption result (IsUnusedFrame self.entry.space.now self.entry.buddy.now self.entry.tables.now self.entry.tenant frame → ⊥)
            (λ next. IsUnusedTo self.entry.space.now self.entry.buddy.now self.entry.tables.now self.entry.tenant frame next) }
    {
        let Some(order) = begins else {
            return Some(frame + 1);
        };
        if self.is_idle(frame) {
            Some(frame + (1 << order))
        } else {
            None
        }
    }

    /// Returns true if an empty slab begins at the frame.
    fn is_idle(self, frame: u32) -> bool
        requires tenant { self.tenant < length self.space.now.slots }
        requires machine_frames { length self.tables.now.lists.places ≡ length self.space.now.owners * 2 ^ self.tables.now.top }
        ensures { result ≡ idle_at (λ i. true) self.entry.space.now self.entry.tables.now self.entry.tenant frame }
    {
        match machine_frame_in(self.tables, self.space, self.tenant, frame) {
            None => false,
            Some(machine_frame) => self.tables.place_of(machine_frame).is_some()
                && self.tables.kept_of(machine_frame).live == 0,
        }
    }
}
