//! Allocates page blocks, and frees empty slabs first if that is needed to find a block.

ghost use Rattle.std.specs.Prelude.{◌≡◌, ◌≤◌, ◌<◌, ◌↔◌, length, option_map, IsSome, IfSome, IfNone};
ghost use Rattle.model_core.specs.Blocks.{block};
ghost use Rattle.model_core.specs.Machine.{Machine, choice};
ghost use Rattle.model_core.specs.Slabs.{choice_by_need};
ghost use Rattle.model_core.specs.Operations.{with_block, alloc_step};
ghost use Rattle.machine_changes.specs.Shows.{ShowsMachine, Agree};
ghost use Rattle.machine_changes.specs.Keeps.{Spares};
ghost use Rattle.machine_changes.specs.Fitting.{WouldFit};
ghost use Rattle.slab_core.specs.Fitting.{HasFreeBlock};
ghost use Rattle.slab_core.specs.Lending.{IsPageAt, IsReservedPage};

use crate::Slabs;
use buddy_core::{Buddy, ReservedBlock};
use space_core::Space;

impl Slabs {
    /// Takes a page block of order `k` for tenant `t` and returns its first frame. If no free block is large enough, but one
    /// would be if all empty slabs of the tenant were freed, frees them first.
    ///
    /// Returns `None` and changes nothing if no block would be found even then.
    // Never inlined: its result fits into registers, and a search inside `Kernel::run` would cost each event.
    #[inline(never)]
    pub fn reserve_by_need(
        &mut self,
        space: &mut Space,
        buddy: &mut Buddy,
        t: u8,
        k: u8,
    ) -> Option<u32>
        requires tenant { t < length space.old.slots }
        requires order { k ≤ self.old.top }
        requires agree { Agree space.old buddy.old self.old }
        ensures answer { (m : Machine) → ShowsMachine space.old buddy.old self.old t m → result ≡ choice_by_need self.old.top k m }
        ensures shows { (m : Machine) → ShowsMachine space.old buddy.old self.old t m
            → ShowsMachine space.new buddy.new self.new t (alloc_step self.old.top k m).machine }
        ensures page { IfSome result (λ f. IsPageAt space.new buddy.new self.new t f k) }
        ensures fits { IsSome result ↔ WouldFit space.old buddy.old self.old t k }
        ensures spares { Spares t space.old space.new buddy.old buddy.new self.old self.new }
        ensures agree { Agree space.new buddy.new self.new }
        ensures refused { IfNone result ((space.new ≡ space.old) × ((buddy.new ≡ buddy.old) × (self.new ≡ self.old))) }
    {
        match self.reserve_block_by_need(space, buddy, t, k) {
            Some(reserved) => Some(reserved.first),
            None => None,
        }
    }

    /// Does the same as [`Slabs::reserve_by_need`]. It also returns the block's superblock, which the reservation has looked up, so
    /// a caller that lends the bytes need not look up the slot again.
    #[inline(always)]
    pub fn reserve_block_by_need(
        &mut self,
        space: &mut Space,
        buddy: &mut Buddy,
        t: u8,
        k: u8,
    ) -> Option<ReservedBlock>
        requires tenant { t < length space.old.slots }
        requires order { k ≤ self.old.top }
        requires agree { Agree space.old buddy.old self.old }
        ensures answer { (m : Machine) → ShowsMachine space.old buddy.old self.old t m
            → option_map (λ b. b.first) result ≡ choice_by_need self.old.top k m }
        ensures shows { (m : Machine) → ShowsMachine space.old buddy.old self.old t m
            → ShowsMachine space.new buddy.new self.new t (alloc_step self.old.top k m).machine }
        ensures page { IfSome result (IsReservedPage space.new buddy.new self.new t k) }
        ensures fits { IsSome result ↔ WouldFit space.old buddy.old self.old t k }
        ensures spares { Spares t space.old space.new buddy.old buddy.new self.old self.new }
        ensures agree { Agree space.new buddy.new self.new }
        ensures refused { IfNone result ((space.new ≡ space.old) × ((buddy.new ≡ buddy.old) × (self.new ≡ self.old))) }
    {
        self.laws_with(space, buddy, t);
        if let Some(reserved) = self.reserve(space, buddy, t, k) {
            return Some(reserved);
        }
        if !self.fits_by_need(space, buddy, t, k) {
            return None;
        }
        self.give_back_all(space, buddy, t);
        self.reserve_then(space, buddy, t, k)
    }

    /// Takes a page block of order `k` for tenant `t` out of a free block. Returns `None` and changes nothing if no free block is
    /// large enough. Frees no slab.
    #[inline(always)]
    fn reserve(&self, space: &Space, buddy: &mut Buddy, t: u8, k: u8) -> Option<ReservedBlock>
        requires tenant { t < length space.now.slots }
        requires order { k ≤ self.now.top }
        requires agree { Agree space.now buddy.old self.now }
        ensures answer { (m : Machine) → ShowsMachine space.now buddy.old self.now t m
            → option_map (λ b. b.first) result ≡ choice self.now.top m k }
        ensures shows { IfSome result (λ b. (m : Machine) → ShowsMachine space.now buddy.old self.now t m
            → ShowsMachine space.now buddy.new self.now t (with_block (block b.first k) m)) }
        ensures page { IfSome result (IsReservedPage space.now buddy.new self.now t k) }
        ensures free { IsSome result ↔ HasFreeBlock buddy.old t k }
        ensures spares { Spares t space.now space.now buddy.old buddy.new self.now self.now }
        ensures agree { Agree space.now buddy.new self.now }
        ensures refused { IfNone result (buddy.new ≡ buddy.old) }
    {
        self.laws_with(space, buddy, t);
        buddy.reserve_block(t, k)
    }

    /// Does the same as [`Slabs::reserve`], for a request whose block is found only after the empty slabs were freed. Such
    /// requests are rare.
    // Never inlined: one copy of the search is enough in a caller.
    #[cold]
    #[inline(never)]
    fn reserve_then(&self, space: &Space, buddy: &mut Buddy, t: u8, k: u8) -> Option<ReservedBlock>
        requires tenant { t < length space.now.slots }
        requires order { k ≤ self.now.top }
        requires agree { Agree space.now buddy.old self.now }
        ensures answer { (m : Machine) → ShowsMachine space.now buddy.old self.now t m
            → option_map (λ b. b.first) result ≡ choice self.now.top m k }
        ensures shows { IfSome result (λ b. (m : Machine) → ShowsMachine space.now buddy.old self.now t m
            → ShowsMachine space.now buddy.new self.now t (with_block (block b.first k) m)) }
        ensures page { IfSome result (IsReservedPage space.now buddy.new self.now t k) }
        ensures free { IsSome result ↔ HasFreeBlock buddy.old t k }
        ensures spares { Spares t space.now space.now buddy.old buddy.new self.now self.now }
        ensures agree { Agree space.now buddy.new self.now }
        ensures refused { IfNone result (buddy.new ≡ buddy.old) }
    {
        self.reserve(space, buddy, t, k)
    }
}
