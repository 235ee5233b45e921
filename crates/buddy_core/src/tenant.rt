//! The stored state of one tenant.

ghost use Rattle.std.specs.Prelude.{◌≡◌, ℕ, replicate, count_by, is_some, ◌+◌, ◌-◌, ◌^◌, ◌<◌, ◌≤◌, Some, None, List, length, slice_index, slice_index_or, slice_set, IfOk, IsSome, MatchOption};
ghost use Rattle.model_core.specs.declared.limits.TheConstants.{WIDE_ORDER, WIDE_SUPERBLOCKS};
ghost use Rattle.buddy_core.specs.Stored.{bare_tenant};
ghost use Rattle.buddy_core.specs.Counts.{CanCountMore, IsTakenOut};

use std::alloc::{AllocError, Global};
use std::marker::Model;

/// The slots of one tenant, and its numbers of free and taken blocks of each order.
#[derive(Debug, Drop)]
pub struct Tenant {
    slots: Vec<Option<u16>>,
    // The tenant holds neither this slot nor a later one, so searches end here.
    end: usize,
    // The number of held slots.
    held_slots: u32,
    free: Vec<u32>,
    taken: Vec<u32>,
}

impl Model for Tenant {
    ghost use Rattle.buddy_core.specs.Stored.{StoredTenant};

    ghost Value = { StoredTenant };

    ghost view = { λ a. record { slots = a.slots.items; free = a.free.items; taken = a.taken.items } };

    ghost use Rattle.buddy_core.specs.Roots.{IsStoredTenant};

    ghost invariant = { λ a. IsStoredTenant a.slots.items a.end a.held_slots a.free.items a.taken.items };
}

impl Tenant {
    /// Makes a tenant that holds nothing.
    pub fn new(alloc: Global, order: u8, superblocks: u16) -> Result<Tenant, AllocError>
        requires order { order ≤ WIDE_ORDER }
        requires superblocks { superblocks ≤ WIDE_SUPERBLOCKS }
        ensures { IfOk result (λ t. t ≡ bare_tenant order superblocks) }
    {
        let slots = vec![in alloc; None; superblocks as usize]?;
        let free = vec![in alloc; 0; order as usize + 1]?;
        let taken = vec![in alloc; 0; order as usize + 1]?;
        Ok(Tenant {
            slots,
            end: 0,
            held_slots: 0,
            free,
            taken,
        })
    }

    /// Returns an entry for each slot: its superblock, or `None`. No slot beyond the end of the slice is held.
    pub fn held(&self) -> &[Option<u16>]
        ensures same { (u : ℕ) → slice_index_or result.now u None ≡ slice_index_or self.now.slots u None }
        ensures few { length result.now ≤ WIDE_SUPERBLOCKS }
        ensures within { length result.now ≤ length self.now.slots }
    {
        &self.slots[..self.end]
    }

    /// Returns the superblock in `slot`, or `None` if there is none. `slot` may be any number.
    pub fn superblock_at(&self, slot: u32) -> Option<u16>
        ensures { result ≡ slice_index_or self.now.slots slot None }
    {
        self.slots.get(slot as usize).copied().flatten()
    }

    /// Returns the number of the tenant's free blocks of `order`.
    pub fn free_count(&self, order: u8) -> u32
        requires { order < length self.now.free }
        ensures { result ≡ slice_index self.now.free order }
    {
        self.free[order as usize]
    }

    /// Returns the least order of at least `k` in which the tenant has a free block, or `None` if there is no such order.
    pub fn least_free(&self, k: u8) -> Option<u8>
        ensures { MatchOption result ((j : ℕ) → k ≤ j → slice_index self.now.free j ≡ 0)
            (λ j. (k ≤ j) × (j ≤ WIDE_ORDER) × (0 < slice_index self.now.free j)
            × ((i : ℕ) → k ≤ i → i < j → slice_index self.now.free i ≡ 0)) }
    {
        for order in k..self.free.len() as u8 {
            if self.free[order as usize] > 0 {
                return Some(order);
            }
        }
        None
    }

    /// Returns the number of the tenant's taken blocks of `order`.
    pub fn taken_count(&self, order: u8) -> u32
        requires { order < length self.now.taken }
        ensures { result ≡ slice_index self.now.taken order }
    {
        self.taken[order as usize]
    }

    /// Returns the number of slots that the tenant holds.
    pub fn held_slots(&self) -> u32
        ensures { result ≡ count_by is_some self.now.slots }
    {
        self.held_slots
    }

    /// Puts a superblock whose frames are all free into an empty slot, and counts it as a free block of `order`.
    pub fn add_slot(&mut self, slot: u16, superblock: u16, order: u8)
        requires slot { slot < length self.old.slots }
        requires empty { slice_index_or self.old.slots slot None ≡ None }
        requires order { order < length self.old.free }
        requires room { slice_index self.old.free order + 1 < 2 ^ 32 }
        ensures { self.new ≡ record self.old {
          slots = slice_set self.old.slots slot (Some superblock);
          free = slice_set self.old.free order (slice_index self.old.free order + 1);
        } }
    {
        self.slots[slot as usize] = Some(superblock);
        self.end = self.end.max(slot as usize + 1);
        self.held_slots += 1;
        self.free[order as usize] += 1;
    }

    /// Replaces the superblock in a slot by one with the same free and taken blocks.
    pub fn move_slot(&mut self, slot: u16, superblock: u16)
        requires { IsSome (slice_index_or self.old.slots slot None) }
        ensures { self.new ≡ record self.old { slots = slice_set self.old.slots slot (Some superblock) } }
    {
        self.slots[slot as usize] = Some(superblock);
    }

    /// Takes a superblock whose frames are all free out of its slot, and lowers the count of free blocks of `order` by 1.
    pub fn drop_slot(&mut self, slot: u16, order: u8)
        requires held { IsSome (slice_index_or self.old.slots slot None) }
        requires order { order < length self.old.free }
        requires some { 0 < slice_index self.old.free order }
        ensures { self.new ≡ record self.old {
          slots = slice_set self.old.slots slot None;
          free = slice_set self.old.free order (slice_index self.old.free order - 1);
        } }
    {
        self.slots[slot as usize] = None;
        self.held_slots -= 1;
        self.free[order as usize] -= 1;
    }

    /// Counts a taken block of `order` that was part of a free block of order `from`. The other parts stay free.
    pub fn count_reserved(&mut self, from: u8, order: u8)
        requires order { order ≤ from }
        requires from { from < length self.old.free }
        requires free { 0 < slice_index self.old.free from }
        requires room { CanCountMore self.old }
        ensures { IsTakenOut order from self.old self.new }
    {
        self.taken[order as usize] += 1;
        self.free[from as usize] -= 1;
        for level in order..from {
            self.free[level as usize] += 1;
        }
    }

    /// Counts a freed block of `order` that was joined with its buddies into a free block of order `to`.
    #[inline(always)]
    pub fn count_released(&mut self, order: u8, to: u8)
        requires order { order ≤ to }
        requires to { to < length self.old.free }
        requires taken { 0 < slice_index self.old.taken order }
        requires buddies { (i : ℕ) → order ≤ i → i < to → 0 < slice_index self.old.free i }
        requires room { CanCountMore self.old }
        ensures { IsTakenOut order to self.new self.old }
    {
        self.taken[order as usize] -= 1;
        for level in order..to {
            self.free[level as usize] -= 1;
        }
        self.free[to as usize] += 1;
    }

    /// Removes all slots and sets all counts to 0.
    pub fn clear(&mut self)
        ensures slots { self.new.slots ≡ replicate (length self.old.slots) None }
        ensures free { self.new.free ≡ replicate (length self.old.free) 0 }
        ensures taken { self.new.taken ≡ replicate (length self.old.taken) 0 }
    {
        for slot in 0..self.end {
            self.slots[slot] = None;
        }
        self.end = 0;
        self.held_slots = 0;
        self.free.fill(0);
        self.taken.fill(0);
    }
}
