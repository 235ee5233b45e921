//! The binary buddy system of a machine that is divided between tenants (Knuth, The Art of Computer
//! Programming, volume 1, section 2.5).
//!
//! A superblock has `2^order` frames and is in at most one slot of one tenant. The first frame of slot `u` of a tenant has the
//! number `u * 2^order`. A block of order `k` has `2^k` frames and begins at a multiple of `2^k`. [`Buddy::reserve`] takes a
//! block, and [`Buddy::release`] frees it. A free block lies in a held slot and has no taken frame, and no larger block around it
//! has both properties. So free halves are joined at every release.
//!
//! Contracts see a [`Buddy`] as the slots and the taken blocks of each tenant. Internally each superblock has a tree of words, and
//! each word has the orders of the free blocks inside one block.
//!
//! # Example
//!
//! ```
//! use buddy_core::Buddy;
//!
//! // Two superblocks of 2^3 frames, and one tenant, who gets superblock 1 as slot 0.
//! let mut buddy = Buddy::new(rt.alloc(), 3, 2, 1)?;
//! buddy.add_slot(0, 0, 1);
//! assert_eq!(rt; buddy.free_count(0, 3), 1);
//! assert_eq!(rt; buddy.reserve(0, 0), Some(0));
//! assert_eq!(rt; buddy.free_count(0, 2), 1);
//! assert_eq!(rt; buddy.release(0, 0), Some(0));
//! assert_eq!(rt; buddy.free_count(0, 3), 1);
//! ```
#![tactic(auto)]

ghost use Rattle.std.specs.Prelude.{◌≡◌, ℕ, ◌+◌, ◌*◌, ◌/◌, ◌%◌, ◌^◌, ◌<◌, ◌≤◌, Some, None, List, length, slice_index, slice_index_or, MatchOption, IfOk, OnOk, OnErr, IfNone, IfSome, OnSome, IsSome};
ghost use Rattle.model_core.specs.declared.limits.TheConstants.{WIDE_ORDER, WIDE_SUPERBLOCKS, WIDE_TENANTS, WIDE_FRAMES};
ghost use Rattle.model_core.specs.Blocks.{Block, block, HasFrame, IsTaken, HasTaken, slot_block, IsChoice, IsWithout};
ghost use Rattle.buddy_core.specs.Content.{Content, empty_buddy, nothing_held, holding_of, with_holding, superblock_at, is_held, taken_of, with_block, without_block, with_slot, without_slot, BuddyLaws, free_block_count, taken_block_count, held_slots};
ghost use Rattle.buddy_core.specs.Table.{IsTable};

mod find;
mod summaries;
mod superblock;
mod tenant;
mod tree;

use crate::summaries::Summary;
use crate::superblock::Superblock;
use crate::tenant::Tenant;
use std::alloc::{AllocError, Global};
use std::marker::Model;

/// The error of [`Buddy::drop_slot`] if a frame of the slot is taken.
#[derive(Clone, Copy, Debug, PartialEq, Eq)]
pub struct SlotBusy;

/// A page block that a reservation has taken.
#[derive(Clone, Copy, Debug, PartialEq, Eq)]
pub struct ReservedBlock {
    /// The first frame.
    pub first: u32,
    /// The superblock in the block's slot.
    pub superblock: u16,
}

/// The buddy systems of all tenants.
#[derive(Debug, Drop)]
pub struct Buddy {
    order: u8,
    superblocks: Vec<Superblock>,
    tenants: Vec<Tenant>,
    // For each tenant and order, the slots in which a search finds a free block.
    summaries: Vec<Summary>,
}

impl Model for Buddy {
    ghost use Rattle.buddy_core.specs.Content.{Content};

    ghost Value = { Content };

    ghost use Rattle.buddy_core.specs.Stored.{content_shown};
    ghost use Rattle.buddy_core.specs.Kept.{IsKept};
    ghost use Rattle.buddy_core.specs.Summary.{AreExact};

    ghost view = { λ a. content_shown a.order a.superblocks.items a.tenants.items };

    ghost invariant = { λ a. IsKept a.order a.superblocks.items a.tenants.items
        × AreExact a.superblocks.items a.tenants.items a.summaries.items };
}

impl Buddy {
    /// Makes a machine with `superblocks` superblocks of `2^order` frames each, and with `tenants` tenants that hold nothing.
    /// Returns `AllocError` if the allocator refuses memory.
    pub fn new(alloc: Global, order: u8, superblocks: u16, tenants: u8) -> Result<Buddy, AllocError>
        requires order { order ≤ WIDE_ORDER }
        requires superblocks { superblocks ≤ WIDE_SUPERBLOCKS }
        requires tenants { tenants ≤ WIDE_TENANTS }
        requires frames { superblocks * 2 ^ order ≤ WIDE_FRAMES }
        ensures { IfOk result (λ b. b ≡ empty_buddy order superblocks tenants) }
    {
        let mut all_tenants = Vec::with_capacity(alloc, usize::from(tenants))?;
        let mut summaries = Vec::with_capacity(alloc, usize::from(tenants))?;
        for _tenant in 0..tenants {
            all_tenants.push(Tenant::new(alloc, order, superblocks)?)?;
            summaries.push(Summary::new(alloc, order, superblocks)?)?;
        }
        let mut all_superblocks = Vec::with_capacity(alloc, usize::from(superblocks))?;
        for _superblock in 0..superblocks {
            all_superblocks.push(Superblock::new(alloc, order)?)?;
        }
        Ok(Buddy {
            order,
            superblocks: all_superblocks,
            tenants: all_tenants,
            summaries,
        })
    }

    /// A law: the sizes are within the limits, each tenant's taken blocks are aligned, lie in held slots and share no frame, and
    /// no superblock is in two slots. This function itself does nothing.
    pub fn laws(&self)
        ensures { BuddyLaws self.now }
    {
        let _ = &self.order;
    }

    /// Returns the order of a superblock.
    pub fn order(&self) -> u8
        ensures { result ≡ self.now.top }
    {
        self.order
    }

    /// Returns the number of superblocks of the machine.
    pub fn superblocks(&self) -> u16
        ensures { result ≡ self.now.superblocks }
    {
        self.superblocks.len() as u16
    }

    /// Returns the number of tenants that share the machine.
    pub fn tenants(&self) -> u8
        ensures { result ≡ length self.now.tenants }
    {
        self.tenants.len() as u8
    }

    /// Puts superblock `m`, which is in no slot, into a slot that tenant `t` does not hold. The tenant then holds the slot, and
    /// all frames of the slot are free.
    pub fn add_slot(&mut self, t: u8, slot: u16, m: u16)
        requires tenant { t < length self.old.tenants }
        requires slot { slot < self.old.superblocks }
        requires superblock { m < self.old.superblocks }
        requires free { superblock_at (holding_of t self.old) slot ≡ None }
        requires unused { (other u : ℕ) → superblock_at (holding_of other self.old) u ≡ Some m → ⊥ }
        ensures { self.new ≡ with_holding t (with_slot slot m (holding_of t self.old)) self.old }
    {
        let order = self.order;
        self.superblocks[m as usize].fill_bare();
        self.summaries[t as usize].note(slot, 0, 1 << order);
        self.tenants[t as usize].add_slot(slot, m, order);
    }

    /// Takes the superblock out of a slot that tenant `t` holds. Returns `SlotBusy` and changes nothing if a frame of the slot is
    /// taken.
    pub fn drop_slot(&mut self, t: u8, slot: u16) -> Result<(), SlotBusy>
        requires tenant { t < length self.old.tenants }
        requires held { IsSome (superblock_at (holding_of t self.old) slot) }
        ensures done { OnOk result ((HasTaken (taken_of (holding_of t self.old)) (slot_block self.old.top slot) → ⊥)
            × (self.new ≡ with_holding t (without_slot slot (holding_of t self.old)) self.old)) }
        ensures busy { OnErr result (HasTaken (taken_of (holding_of t self.old)) (slot_block self.old.top slot)
            × (self.new ≡ self.old)) }
    {
        let order = self.order;
        let m = self.tenants[t as usize]
            .superblock_at(u32::from(slot))
            .unwrap();
        if self.superblocks[m as usize].tree().root() != 1 << order {
            return Err(SlotBusy);
        }
        self.superblocks[m as usize].empty_whole();
        self.summaries[t as usize].note(slot, 1 << order, 0);
        self.tenants[t as usize].drop_slot(slot, order);
        Ok(())
    }

    /// Replaces the superblock in a slot of tenant `t` by `m`, which is in no slot. The slot keeps its
    /// taken blocks, and the old superblock is then in no slot.
    pub fn move_slot(&mut self, t: u8, slot: u16, m: u16)
        requires tenant { t < length self.old.tenants }
        requires held { IsSome (superblock_at (holding_of t self.old) slot) }
        requires superblock { m < self.old.superblocks }
        requires unused { (other u : ℕ) → superblock_at (holding_of other self.old) u ≡ Some m → ⊥ }
        ensures { self.new ≡ with_holding t (with_slot slot m (holding_of t self.old)) self.old }
    {
        let tenant = &mut self.tenants[t as usize];
        let old = tenant.superblock_at(u32::from(slot)).unwrap();
        tenant.move_slot(slot, m);
        self.superblocks.swap(old as usize, m as usize);
    }

    /// Removes all slots and all taken blocks of tenant `t`.
    pub fn reset(&mut self, t: u8)
        requires { t < length self.old.tenants }
        ensures { self.new ≡ with_holding t (nothing_held self.old.top self.old.superblocks) self.old }
    {
        let end = self.slots_end(t);
        for slot in 0..end {
            if let Some(m) = self.tenants[t as usize].superblock_at(u32::from(slot)) {
                let root = self.superblocks[m as usize].tree().root();
                self.superblocks[m as usize].clear();
                self.summaries[t as usize].note(slot, root, 0);
            }
        }
        self.tenants[t as usize].clear();
    }

    /// Takes a block of order `k` for tenant `t` and returns its first frame. Of the orders that are at least `k` and have a free
    /// block, it chooses the least. The taken block is the beginning of the first free block of this order. Returns `None` and
    /// changes nothing if no block of order `k` or more is free.
    ///
    /// A free block that is too large is split, and the upper half of each split stays free.
    pub fn reserve(&mut self, t: u8, k: u8) -> Option<u32>
        requires tenant { t < length self.old.tenants }
        requires order { k ≤ self.old.top }
        ensures refused { IfNone result (IsWithout self.old.top (is_held (holding_of t self.old)) (taken_of (holding_of t self.old)) k
            × (self.new ≡ self.old)) }
        ensures done { IfSome result (λ f. (j : ℕ)
            × (IsChoice self.old.top (is_held (holding_of t self.old)) (taken_of (holding_of t self.old)) k (block f j)
            × (self.new ≡ with_holding t (with_block f k (holding_of t self.old)) self.old))) }
    {
        match self.reserve_block(t, k) {
            Some(reserved) => Some(reserved.first),
            None => None,
        }
    }

    /// Does the same as [`Buddy::reserve`]. It also returns the superblock in the block's slot, so the caller does not have to
    /// look it up.
    // Always inlined: its result is then kept in registers, not written to memory and read again.
    #[inline(always)]
    pub fn reserve_block(&mut self, t: u8, k: u8) -> Option<ReservedBlock>
        requires tenant { t < length self.old.tenants }
        requires order { k ≤ self.old.top }
        ensures refused { IfNone result (IsWithout self.old.top (is_held (holding_of t self.old)) (taken_of (holding_of t self.old)) k
            × (self.new ≡ self.old)) }
        ensures done { IfSome result (λ b. (j : ℕ)
            × (IsChoice self.old.top (is_held (holding_of t self.old)) (taken_of (holding_of t self.old)) k (block b.first j)
            × (self.new ≡ with_holding t (with_block b.first k (holding_of t self.old)) self.old))) }
        ensures under { IfSome result (λ b. superblock_at (holding_of t self.old) (b.first / 2 ^ self.old.top) ≡ Some b.superblock) }
    {
        let summary = &mut self.summaries[t as usize];
        let source = find::find(&self.superblocks, &self.tenants[t as usize], summary, k)?;
        let superblock = &mut self.superblocks[source.superblock as usize];
        let old = superblock.tree().root();
        let first = superblock.tree().search(source.order);
        superblock.reserve_at(first, source.order, k);
        self.tenants[t as usize].count_reserved(source.order, k);
        summary.note(source.slot, old, superblock.tree().root());
        Some(ReservedBlock {
            first: (u32::from(source.slot) << self.order) + first,
            superblock: source.superblock,
        })
    }

    /// Frees the taken block of tenant `t` that begins at `frame` and returns its order, or `None` if no taken block begins
    /// there. While the buddy of the freed block is one free block, the two are joined.
    pub fn release(&mut self, t: u8, frame: u32) -> Option<u8>
        requires { t < length self.old.tenants }
        ensures answer { result ≡ taken_of (holding_of t self.old) frame }
        ensures refused { IfNone result (self.new ≡ self.old) }
        ensures done { OnSome result (self.new ≡ with_holding t (without_block frame (holding_of t self.old)) self.old) }
    {
        let m = self.tenants[t as usize].superblock_at(frame >> self.order)?;
        self.release_in(m, t, frame)
    }

    /// Does the same as [`Buddy::release`], for a caller that knows that superblock `m` is in the slot of `frame`.
    #[inline(always)]
    pub fn release_in(&mut self, m: u16, t: u8, frame: u32) -> Option<u8>
        requires tenant { t < length self.old.tenants }
        requires under { superblock_at (holding_of t self.old) (frame / 2 ^ self.old.top) ≡ Some m }
        ensures answer { result ≡ taken_of (holding_of t self.old) frame }
        ensures refused { IfNone result (self.new ≡ self.old) }
        ensures done { OnSome result (self.new ≡ with_holding t (without_block frame (holding_of t self.old)) self.old) }
    {
        let slot = (frame >> self.order) as u16;
        let first = frame % (1 << self.order);
        let k = self.superblocks[m as usize].order_at(first)?;
        let superblock = &mut self.superblocks[m as usize];
        let old = superblock.tree().root();
        let joined = superblock.release_at(first, k);
        self.tenants[t as usize].count_released(k, joined);
        self.summaries[t as usize].note(slot, old, superblock.tree().root());
        Some(k)
    }

    /// Returns the order of the taken block of tenant `t` that begins at `frame`, or `None` if no taken block begins there.
    pub fn live_order(&self, t: u8, frame: u32) -> Option<u8>
        requires { t < length self.now.tenants }
        ensures { result ≡ taken_of (holding_of t self.now) frame }
    {
        let m = self.tenants[t as usize].superblock_at(frame >> self.order)?;
        self.superblocks[m as usize].order_at(frame % (1 << self.order))
    }

    /// Returns the first frame and the order of the taken block of tenant `t` that contains `frame`, or
    /// `None` if the frame is not taken.
    pub fn block_of(&self, t: u8, frame: u32) -> Option<(u32, u8)>
        requires { t < length self.now.tenants }
        ensures { MatchOption result (IsTaken (taken_of (holding_of t self.now)) frame → ⊥)
            (λ b. (taken_of (holding_of t self.now) b.0 ≡ Some b.1) × HasFrame (block b.0 b.1) frame) }
    {
        let m = self.tenants[t as usize].superblock_at(frame >> self.order)?;
        self.block_in(m, t, frame)
    }

    /// Returns the same as [`Buddy::block_of`], for a caller that knows that superblock `m` is in the slot of `frame`. Only the
    /// contract uses `t`.
    #[inline(always)]
    pub fn block_in(&self, m: u16, t: u8, frame: u32) -> Option<(u32, u8)>
        requires tenant { t < length self.now.tenants }
        requires under { superblock_at (holding_of t self.now) (frame / 2 ^ self.now.top) ≡ Some m }
        ensures { MatchOption result (IsTaken (taken_of (holding_of t self.now)) frame → ⊥)
            (λ b. (taken_of (holding_of t self.now) b.0 ≡ Some b.1) × HasFrame (block b.0 b.1) frame) }
    {
        let _ = t;
        let superblock = &self.superblocks[m as usize];
        for k in 0..=self.order {
            let first = frame >> k << k;
            if superblock.order_at(first % (1 << self.order)) == Some(k) {
                return Some((first, k));
            }
        }
        None
    }

    /// Returns the number of free blocks of order `k` of tenant `t`.
    pub fn free_count(&self, t: u8, k: u8) -> u32
        requires tenant { t < length self.now.tenants }
        requires order { k ≤ self.now.top }
        ensures { result ≡ free_block_count self.now.top self.now.superblocks k (holding_of t self.now) }
    {
        self.tenants[t as usize].free_count(k)
    }

    /// Returns the number of taken blocks of order `k` of tenant `t`.
    pub fn taken_count(&self, t: u8, k: u8) -> u32
        requires tenant { t < length self.now.tenants }
        requires order { k ≤ self.now.top }
        ensures { result ≡ taken_block_count k (holding_of t self.now) }
    {
        self.tenants[t as usize].taken_count(k)
    }

    /// Returns the number of slots that tenant `t` holds.
    pub fn slots(&self, t: u8) -> u32
        requires { t < length self.now.tenants }
        ensures { result ≡ held_slots (holding_of t self.now) }
    {
        self.tenants[t as usize].held_slots()
    }

    /// Returns a number above the number of each slot that tenant `t` holds. It is 0 if the tenant has held no slot since boot or
    /// since its last reset.
    pub fn slots_end(&self, t: u8) -> u16
        requires { t < length self.now.tenants }
        ensures within { result ≤ self.now.superblocks }
        ensures rest { (u : ℕ) → result ≤ u → superblock_at (holding_of t self.now) u ≡ None }
    {
        self.tenants[t as usize].held().len() as u16
    }

    /// Returns an entry for each of the `2^order` frames of a slot of tenant `t`: the order of the taken block that begins there,
    /// or `None`.
    pub fn orders_under(&self, t: u8, slot: u32) -> &[Option<u8>]
        requires tenant { t < length self.now.tenants }
        requires held { IsSome (superblock_at (holding_of t self.now) slot) }
        ensures size { length result.now ≡ 2 ^ self.now.top }
        ensures orders { (f : ℕ) → f / 2 ^ self.now.top ≡ slot
            → slice_index_or result.now (f % 2 ^ self.now.top) None ≡ taken_of (holding_of t self.now) f }
    {
        let m = self.tenants[t as usize].superblock_at(slot).unwrap();
        self.superblocks[m as usize].orders()
    }

    /// Returns the stored words of superblock `m`, one for each node. Node `i` is at index `i - 1`. Node 1
    /// is the whole superblock, and nodes `2i` and `2i + 1` are the halves of node `i`. Bit `j` of a node's word
    /// is 1 if and only if a free block of order `j` lies inside the node's block.
    pub fn table(&self, m: u16) -> &[u16]
        requires { m < self.now.superblocks }
        ensures { IsTable self.now m result.now }
    {
        self.superblocks[m as usize].tree().words()
    }
}
