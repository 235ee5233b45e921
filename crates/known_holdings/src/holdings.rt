//! How answers change a tenant's holdings.

ghost use Rattle.std.specs.Prelude.{◌≡◌, ◌≤◌, ◌==◌, not, filter, [], None, IfOk, OnErr};
ghost use Rattle.model_core.specs.declared.limits.TheConstants.{MAX_ORDER, MAX_SUPERBLOCKS};
ghost use Rattle.model_core.specs.Machine.{put_rising};
ghost use Rattle.promise_core.specs.Holdings.{known_cache, with_live_places};

use crate::block::FrameBlock;
use crate::cache::HeldCache;
use crate::held::{Held, index_of_cache};
use crate::rising::{put, remove};
use model_core::limits::MAX_CACHES;
use std::alloc::{AllocError, Global};

impl Held {
    /// Returns empty holdings, with capacity for `slots` slots of `2^order` frames, a page block in each frame, and `MAX_CACHES`
    /// caches. Fails if memory runs out.
    pub fn new(alloc: Global, order: u8, slots: u16) -> Result<Held, AllocError>
        requires order { order ≤ MAX_ORDER }
        requires slots { slots ≤ MAX_SUPERBLOCKS }
        ensures { IfOk result (λ h. h ≡ record { slots = []; pages = []; caches = [] }) }
    {
        let frames = usize::from(slots) << order;
        Ok(Held {
            slots: Vec::with_capacity(alloc, slots.into())?,
            pages: Vec::with_capacity(alloc, frames)?,
            longest: 0,
            caches: Vec::with_capacity(alloc, MAX_CACHES.into())?,
        })
    }

    /// Adds a granted slot. Fails if memory runs out; the holdings are then unchanged.
    pub fn grant(&mut self, slot: u16) -> Result<(), AllocError>
        ensures granted { IfOk result (λ _. self.new ≡ record self.old { slots = put_rising (λ v. v) slot self.old.slots }) }
        ensures kept { OnErr result (self.new ≡ self.old) }
    {
        put(&mut self.slots, slot)?;
        Ok(())
    }

    /// Adds an allocated page block. Fails if memory runs out; the holdings are then unchanged.
    pub fn alloc(&mut self, block: FrameBlock) -> Result<(), AllocError>
        ensures taken { IfOk result (λ _. self.new ≡ record self.old { pages = put_rising (λ b. b.first) block self.old.pages }) }
        ensures kept { OnErr result (self.new ≡ self.old) }
    {
        put(&mut self.pages, block)?;
        self.longest = self.longest.max(block.order());
        Ok(())
    }

    /// Adds a cache. Fails if memory runs out; the holdings are then unchanged.
    pub fn make_cache(&mut self, cache: HeldCache) -> Result<(), AllocError>
        requires { known_cache self.old cache.number ≡ None }
        ensures made { IfOk result (λ _.
            self.new ≡ record self.old { caches = put_rising (λ x. x.number) cache self.old.caches }) }
        ensures kept { OnErr result (self.new ≡ self.old) }
    {
        put(&mut self.caches, cache)?;
        Ok(())
    }

    /// Adds the object that begins at the place to the cache with this number. Fails if memory runs out; the holdings are then
    /// unchanged.
    pub fn take(&mut self, number: u32, place: u32) -> Result<(), AllocError>
        ensures taken { IfOk result (λ _. self.new ≡ with_live_places number (put_rising (λ p. p) place) self.old) }
        ensures kept { OnErr result (self.new ≡ self.old) }
    {
        match index_of_cache(&self.caches, number) {
            Some(i) => self.caches[i].take(place),
            None => Ok(()),
        }
    }

    /// Removes the page block that begins at the frame.
    pub fn free(&mut self, frame: u32)
        ensures { self.new ≡ record self.old { pages = filter (λ b. not (b.first == frame)) self.old.pages } }
    {
        remove(&mut self.pages, frame);
    }

    /// Removes the cache with this number.
    pub fn destroy(&mut self, number: u32)
        ensures { self.new ≡ record self.old { caches = filter (λ c. not (c.number == number)) self.old.caches } }
    {
        remove(&mut self.caches, number);
    }

    /// Removes the object that begins at the place from the cache with this number.
    pub fn give(&mut self, number: u32, place: u32)
        ensures { self.new ≡ with_live_places number (filter (λ p. not (p == place))) self.old }
    {
        if let Some(i) = index_of_cache(&self.caches, number) {
            self.caches[i].give(place);
        }
    }

    /// Removes the slot.
    pub fn take_back(&mut self, slot: u32)
        ensures { self.new ≡ record self.old { slots = filter (λ v. not (v == slot)) self.old.slots } }
    {
        remove(&mut self.slots, slot);
    }

    /// Removes all slots, page blocks and caches.
    pub fn reset(&mut self)
        ensures { self.new ≡ record { slots = []; pages = []; caches = [] } }
    {
        self.slots.clear();
        self.pages.clear();
        self.caches.clear();
    }
}
