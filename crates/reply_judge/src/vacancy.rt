//! What is left for a request, so that it may not be refused for lack of frames.

ghost use Rattle.std.specs.Prelude.{◌≡◌, ◌+◌, ◌*◌, ◌^◌, ◌≤◌, find, map, not};
ghost use Rattle.std.specs.List.{range_with_len};
ghost use Rattle.model_core.specs.Blocks.{block};
ghost use Rattle.model_core.specs.declared.limits.TheConstants.{MAX_ORDER};
ghost use Rattle.promise_core.specs.Holdings.{blocks_of_slot, is_slab_full, is_vacant};
ghost use Rattle.reply_judge.specs.Vacancy.{left_for_block, left_for_cache, left_for_object, vacant_in};

use crate::tenant::Tenant;
use known_holdings::{FrameBlock, Held, HeldCache};

/// What is left for a request.
#[derive(Clone, Copy, Debug)]
pub enum Vacancy {
    /// This block is aligned, in a held slot, and has no taken frame.
    Block(FrameBlock),
    /// The slab of the live object at this place is not full.
    Slab(u32),
}

impl Tenant {
    /// Returns a vacant block for a block of `2^k` frames, if there is one. Slots have `2^order` frames.
    #[tactic(auto, unfolding(crate::specs::Vacancy::left_for_block))]
    pub(crate) fn left_for_block(&self, order: u8, k: u8) -> Option<Vacancy>
        requires order { order ≤ MAX_ORDER }
        requires k { k ≤ MAX_ORDER }
        ensures { result ≡ left_for_block order self.now.has k }
    {
        match vacant_in(&self.held, order, k, self.held.slots()) {
            Some(block) => Some(Vacancy::Block(block)),
            None => None,
        }
    }

    /// Returns what is left for an object of the cache with this number, if anything is. Slots have `2^order` frames.
    pub(crate) fn left_for_object(&self, order: u8, number: u32) -> Option<Vacancy>
        requires { order ≤ MAX_ORDER }
        ensures { result ≡ left_for_object order self.now.has number }
    {
        match self.held.cache(number) {
            Some(cache) => self.left_for_cache(order, cache),
            None => None,
        }
    }

    #[tactic(auto, unfolding(crate::specs::Vacancy::left_for_cache))]
    fn left_for_cache(&self, order: u8, cache: &HeldCache) -> Option<Vacancy>
        requires { order ≤ MAX_ORDER }
        ensures { result ≡ left_for_cache order self.now.has cache.now }
    {
        match object_in_partial_slab(cache) {
            Some(place) => Some(Vacancy::Slab(place)),
            None => self.left_for_block(order, cache.order()),
        }
    }
}

/// Returns the first live object of the cache whose slab is not full.
fn object_in_partial_slab(cache: &HeldCache) -> Option<u32>
    ensures { result ≡ find (λ p. not (is_slab_full cache.now p)) cache.now.live }
{
    cache
        .live()
        .iter()
        .copied()
        .find(|place| !is_slab_full(cache, *place))
}

/// Returns whether all objects of the slab that contains the place are live.
fn is_slab_full(cache: &HeldCache, place: u32) -> bool
    ensures { result ≡ is_slab_full cache.now place }
{
    cache.beside(place).len() == cache.count() as usize
}

/// Returns the first aligned block of `2^k` frames in these slots that has no taken frame.
fn vacant_in(held: &Held, order: u8, k: u8, slots: &[u16]) -> Option<FrameBlock>
    requires order { order ≤ MAX_ORDER }
    requires k { k ≤ MAX_ORDER }
    ensures { result ≡ vacant_in order held.now k slots.now }
{
    for slot in slots {
        if let Some(block) = vacant_in_slot(held, order, k, *slot) {
            return Some(block);
        }
    }
    None
}

/// Returns the first aligned block of `2^k` frames in the slot that has no taken frame.
fn vacant_in_slot(held: &Held, order: u8, k: u8, slot: u16) -> Option<FrameBlock>
    requires order { order ≤ MAX_ORDER }
    requires k { k ≤ MAX_ORDER }
    ensures { result ≡ find (is_vacant held.now) (blocks_of_slot order k slot) }
{
    let blocks = 1u32 << order.saturating_sub(k);
    vacant_from(held, k, u32::from(slot) * blocks, blocks)
}

/// Returns the first of the aligned blocks of `2^k` frames with the numbers `begin` to `begin + blocks - 1` that has no taken
/// frame.
fn vacant_from(held: &Held, k: u8, begin: u32, blocks: u32) -> Option<FrameBlock>
    requires k { k ≤ MAX_ORDER }
    requires end { begin + blocks ≤ 2 ^ 24 }
    ensures { result ≡ find (is_vacant held.now) (map (λ i. block (i * 2 ^ k) k) (range_with_len begin blocks)) }
{
    for i in 0..blocks {
        let block = FrameBlock::numbered(begin + i, k);
        if held.is_vacant(&block) {
            return Some(block);
        }
    }
    None
}
