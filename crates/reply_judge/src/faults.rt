//! What keeps a block from standing, if it shares no frame with a page block, and what keeps an object from being taken.

ghost use Rattle.std.specs.Prelude.{◌≡◌, ◌≤◌, find, not};
ghost use Rattle.std.specs.Option.{option_or};
ghost use Rattle.model_core.specs.declared.limits.TheConstants.{MAX_ORDER};
ghost use Rattle.model_core.specs.Operations.{overlaps};
ghost use Rattle.promise_core.specs.Holdings.{are_apart, slab_around};
ghost use Rattle.reply_judge.specs.Faults.{beside_fault, block_fault, grid_fault, take_fault, object_fault, slab_fault, slab_in_way};

use crate::tenant::Tenant;
use known_holdings::{FrameBlock, HeldCache};

/// What keeps a block from standing.
#[derive(Clone, Copy, Debug)]
pub enum BlockFault {
    /// Its first frame is not a multiple of its size.
    Misaligned,
    /// Its first frame is in this slot, which the tenant does not hold.
    Outside(u32),
    /// It shares a frame with the slab of a live object.
    Slab {
        /// The number of the cache.
        cache: u8,
        /// The first place of the object.
        place: u32,
    },
}

/// What keeps an object of a cache from being taken.
#[derive(Clone, Copy, Debug)]
pub enum ObjectFault {
    /// Its place is not a multiple of the cache's alignment.
    Misaligned,
    /// Its slab would share a frame with this live page block.
    Page(FrameBlock),
    /// This block cannot be its slab.
    Unfit { slab: FrameBlock, fault: BlockFault },
    /// It overlaps the live object at this place.
    Over(u32),
    /// All objects of its slab are live.
    Full,
    /// No object of its slab can begin at its place: with one there, the slab's objects would not lie on one grid, or not all
    /// within the slab.
    OffGrid,
}

impl Tenant {
    /// Returns what keeps the block from standing, if it shares no frame with a page block. Slots have `2^order` frames.
    #[tactic(auto, unfolding(crate::specs::Faults::block_fault))]
    pub(crate) fn block_fault(&self, order: u8, block: &FrameBlock) -> Option<BlockFault>
        requires { order ≤ MAX_ORDER }
        ensures { result ≡ block_fault order self.now.has block.now }
    {
        if block.first() % (1u32 << block.order()) != 0 {
            return Some(BlockFault::Misaligned);
        }
        let slot = block.first() / (1u32 << order);
        if !self.held.has_slot(slot) {
            return Some(BlockFault::Outside(slot));
        }
        slab_over(self.held.caches(), block)
    }

    /// Returns what keeps an object of the cache with this number from being taken at the place. Slots have `2^order` frames.
    pub(crate) fn object_fault(&self, order: u8, number: u32, place: u32) -> Option<ObjectFault>
        requires { order ≤ MAX_ORDER }
        ensures { result ≡ object_fault order self.now.has number place }
    {
        match self.held.cache(number) {
            Some(cache) => self.any_fault(order, cache, place),
            None => None,
        }
    }

    /// Returns what keeps an object of the cache from being taken at the place.
    fn any_fault(&self, order: u8, cache: &HeldCache, place: u32) -> Option<ObjectFault>
        requires { order ≤ MAX_ORDER }
        ensures { result ≡ option_or (take_fault order self.now.has cache.now place)
            (grid_fault order self.now.has cache.now place) }
    {
        match self.take_fault(order, cache, place) {
            Some(fault) => Some(fault),
            None => {
                let is_off = !self.held.can_be_taken(order, cache, place);
                is_off.then_some(ObjectFault::OffGrid)
            }
        }
    }

    #[tactic(auto, unfolding(crate::specs::Faults::take_fault))]
    fn take_fault(&self, order: u8, cache: &HeldCache, place: u32) -> Option<ObjectFault>
        requires { order ≤ MAX_ORDER }
        ensures { result ≡ take_fault order self.now.has cache.now place }
    {
        if !cache.is_aligned(place) {
            return Some(ObjectFault::Misaligned);
        }
        let beside = cache.beside(place);
        if beside.len() == 0 {
            self.slab_fault(order, &cache.slab_around(place))
        } else {
            beside_fault(cache, place, beside)
        }
    }

    /// Returns what keeps the block from becoming the slab of an object.
    #[tactic(auto, unfolding(crate::specs::Faults::slab_fault))]
    fn slab_fault(&self, order: u8, slab: &FrameBlock) -> Option<ObjectFault>
        requires { order ≤ MAX_ORDER }
        ensures { result ≡ slab_fault order self.now.has slab.now }
    {
        if let Some(page) = self.held.page_over(slab) {
            return Some(ObjectFault::Page(page));
        }
        match self.block_fault(order, slab) {
            Some(fault) => Some(ObjectFault::Unfit { slab: *slab, fault }),
            None => None,
        }
    }
}

/// Returns what the live objects `beside` in its slab keep an object at the place from.
fn beside_fault(cache: &HeldCache, place: u32, beside: &[u32]) -> Option<ObjectFault>
    ensures { result ≡ beside_fault cache.now place beside.now }
{
    match first_over(cache, place, beside) {
        Some(other) => Some(ObjectFault::Over(other)),
        None => (cache.count() as usize <= beside.len()).then_some(ObjectFault::Full),
    }
}

/// Returns the first of these objects of the cache that overlaps an object at the place.
fn first_over(cache: &HeldCache, place: u32, beside: &[u32]) -> Option<u32>
    ensures { result ≡ find (λ p. not (are_apart cache.now place p)) beside.now }
{
    beside
        .iter()
        .copied()
        .find(|p| !are_apart(cache, place, *p))
}

/// Returns whether objects of the cache at these two places share no byte.
fn are_apart(cache: &HeldCache, p: u32, q: u32) -> bool
    ensures { result ≡ are_apart cache.now p q }
{
    let size = u64::from(cache.size());
    u64::from(p) + size <= u64::from(q) || u64::from(q) + size <= u64::from(p)
}

/// Returns the first of these caches with a live object whose slab shares a frame with the block, and the first such object.
fn slab_over(caches: &[HeldCache], block: &FrameBlock) -> Option<BlockFault>
    ensures { result ≡ slab_in_way block.now caches.now }
{
    for cache in caches {
        if let Some(place) = object_over(cache, block) {
            return Some(BlockFault::Slab {
                cache: cache.number(),
                place,
            });
        }
    }
    None
}

/// Returns the first live object of the cache whose slab shares a frame with the block.
fn object_over(cache: &HeldCache, block: &FrameBlock) -> Option<u32>
    ensures { result ≡ find (λ p. overlaps block.now (slab_around cache.now p)) cache.now.live }
{
    cache
        .live()
        .iter()
        .copied()
        .find(|place| block.overlaps(&cache.slab_around(*place)))
}
