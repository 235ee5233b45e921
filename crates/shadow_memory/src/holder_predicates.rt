//! Tests of holders.

ghost use Rattle.std.specs.Prelude.{◌≡◌, ℕ, Bool, true, false, not, IfSome, ◌==◌, ◌&&◌, ◌||◌, nat_le, ◌+◌};
ghost use Rattle.std.specs.List.{list_any};
ghost use Rattle.model_core.specs.Machine.{in_block};
ghost use Rattle.promise_core.specs.Holdings.{slab_around};
ghost use Rattle.promise_core.specs.Bytes.{Holder, is_same, is_object};
ghost use Rattle.promise_core.specs.State.{is_in_no_slab};
ghost use Rattle.known_holdings.specs.Holders.{shown_holder};
ghost use Rattle.shadow_memory.specs.Summaries.{MayOwn};

use crate::summary::Owners;
use known_holdings::{FrameBlock, Held, HeldCache, RangeHolder};
use model_core::limits::FRAME_BYTES;

/// A test of a holder.
pub(crate) trait HolderPredicate {
    ghost test: { Self → Holder → Bool };

    /// Returns whether the holder passes.
    fn passes(&self, holder: RangeHolder) -> bool
        ensures { result ≡ test self.now (shown_holder holder) };

    /// Returns the result of the test for the objects of the cache with this number, if it is known to be the same for all of
    /// them. Otherwise returns `None`.
    fn tells_of_cache(&self, number: u8) -> Option<bool>
        ensures { IfSome result (λ told. (first : ℕ) → test self.now (Holder.Object number first) ≡ told) };
}

/// Returns the result of the test for the holders in `owners`, if the result is known to be the same for all of them. Otherwise
/// returns `None`.
fn tells_of<T: HolderPredicate>(test: &T, owners: Owners) -> Option<bool>
    ensures { IfSome result (λ told. (h : Holder) → MayOwn owners h → T.test test.now h ≡ told) }
{
    match owners {
        Owners::Nobody => Some(false),
        Owners::One(holder) => Some(test.passes(holder)),
        Owners::Objects(number) => test.tells_of_cache(number),
        Owners::Any => None,
    }
}

/// Returns true only if every holder in `owners` passes the test.
pub(crate) fn passes_all<T: HolderPredicate>(test: &T, owners: Owners) -> bool
    ensures { result ≡ true → (h : Holder) → MayOwn owners h → T.test test.now h ≡ true }
{
    match tells_of(test, owners) {
        Some(told) => told,
        None => false,
    }
}

/// Returns true only if every holder in `owners` fails the test.
pub(crate) fn fails_all<T: HolderPredicate>(test: &T, owners: Owners) -> bool
    ensures { result ≡ true → (h : Holder) → MayOwn owners h → T.test test.now h ≡ false }
{
    match tells_of(test, owners) {
        Some(told) => !told,
        None => false,
    }
}

/// The test that passes if the given test fails.
#[derive(Drop)]
pub(crate) struct Fails<T>(pub T);

impl<T: HolderPredicate> HolderPredicate for Fails<T> {
    ghost test = { λ n holder. not (T.test n.0 holder) };

    fn passes(&self, holder: RangeHolder) -> bool {
        !self.0.passes(holder)
    }

    fn tells_of_cache(&self, number: u8) -> Option<bool> {
        match self.0.tells_of_cache(number) {
            Some(told) => Some(!told),
            None => None,
        }
    }
}

/// The test that passes for page blocks.
#[derive(Drop)]
pub(crate) struct IsPage;

impl HolderPredicate for IsPage {
    ghost test = { λ _ holder. is_same Holder.Page holder };

    fn passes(&self, holder: RangeHolder) -> bool {
        match holder {
            RangeHolder::Page => true,
            RangeHolder::Object { .. } => false,
        }
    }

    fn tells_of_cache(&self, _number: u8) -> Option<bool> {
        Some(false)
    }
}

/// The test that passes for the object that begins at `first` and belongs to the cache with this number.
#[derive(Drop)]
pub(crate) struct IsObject {
    pub number: u32,
    pub first: u32,
}

impl HolderPredicate for IsObject {
    ghost test = { λ o holder. is_same (Holder.Object o.number o.first) holder };

    fn passes(&self, holder: RangeHolder) -> bool {
        match holder {
            RangeHolder::Page => false,
            RangeHolder::Object { cache, first } => {
                u32::from(cache) == self.number && first == self.first
            }
        }
    }

    fn tells_of_cache(&self, number: u8) -> Option<bool> {
        if u32::from(number) == self.number {
            None
        } else {
            Some(false)
        }
    }
}

/// The test that passes for the objects of the cache with this number.
#[derive(Drop)]
pub(crate) struct IsOfCache {
    pub number: u32,
}

impl HolderPredicate for IsOfCache {
    ghost test = { λ o holder. is_object (λ n p. n == o.number) holder };

    fn passes(&self, holder: RangeHolder) -> bool {
        match holder {
            RangeHolder::Page => false,
            RangeHolder::Object { cache, .. } => u32::from(cache) == self.number,
        }
    }

    fn tells_of_cache(&self, number: u8) -> Option<bool> {
        Some(u32::from(number) == self.number)
    }
}

/// The test that passes for holders that cannot share a slab with a given object. The object begins at `first`, has `size` bytes
/// and belongs to the cache with this number.
#[derive(Drop)]
pub(crate) struct IsNotBeside {
    pub number: u8,
    pub first: u32,
    pub size: u32,
}

impl HolderPredicate for IsNotBeside {
    ghost test = { λ o holder. not (is_object (λ n p. n == o.number
        && (p == o.first || (nat_le (o.first + o.size) p || nat_le (p + o.size) o.first))) holder) };

    fn passes(&self, holder: RangeHolder) -> bool {
        match holder {
            RangeHolder::Page => true,
            RangeHolder::Object { cache, first } => {
                let here = u64::from(self.first);
                let there = u64::from(first);
                let size = u64::from(self.size);
                let is_beside = there == here || here + size <= there || there + size <= here;
                !(cache == self.number && is_beside)
            }
        }
    }

    fn tells_of_cache(&self, number: u8) -> Option<bool> {
        if number == self.number {
            None
        } else {
            Some(true)
        }
    }
}

/// The test that passes for an object if no slab with a live object of its cache contains the object's first place.
#[derive(Drop)]
pub(crate) struct IsInNoSlab<'a> {
    pub held: &'a Held,
}

impl<'a> HolderPredicate for IsInNoSlab<'a> {
    ghost test = { λ o holder. is_object (is_in_no_slab o.held.now) holder };

    fn passes(&self, holder: RangeHolder) -> bool {
        match holder {
            RangeHolder::Page => false,
            RangeHolder::Object { cache, first } => {
                !is_in_some_slab(self.held.caches(), cache, first)
            }
        }
    }

    fn tells_of_cache(&self, _number: u8) -> Option<bool> {
        None
    }
}

/// Returns whether the place is in a slab with a live object of the cache with this number.
fn is_in_some_slab(caches: &[HeldCache], number: u8, place: u32) -> bool
    ensures { result ≡ list_any (λ c. c.number == number && list_any (λ q. in_block place (slab_around c q)) c.live) caches.now }
{
    caches.iter().any(|cache| cache.number() == number && has_slab_at(cache, place))
}

/// Returns whether the place is in a slab with a live object of the cache.
fn has_slab_at(cache: &HeldCache, place: u32) -> bool
    ensures { result ≡ list_any (λ q. in_block place (slab_around cache.now q)) cache.now.live }
{
    cache
        .live()
        .iter()
        .any(|first| is_in_block(place, &cache.slab_around(*first)))
}

/// Returns whether the place is in a frame of the block.
fn is_in_block(place: u32, block: &FrameBlock) -> bool
    ensures { result ≡ in_block place block.now }
{
    let frame = u64::from(place / FRAME_BYTES);
    let first = u64::from(block.first());
    first <= frame && frame < first + (1u64 << block.order())
}
