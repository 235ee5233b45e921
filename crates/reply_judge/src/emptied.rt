//! What the number of frames that come back from empty slabs has to be.

ghost use Rattle.std.specs.Prelude.{◌≡◌, ◌≤◌, ◌^◌, ◌==◌, ◌&&◌, IfSome, false, true, filter, slice_index_or};
ghost use Rattle.std.specs.Option.{option_map_or};
ghost use Rattle.model_core.specs.declared.limits.TheConstants.{MAX_ORDER};
ghost use Rattle.reply_judge.specs.Emptied.{frames_due, frames_told, least_empty, may_have_empty_of, vacant_slabs};
ghost use Rattle.reply_judge.specs.Seen.{state_of};

use crate::bound::Bound;
use crate::taken::{empty_frames, is_asked};
use crate::tenant::Tenant;
use known_holdings::{HeldCache, is_marked};

impl Tenant {
    /// Returns what the number of frames from empty slabs of the cache `only`, or of all caches if `only` is `None`, has to be.
    /// Returns `None` if it may be `frames`. Slots have `2^order` frames.
    #[tactic(auto, unfolding(crate::specs::Emptied::frames_due))]
    pub(crate) fn frames_due(&self, order: u8, only: Option<u32>, frames: u32) -> Option<Bound>
        requires { order ≤ MAX_ORDER }
        ensures { result ≡ frames_due order (state_of self.now)
            (filter (λ c. option_map_or (λ number. c.number == number) only true) self.now.has.caches) frames }
    {
        if frames == 0 {
            return None;
        }
        match least_empty(order, self.held.caches(), &self.may_have_empty, only) {
            Some(least) => vacant_slabs(self.held.count_vacant(order, 0), least, frames),
            None => Some(Bound::Exactly(0)),
        }
    }
}

/// Returns what a number of frames in slabs of order `k` has to be, if `vacant` frames are not taken. Returns `None` if it may be
/// `frames`.
fn vacant_slabs(vacant: u128, k: u8, frames: u32) -> Option<Bound>
    requires { k ≤ MAX_ORDER }
    ensures { result ≡ vacant_slabs vacant k frames }
{
    if u128::from(frames) > vacant {
        return Some(Bound::AtMost(vacant));
    }
    let slab = frames_of(k);
    if frames % slab != 0 {
        return Some(Bound::MultipleOf(slab.into()));
    }
    None
}

impl Tenant {
    /// Returns the number of frames that the last report counts in empty slabs of the cache `only`, or of all caches if `only` is
    /// `None`. Returns `None` if no report is valid.
    pub(crate) fn frames_told(&self, only: Option<u32>) -> Option<u128>
        ensures { result ≡ frames_told (state_of self.now) only }
    {
        match &self.last_report {
            Some(report) => Some(empty_frames(&self.held, report, only).into()),
            None => None,
        }
    }
}

/// Returns the number of frames in a slab of this order.
fn frames_of(order: u8) -> u32
    requires { order ≤ MAX_ORDER }
    ensures value { result ≡ 2 ^ order }
    ensures some { 1 ≤ result }
{
    1u32 << order
}

/// Returns the least order of a slab that may be empty, of the cache `only`, or of all caches if `only` is `None`. Slots have
/// `2^order` frames.
fn least_empty(
    order: u8,
    caches: &[HeldCache],
    may_have_empty: &[bool],
    only: Option<u32>,
) -> Option<u8>
    requires { order ≤ MAX_ORDER }
    ensures value { result ≡ least_empty order (λ n. slice_index_or may_have_empty.now n false)
        (filter (λ c. option_map_or (λ number. c.number == number) only true) caches.now) }
    ensures most { IfSome result (λ k. k ≤ MAX_ORDER) }
{
    (0..order + 1).find(|k| may_have_empty_of(caches, may_have_empty, only, *k))
}

/// Returns whether the cache `only`, or some cache if `only` is `None`, may have an empty slab of `2^k` frames.
fn may_have_empty_of(
    caches: &[HeldCache],
    may_have_empty: &[bool],
    only: Option<u32>,
    k: u8,
) -> bool
    ensures { result ≡ may_have_empty_of (λ n. slice_index_or may_have_empty.now n false)
        (filter (λ c. option_map_or (λ number. c.number == number) only true) caches.now) k }
{
    caches
        .iter()
        .filter(|cache| is_asked(cache, only))
        .any(|cache| is_of_order(cache, may_have_empty, k))
}

/// Returns whether the cache may have an empty slab, of `2^k` frames.
fn is_of_order(cache: &HeldCache, may_have_empty: &[bool], k: u8) -> bool
    ensures { result ≡ (slice_index_or may_have_empty.now cache.now.number false && cache.now.order == k) }
{
    is_marked(may_have_empty, cache.number()) && cache.order() == k
}
