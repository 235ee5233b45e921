//! Searches in lists that are sorted by key, in ascending order.

ghost use Rattle.std.specs.Prelude.{◌≡◌, ℕ, ◌≤◌, ◌<◌, ◌==◌, ◌&&◌, ◌++◌, take, drop, nat_le, nat_lt, not, filter, find, length, IfOk, OnErr};
ghost use Rattle.std.specs.Option.{option_copied};
ghost use Rattle.std.specs.List.{prefix_len};
ghost use Rattle.std.specs.List.Sorted.{IsNonDecreasingBy};
ghost use Rattle.model_core.specs.Machine.{put_rising};

use crate::block::FrameBlock;
use crate::cache::HeldCache;
use std::alloc::AllocError;

/// An item of a list that is sorted by key. For example, the key of a page block is its first frame.
pub(crate) trait Keyed {
    ghost key: { Self → ℕ };

    /// Returns the key of the item.
    fn key(&self) -> u32
        ensures { result ≡ key self.now };
}

/// A slot is its own key.
impl Keyed for u16 {
    ghost key = { λ slot. slot };

    fn key(&self) -> u32 {
        u32::from(*self)
    }
}

/// The first place of an object is its own key.
impl Keyed for u32 {
    ghost key = { λ place. place };

    fn key(&self) -> u32 {
        *self
    }
}

impl Keyed for FrameBlock {
    ghost key = { λ block. block.first };

    fn key(&self) -> u32 {
        self.first()
    }
}

impl Keyed for HeldCache {
    ghost key = { λ cache. cache.number };

    fn key(&self) -> u32 {
        u32::from(self.number())
    }
}

/// Returns how many items have keys below `bound`.
pub(crate) fn count_below<T: Keyed>(items: &[T], bound: u64) -> usize
    requires { IsNonDecreasingBy T.key items.now }
    ensures value { result ≡ prefix_len (λ x. nat_lt (T.key x) bound) items.now }
    ensures inside { result ≤ length items.now }
{
    items.partition_point(|item| u64::from(item.key()) < bound)
}

/// Returns how many items have keys below `bound`, as [`count_below`] does. The search is shorter if the item at index `near`
/// exists and its key is not below `bound`.
pub(crate) fn count_below_near<T: Keyed>(items: &[T], near: usize, bound: u64) -> usize
    requires { IsNonDecreasingBy T.key items.now }
    ensures value { result ≡ prefix_len (λ x. nat_lt (T.key x) bound) items.now }
    ensures inside { result ≤ length items.now }
{
    match items.get(near) {
        Some(next) if u64::from(next.key()) >= bound => count_below(&items[..near], bound),
        _ => count_below(items, bound),
    }
}

/// Returns the first item whose key is at least `low`, if there is one.
pub(crate) fn first_from<T: Keyed>(items: &[T], low: u64) -> Option<&T>
    requires { IsNonDecreasingBy T.key items.now }
    ensures { option_copied result ≡ find (λ x. nat_le low (T.key x)) items.now }
{
    items.get(count_below(items, low))
}

/// Returns the first item whose key is at least `low` and below `end`, if there is one.
pub(crate) fn first_within<T: Keyed>(items: &[T], low: u64, end: u64) -> Option<&T>
    requires { IsNonDecreasingBy T.key items.now }
    ensures { option_copied result ≡ find (λ x. nat_le low (T.key x) && nat_lt (T.key x) end) items.now }
{
    match first_from(items, low) {
        Some(item) if u64::from(item.key()) < end => Some(item),
        _ => None,
    }
}

/// Returns the first item with this key, if there is one.
pub(crate) fn with_key<T: Keyed>(items: &[T], key: u32) -> Option<&T>
    requires { IsNonDecreasingBy T.key items.now }
    ensures { option_copied result ≡ find (λ x. T.key x == key) items.now }
{
    let key = u64::from(key);
    first_within(items, key, key + 1)
}

/// Returns the items whose keys are at least `low` and below `end`. The search is shorter if there are at most `near` of them.
pub(crate) fn all_within<T: Keyed>(items: &[T], low: u64, end: u64, near: usize) -> &[T]
    requires { IsNonDecreasingBy T.key items.now }
    ensures { result.now ≡ filter (λ x. nat_le low (T.key x) && nat_lt (T.key x) end) items.now }
{
    let from = &items[count_below(items, low)..];
    &from[..count_below_near(from, near, end)]
}

/// Inserts the item after those whose keys are not greater. Fails if memory runs out; the items are then unchanged.
pub(crate) fn put<T: Keyed + Drop>(items: &mut Vec<T>, item: T) -> Result<(), AllocError>
    requires { IsNonDecreasingBy T.key items.old.items }
    ensures put { IfOk result (λ _. items.new.items ≡ put_rising T.key item items.old.items) }
    ensures kept { OnErr result (items.new.items ≡ items.old.items) }
    ensures rise { IsNonDecreasingBy T.key items.new.items }
{
    let at = count_below(items, u64::from(item.key()) + 1);
    items.insert(at, item)?;
    Ok(())
}

/// Returns the index of the first item with this key, and the index after the last such item. If there is no such item, the two
/// indices are equal.
fn range_of<T: Keyed>(items: &[T], key: u32) -> (usize, usize)
    requires { IsNonDecreasingBy T.key items.now }
    ensures order { result.0 ≤ result.1 }
    ensures inside { result.1 ≤ length items.now }
    ensures others { filter (λ x. not (T.key x == key)) items.now ≡ take result.0 items.now ++ drop result.1 items.now }
{
    let key = u64::from(key);
    let begin = count_below(items, key);
    let end = begin + count_below_near(&items[begin..], 1, key + 1);
    (begin, end)
}

/// Removes the items with this key.
pub(crate) fn remove<T: Keyed + Drop>(items: &mut Vec<T>, key: u32)
    requires { IsNonDecreasingBy T.key items.old.items }
    ensures value { items.new.items ≡ filter (λ x. not (T.key x == key)) items.old.items }
    ensures rise { IsNonDecreasingBy T.key items.new.items }
{
    let (begin, end) = range_of(items, key);
    for _ in begin..end {
        items.remove(begin);
    }
}
