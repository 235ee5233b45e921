//! The cache rows of a report. `may_have_empty`, indexed by cache number, says which caches may have an empty slab.

ghost use Rattle.std.specs.Prelude.{◌≡◌, ℕ, ◌+◌, ◌*◌, ◌^◌, ◌≤◌, ◌<◌, ◌==◌, ◌&&◌, ◌||◌, not, length, filter, slice_index, slice_index_or, false};
ghost use Rattle.std.specs.List.{list_all, zip};
ghost use Rattle.promise_core.specs.Holdings.{slab_around, live_beside, is_slab_full};
ghost use Rattle.promise_core.specs.Promises.{count_slabs, is_row};

use known_holdings::{HeldCache, is_marked};
use model_core::report::CacheRow;

/// Returns whether each row is right for its cache.
pub(crate) fn are_rows(caches: &[HeldCache], may_have_empty: &[bool], rows: &[CacheRow]) -> bool
    ensures { result ≡ list_all (is_row (λ n. slice_index_or may_have_empty.now n false)) (zip caches.now rows.now) }
{
    caches
        .iter()
        .zip(rows)
        .all(|(cache, row)| is_row(cache, may_have_empty, row))
}

/// Returns whether the row is right for this cache. It must have the cache's number, number of live objects, and numbers of full
/// and partial slabs. It may count empty slabs only if the cache may have some.
fn is_row(cache: &HeldCache, may_have_empty: &[bool], row: &CacheRow) -> bool
    ensures { result ≡ is_row (λ n. slice_index_or may_have_empty.now n false) (cache.now, row.now) }
{
    (row.cache == cache.number() && row.live as usize == cache.live().len())
        && (row.empty == 0 || is_marked(may_have_empty, cache.number()))
        && has_slabs(cache, row)
}

/// Returns whether the row has the cache's numbers of full and of partial slabs.
fn has_slabs(cache: &HeldCache, row: &CacheRow) -> bool
    ensures { result ≡ (row.now.full == count_slabs (is_slab_full cache.now) cache.now
        && row.now.partial == count_slabs (λ p. not (is_slab_full cache.now p)) cache.now) }
{
    let (full, partial) = count_slabs(cache);
    row.full as usize == full && row.partial as usize == partial
}

/// Returns the number of full slabs and the number of partial slabs of the cache.
pub(crate) fn count_slabs(cache: &HeldCache) -> (usize, usize)
    ensures full { result.0 ≡ count_slabs (is_slab_full cache.now) cache.now }
    ensures partial { result.1 ≡ count_slabs (λ p. not (is_slab_full cache.now p)) cache.now }
{
    let mut full = 0usize;
    let mut partial = 0usize;
    let mut beside = cache.beside(0);
    for place in cache.live() {
        beside = beside_next(cache, beside, *place);
        let is_full = beside.len() == cache.count() as usize;
        full += usize::from(begins_at(beside, *place, is_full));
        partial += usize::from(begins_at(beside, *place, !is_full));
    }
    (full, partial)
}

/// Returns the live objects of the slab that contains the place. `last` has the live objects of the slab that contains some other
/// place. Live objects of one slab are neighbours in the list, so the slab is looked up once for all of them.
fn beside_next<'a>(cache: &'a HeldCache, last: &'a [u32], place: u32) -> &'a [u32]
    requires { (q : ℕ) × (last.now ≡ live_beside cache.now q) }
    ensures { result.now ≡ live_beside cache.now place }
{
    match last.first() {
        Some(first) if are_beside(cache, *first, place) => last,
        _ => cache.beside(place),
    }
}

/// Returns whether the places are in the same slab.
fn are_beside(cache: &HeldCache, p: u32, q: u32) -> bool
    ensures { result ≡ ((slab_around cache.now p).first == (slab_around cache.now q).first) }
{
    cache.slab_around(p).first() == cache.slab_around(q).first()
}

/// Returns true if `counts` is true and the first element of `beside`, or 0 if `beside` is empty, is this place.
fn begins_at(beside: &[u32], place: u32, counts: bool) -> bool
    ensures { result ≡ (slice_index beside.now 0 == place && counts) }
{
    beside.first().copied().unwrap_or(0) == place && counts
}
