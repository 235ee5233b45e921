//! Taken blocks, and frames of empty slabs, according to the rows of a report.

ghost use Rattle.std.specs.Prelude.{◌≡◌, ℕ, ◌+◌, ◌*◌, ◌^◌, ◌≤◌, ◌<◌, ◌==◌, if◌then◌else◌, length, filter, Option, true};
ghost use Rattle.std.specs.List.{sum_by, zip};
ghost use Rattle.std.specs.Option.{option_map_or};
ghost use Rattle.model_core.specs.declared.limits.TheConstants.{MAX_ORDER};
ghost use Rattle.promise_core.specs.Promises.{known_count, empty_frames};

use crate::counts::frames_in;
use known_holdings::{FrameBlock, Held, HeldCache};
use model_core::report::CacheRow;
use words_core::{CACHES, Report};

/// Returns whether exactly `count` blocks of `2^k` frames are taken, according to the page blocks and these cache rows.
pub(crate) fn are_taken(held: &Held, rows: &[CacheRow], k: u8, count: u32) -> bool
    requires { length rows.now ≤ CACHES }
    ensures { result ≡ (count == known_count held.now rows.now k) }
{
    u128::from(count) == known_count(held, rows, k)
}

/// Returns how many blocks of `2^k` frames are taken, according to the page blocks and these cache rows.
pub(crate) fn known_count(held: &Held, rows: &[CacheRow], k: u8) -> u128
    requires { length rows.now ≤ CACHES }
    ensures { result ≡ known_count held.now rows.now k }
{
    count_pages(held.pages(), k) as u128 + u128::from(count_slabs(held.caches(), rows, k))
}

/// Returns the number of page blocks of `2^k` frames.
fn count_pages(pages: &[FrameBlock], k: u8) -> usize
    ensures { result ≡ length (filter (λ b. b.order == k) pages.now) }
{
    pages.iter().filter(|page| page.order() == k).count()
}

/// Returns the number of slabs of `2^k` frames in the rows.
#[tactic(auto, using(crate::proofs::RowSums::one_more_pair))]
fn count_slabs(caches: &[HeldCache], rows: &[CacheRow], k: u8) -> u64
    requires { length rows.now ≤ CACHES }
    ensures { result ≡ sum_by (λ p. if p.0.order == k then p.1.full + p.1.partial + p.1.empty else 0) (zip caches.now rows.now) }
{
    let mut count = 0u64;
    for (cache, row) in caches.iter().zip(rows) {
        count += slabs_in(cache, row, k);
    }
    count
}

/// Returns the number of slabs of `2^k` frames in the row of the cache.
fn slabs_in(cache: &HeldCache, row: &CacheRow, k: u8) -> u64
    ensures value { result ≡ (if cache.now.order == k then row.now.full + row.now.partial + row.now.empty else 0) }
    ensures most { result ≤ 2 ^ 34 }
{
    if cache.order() == k {
        u64::from(row.full) + u64::from(row.partial) + u64::from(row.empty)
    } else {
        0
    }
}

/// Returns the number of frames in the empty slabs of a report: those of the cache with the number `only`, or of all caches if
/// `only` is `None`.
pub(crate) fn empty_frames(held: &Held, report: &Report, only: Option<u32>) -> u64
    ensures { result ≡ empty_frames (λ n. option_map_or (λ number. n == number) only true) held.now report.now }
{
    sum_empty(held.caches(), report.caches.as_slice(), only)
}

#[tactic(auto, using(crate::proofs::RowSums::one_more_pair))]
fn sum_empty(caches: &[HeldCache], rows: &[CacheRow], only: Option<u32>) -> u64
    requires { length rows.now ≤ CACHES }
    ensures { result ≡ sum_by
        (λ p. if option_map_or (λ number. p.0.number == number) only true then p.1.empty * 2 ^ p.0.order else 0)
        (zip caches.now rows.now) }
{
    let mut frames = 0u64;
    for (cache, row) in caches.iter().zip(rows) {
        frames += empty_in(cache, row, only);
    }
    frames
}

/// Returns the number of frames in the empty slabs of the cache, or 0 if `only` is another cache.
fn empty_in(cache: &HeldCache, row: &CacheRow, only: Option<u32>) -> u64
    ensures value { result
        ≡ (if option_map_or (λ number. cache.now.number == number) only true then row.now.empty * 2 ^ cache.now.order else 0) }
    ensures most { result ≤ 2 ^ 42 }
{
    if is_asked(cache, only) {
        frames_in(row.empty, cache.order())
    } else {
        0
    }
}

/// Returns whether the cache has the number `only`, or `only` is `None`.
pub(crate) fn is_asked(cache: &HeldCache, only: Option<u32>) -> bool
    ensures { result ≡ option_map_or (λ number. cache.now.number == number) only true }
{
    match only {
        Some(number) => u32::from(cache.number()) == number,
        None => true,
    }
}
