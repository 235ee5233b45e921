//! The first number of a report that is wrong, by what the tenant has. Slots have `2^order` frames. `may_have_empty`, indexed by
//! cache number, says which caches may have an empty slab.

ghost use Rattle.std.specs.Prelude.{◌≡◌, ◌+◌, ◌*◌, ◌^◌, ◌≤◌, None, false, find, if◌then◌else◌, is_some, length, slice_index_or};
ghost use Rattle.std.specs.List.{range_with_len};
ghost use Rattle.std.specs.Option.{option_map_or};
ghost use Rattle.model_core.specs.declared.limits.TheConstants.{MAX_ORDER};
ghost use Rattle.words_core.specs.declared.report.TheConstants.{CACHES, ORDERS};
ghost use Rattle.reply_judge.specs.Figures.{exactly, first_wrong};
ghost use Rattle.reply_judge.specs.Seen.{state_of};
ghost use Rattle.reply_judge.specs.declared.bound.Bound.TheVariants as BoundOf;
ghost use Rattle.reply_judge.specs.declared.figures.ReportFigure.TheVariants as FigureOf;
ghost use Rattle.reply_judge.specs.WrongReports.{blocks_wrong, cache_wrong, figure_wrong, totals_wrong, free_below_wrong, free_wrong};
ghost use Rattle.reply_judge.specs.WrongReports.{row_wrong, sizes_wrong, taken_wrong, top_wrong};

use crate::bound::Bound;
use crate::counts::{count_at, counts_of, frames_from, frames_of_counts, greatest, split_share};
use crate::figures::{ReportFigure, WrongFigure, at_most, exactly, first_found};
use crate::rows::count_slabs;
use crate::taken::known_count;
use crate::tenant::Tenant;
use known_holdings::{Held, HeldCache, is_marked};
use model_core::report::CacheRow;
use words_core::Report;

impl Tenant {
    /// Returns the first number of the report that is wrong, if there is one.
    pub(crate) fn figure_wrong(&self, order: u8, r: &Report) -> Option<WrongFigure>
        requires { order ≤ MAX_ORDER }
        ensures { let s = state_of self.now in result ≡ figure_wrong order s.may_have_empty s.has r.now }
    {
        figure_wrong(&self.held, order, &self.may_have_empty, r)
    }
}

/// Returns the first number of the report that is wrong, if there is one.
#[tactic(auto, unfolding(crate::specs::WrongReports::figure_wrong))]
fn figure_wrong(held: &Held, order: u8, may_have_empty: &[bool], r: &Report) -> Option<WrongFigure>
    requires { order ≤ MAX_ORDER }
    ensures { result ≡ figure_wrong order (λ n. slice_index_or may_have_empty.now n false) held.now r.now }
{
    let (free, taken) = counts_of(&r.orders);
    let (free, taken) = (free.as_slice(), taken.as_slice());
    let rows = r.caches.as_slice();
    first_found(&[
        sizes_wrong(held, order, r),
        first_cache_wrong(held.caches(), may_have_empty, rows),
        first_taken_wrong(held, order, rows, taken),
        totals_wrong(taken, r),
        blocks_wrong(held, order, free, r),
    ])
}

/// Returns what is wrong with the numbers of rows, or the number of all frames.
fn sizes_wrong(held: &Held, order: u8, r: &Report) -> Option<WrongFigure>
    requires { order ≤ MAX_ORDER }
    ensures { result ≡ sizes_wrong order held.now r.now }
{
    let (orders, caches) = (r.orders.as_slice().len(), r.caches.as_slice().len());
    let frames = frames_in_slots(held.slots(), order);
    first_found(&[
        exactly(
            ReportFigure::OrderRows,
            u128::from(order) + 1,
            orders as u128,
        ),
        exactly(
            ReportFigure::CacheRows,
            held.caches().len() as u128,
            caches as u128,
        ),
        exactly(ReportFigure::Frames, frames, r.frames.into()),
    ])
}

/// Returns what is wrong with the numbers of live and of free frames, if the numbers of taken blocks are right.
fn totals_wrong(taken: &[u32], r: &Report) -> Option<WrongFigure>
    requires { length taken.now ≤ ORDERS }
    ensures { result ≡ totals_wrong taken.now r.now }
{
    let free = r.frames.saturating_sub(r.live);
    first_found(&[
        exactly(
            ReportFigure::Live,
            frames_of_counts(taken).into(),
            r.live.into(),
        ),
        at_most(ReportFigure::Live, r.frames.into(), r.live.into()),
        exactly(ReportFigure::Free, free.into(), r.free.into()),
    ])
}

/// Returns what is wrong with the numbers of free blocks, and with what follows from them.
fn blocks_wrong(held: &Held, order: u8, free: &[u32], r: &Report) -> Option<WrongFigure>
    requires order { order ≤ MAX_ORDER }
    requires short { length free.now ≤ ORDERS }
    ensures { result ≡ blocks_wrong order held.now free.now r.now }
{
    let top = greatest(free, order + 1);
    first_found(&[
        exactly(
            ReportFigure::FreeInRows,
            r.free.into(),
            frames_of_counts(free).into(),
        ),
        first_free_wrong(held, order, free),
        top_wrong(top, r.top),
        exactly(
            ReportFigure::Split,
            split_share(r.free, top).into(),
            r.split.into(),
        ),
    ])
}

/// Returns the number of frames in these slots.
fn frames_in_slots(slots: &[u16], order: u8) -> u128
    requires { order ≤ MAX_ORDER }
    ensures { result ≡ length slots.now * 2 ^ order }
{
    slots.len() as u128 * (1u128 << order)
}

fn first_cache_wrong(
    caches: &[HeldCache],
    may_have_empty: &[bool],
    rows: &[CacheRow],
) -> Option<WrongFigure>
    ensures { result
        ≡ first_wrong (cache_wrong (λ n. slice_index_or may_have_empty.now n false) caches.now rows.now) (length caches.now) }
{
    match row_of_wrong(caches, may_have_empty, rows) {
        Some(index) => cache_wrong(caches, may_have_empty, rows, index),
        None => None,
    }
}

/// Returns the index of the first cache row that has a wrong number.
fn row_of_wrong(caches: &[HeldCache], may_have_empty: &[bool], rows: &[CacheRow]) -> Option<usize>
    ensures { result ≡ find (λ i. is_some (cache_wrong (λ n. slice_index_or may_have_empty.now n false) caches.now rows.now i))
        (range_with_len 0 (length caches.now)) }
{
    (0..caches.len()).find(|index| cache_wrong(caches, may_have_empty, rows, *index).is_some())
}

/// Returns the first wrong number in the cache row with this index.
fn cache_wrong(
    caches: &[HeldCache],
    may_have_empty: &[bool],
    rows: &[CacheRow],
    index: usize,
) -> Option<WrongFigure>
    ensures { result ≡ cache_wrong (λ n. slice_index_or may_have_empty.now n false) caches.now rows.now index }
{
    row_wrong(index, caches.get(index)?, may_have_empty, rows.get(index)?)
}

/// Returns the first wrong number in the cache row with this index, which has to be of this cache.
#[tactic(auto, unfolding(crate::specs::WrongReports::row_wrong))]
fn row_wrong(
    index: usize,
    cache: &HeldCache,
    may_have_empty: &[bool],
    row: &CacheRow,
) -> Option<WrongFigure>
    ensures { result ≡ row_wrong (λ n. slice_index_or may_have_empty.now n false) index cache.now row.now }
{
    let number = cache.number();
    let (full, partial) = count_slabs(cache);
    first_found(&[
        exactly(
            ReportFigure::CacheOf(index),
            number.into(),
            row.cache.into(),
        ),
        exactly(
            ReportFigure::FullSlabs(number),
            full as u128,
            row.full.into(),
        ),
        exactly(
            ReportFigure::PartialSlabs(number),
            partial as u128,
            row.partial.into(),
        ),
        empty_wrong(number, is_marked(may_have_empty, number), row.empty),
        exactly(
            ReportFigure::LiveObjects(number),
            cache.live().len() as u128,
            row.live.into(),
        ),
    ])
}

/// Returns the number of empty slabs of the cache, which is 0 unless it may have some.
fn empty_wrong(cache: u8, may_have_some: bool, empty: u32) -> Option<WrongFigure>
    ensures { result ≡ (if may_have_some then None else exactly (FigureOf.EmptySlabs cache) 0 empty) }
{
    if may_have_some {
        None
    } else {
        exactly(ReportFigure::EmptySlabs(cache), 0, empty.into())
    }
}

fn first_taken_wrong(
    held: &Held,
    order: u8,
    rows: &[CacheRow],
    taken: &[u32],
) -> Option<WrongFigure>
    requires order { order ≤ MAX_ORDER }
    requires rows { length rows.now ≤ CACHES }
    ensures { result ≡ first_wrong (taken_wrong held.now rows.now taken.now) (order + 1) }
{
    match order_of_wrong(held, order, rows, taken) {
        Some(k) => taken_wrong(held, rows, taken, k),
        None => None,
    }
}

/// Returns the first order whose number of taken blocks is wrong.
fn order_of_wrong(held: &Held, order: u8, rows: &[CacheRow], taken: &[u32]) -> Option<u8>
    requires order { order ≤ MAX_ORDER }
    requires rows { length rows.now ≤ CACHES }
    ensures { result
        ≡ find (λ k. is_some (taken_wrong held.now rows.now taken.now k)) (range_with_len 0 (order + 1)) }
{
    (0..order + 1).find(|k| taken_wrong(held, rows, taken, *k).is_some())
}

/// Returns the number of taken blocks of `2^k` frames, if the report has another one.
fn taken_wrong(held: &Held, rows: &[CacheRow], taken: &[u32], k: u8) -> Option<WrongFigure>
    requires { length rows.now ≤ CACHES }
    ensures { result ≡ taken_wrong held.now rows.now taken.now k }
{
    let due = known_count(held, rows, k);
    exactly(ReportFigure::TakenBlocks(k), due, count_at(taken, k).into())
}

fn first_free_wrong(held: &Held, order: u8, free: &[u32]) -> Option<WrongFigure>
    requires order { order ≤ MAX_ORDER }
    requires short { length free.now ≤ ORDERS }
    ensures { result ≡ first_wrong (free_below_wrong order held.now free.now) (order + 1) }
{
    match below_of_wrong(held, order, free) {
        Some(below) => free_below_wrong(held, order, free, below),
        None => None,
    }
}

/// Returns how far below a slot's order the greatest order is that has too many free blocks.
fn below_of_wrong(held: &Held, order: u8, free: &[u32]) -> Option<u8>
    requires order { order ≤ MAX_ORDER }
    requires short { length free.now ≤ ORDERS }
    ensures { result
        ≡ find (λ j. is_some (free_below_wrong order held.now free.now j)) (range_with_len 0 (order + 1)) }
{
    (0..order + 1).find(|below| free_below_wrong(held, order, free, *below).is_some())
}

/// Does the same as [`free_wrong`] for the order that is this far below a slot's order.
fn free_below_wrong(held: &Held, order: u8, free: &[u32], below: u8) -> Option<WrongFigure>
    requires order { order ≤ MAX_ORDER }
    requires short { length free.now ≤ ORDERS }
    ensures { result ≡ free_below_wrong order held.now free.now below }
{
    free_wrong(held, order, free, order.saturating_sub(below))
}

/// Returns how many blocks of `2^k` frames can be free beside the free blocks of greater orders, if the report has more.
fn free_wrong(held: &Held, order: u8, free: &[u32], k: u8) -> Option<WrongFigure>
    requires order { order ≤ MAX_ORDER }
    requires short { length free.now ≤ ORDERS }
    requires within { k ≤ order }
    ensures { result ≡ free_wrong order held.now free.now k }
{
    let above = 2 * u128::from(frames_from(free, k + 1));
    let most = held.count_vacant(order, k).saturating_sub(above);
    at_most(ReportFigure::FreeBlocks(k), most, count_at(free, k).into())
}

/// Returns the greatest order of a free block, if the report has another one.
fn top_wrong(due: Option<u8>, told: Option<u8>) -> Option<WrongFigure>
    ensures { result ≡ top_wrong due told }
{
    if told == due {
        return None;
    }
    Some(WrongFigure {
        figure: ReportFigure::Top,
        bound: top_bound(due),
    })
}

fn top_bound(due: Option<u8>) -> Bound
    ensures { result ≡ option_map_or (λ k. BoundOf.Exactly k) due BoundOf.Absent }
{
    match due {
        Some(order) => Bound::Exactly(order.into()),
        None => Bound::Absent,
    }
}
