//! What a report has to repeat of the last report.

ghost use Rattle.std.specs.Prelude.{◌≡◌, ◌≤◌, find, is_some, length};
ghost use Rattle.std.specs.List.{range_with_len};
ghost use Rattle.words_core.specs.declared.report.TheConstants.{ORDERS};
ghost use Rattle.reply_judge.specs.Figures.{first_wrong};
ghost use Rattle.reply_judge.specs.Repeated.{empty_changed, figure_changed, free_changed, not_repeated};
ghost use Rattle.reply_judge.specs.Seen.{state_of};

use crate::figures::{ReportFigure, WrongFigure, exactly};
use crate::tenant::Tenant;
use model_core::report::{CacheRow, OrderRow};
use words_core::Report;

impl Tenant {
    /// Returns the first number of the last report that the report has to repeat, and does not. Returns `None` if no report is
    /// valid.
    pub(crate) fn figure_changed(&self, report: &Report) -> Option<WrongFigure>
        ensures { result ≡ figure_changed (state_of self.now) report.now }
    {
        match &self.last_report {
            Some(last) => not_repeated(last, report),
            None => None,
        }
    }
}

/// Returns the first number of the last report that the report does not repeat.
fn not_repeated(last: &Report, now: &Report) -> Option<WrongFigure>
    ensures { result ≡ not_repeated last.now now.now }
{
    match first_free_changed(last.orders.as_slice(), now.orders.as_slice()) {
        Some(wrong) => Some(wrong),
        None => first_empty_changed(last.caches.as_slice(), now.caches.as_slice()),
    }
}

fn first_free_changed(before: &[OrderRow], now: &[OrderRow]) -> Option<WrongFigure>
    requires { length before.now ≤ ORDERS }
    ensures { result ≡ first_wrong (free_changed before.now now.now) (length before.now) }
{
    match order_changed(before, now) {
        Some(order) => free_changed(before, now, order),
        None => None,
    }
}

/// Returns the first order whose number of free blocks is another one in the rows `now`.
fn order_changed(before: &[OrderRow], now: &[OrderRow]) -> Option<u8>
    requires { length before.now ≤ ORDERS }
    ensures { result
        ≡ find (λ k. is_some (free_changed before.now now.now k)) (range_with_len 0 (length before.now)) }
{
    (0..before.len() as u8).find(|order| free_changed(before, now, *order).is_some())
}

/// Returns the number of free blocks of this order, if it is another one in the rows `now`.
fn free_changed(before: &[OrderRow], now: &[OrderRow], order: u8) -> Option<WrongFigure>
    ensures { result ≡ free_changed before.now now.now order }
{
    let (i, figure) = (usize::from(order), ReportFigure::FreeBlocks(order));
    let (last, row) = (before.get(i)?, now.get(i)?);
    exactly(figure, last.free.into(), row.free.into())
}

fn first_empty_changed(before: &[CacheRow], now: &[CacheRow]) -> Option<WrongFigure>
    ensures { result ≡ first_wrong (empty_changed before.now now.now) (length before.now) }
{
    match row_changed(before, now) {
        Some(index) => empty_changed(before, now, index),
        None => None,
    }
}

/// Returns the index of the first cache row whose number of empty slabs is another one in the rows `now`.
fn row_changed(before: &[CacheRow], now: &[CacheRow]) -> Option<usize>
    ensures { result
        ≡ find (λ i. is_some (empty_changed before.now now.now i)) (range_with_len 0 (length before.now)) }
{
    (0..before.len()).find(|index| empty_changed(before, now, *index).is_some())
}

/// Returns the number of empty slabs in the cache row with this index, if it is another one in the rows `now`.
fn empty_changed(before: &[CacheRow], now: &[CacheRow], index: usize) -> Option<WrongFigure>
    ensures { result ≡ empty_changed before.now now.now index }
{
    let (last, row) = (before.get(index)?, now.get(index)?);
    exactly(
        ReportFigure::EmptySlabs(last.cache),
        last.empty.into(),
        row.empty.into(),
    )
}
