//! The figures of a tenant's memory, and their lines.

ghost use Rattle.std.specs.Prelude.{◌≡◌, ◌+◌, ◌<◌, ◌≤◌, ◌++◌, length, slice_get, take, Some};
ghost use Rattle.words_core.specs.ReportTexts.{top_text, frames_text, order_text, cache_text, report_texts};

use crate::answer::MAX_FRONT_BYTES;
use crate::numbers::MAX_DIGITS;
use crate::text::MAX_REPLY_BYTES;
use crate::window::{put_labelled, put_number, put_text};
use arrayvec::ArrayVec;
use model_core::limits::{MAX_CACHES, WIDE_ORDER};
use model_core::report::{CacheRow, OrderRow};

/// Capacity of a list with one row for each order that a block may have.
pub const ORDERS: usize = WIDE_ORDER as usize + 1;

/// Capacity of a list with one row for each cache of a tenant.
pub const CACHES: usize = MAX_CACHES as usize;

/// The figures of a tenant's memory.
#[derive(Debug, Drop, PartialEq, Eq)]
pub struct Report {
    /// The number of frames in the tenant's slots.
    pub frames: u32,
    /// The number of these frames that are in taken blocks: page blocks and slabs, including empty slabs.
    pub live: u32,
    /// The number of these frames that are in free blocks.
    pub free: u32,
    /// The greatest order of a free block, if there is one.
    pub top: Option<u8>,
    /// The share of the free frames that are outside the largest free block, in thousandths, rounded up. If several free blocks
    /// have the greatest order, only one of them counts as the largest. The share is 0 if there is no free block.
    pub split: u32,
    /// The numbers of free and taken blocks of each order, beginning with order 0.
    pub orders: ArrayVec<OrderRow, ORDERS>,
    /// The numbers of slabs and live objects of each cache, in ascending order of cache numbers.
    pub caches: ArrayVec<CacheRow, CACHES>,
}

/// Writes one row of a report after the first `at` bytes, as a line without its line feed, and returns the index of its end. Rows
/// are counted from 0. The functions below also write after the first `at` bytes and return the end.
pub(crate) fn put_report(report: &Report, row: usize, at: usize, out: &mut [u8]) -> usize
    requires row { row < length (report_texts (take at out.old) report.now) }
    requires front { at ≤ MAX_FRONT_BYTES }
    requires space { MAX_REPLY_BYTES ≤ length out.old }
    ensures text { slice_get (report_texts (take at out.old) report.now) row ≡ Some (take result out.new) }
    ensures short { result < MAX_REPLY_BYTES }
{
    let Some(order) = row.checked_sub(1) else {
        return put_frames(report, at, out);
    };
    let orders = report.orders.as_slice();
    let caches = report.caches.as_slice();
    match order.checked_sub(orders.len()) {
        None => put_order(order as u32, orders[order], at, out),
        Some(cache) => put_cache_row(caches[cache], at, out),
    }
}

/// Writes the line about the frames.
#[inline(never)]
fn put_frames(report: &Report, at: usize, out: &mut [u8]) -> usize
    requires front { at ≤ MAX_FRONT_BYTES }
    requires space { MAX_REPLY_BYTES ≤ length out.old }
    ensures text { take result out.new ≡ frames_text (take at out.old) report.now }
    ensures short { result < MAX_REPLY_BYTES }
{
    let at = put_labelled(b"frames ", report.frames, at, out);
    let at = put_labelled(b" live ", report.live, at, out);
    let at = put_labelled(b" free ", report.free, at, out);
    let at = put_text(b" top ", at, out);
    let at = put_top(report.top, at, out);
    put_labelled(b" split ", report.split, at, out)
}

fn put_top(top: Option<u8>, at: usize, out: &mut [u8]) -> usize
    requires { at + MAX_DIGITS ≤ length out.old }
    ensures text { take result out.new ≡ take at out.old ++ top_text top }
    ensures short { result ≤ at + MAX_DIGITS }
{
    match top {
        None => put_text(b"none", at, out),
        Some(order) => put_number(u32::from(order), at, out),
    }
}

/// Writes the line of an order: the numbers of its free and taken blocks.
#[inline(never)]
fn put_order(order: u32, row: OrderRow, at: usize, out: &mut [u8]) -> usize
    requires front { at ≤ MAX_FRONT_BYTES }
    requires space { MAX_REPLY_BYTES ≤ length out.old }
    ensures text { take result out.new ≡ order_text (take at out.old) order row }
    ensures short { result < MAX_REPLY_BYTES }
{
    let at = put_labelled(b"order ", order, at, out);
    let at = put_labelled(b" free ", row.free, at, out);
    put_labelled(b" taken ", row.taken, at, out)
}

/// Writes the line of a cache: the numbers of its full, partial and empty slabs and of its live objects.
#[inline(never)]
fn put_cache_row(row: CacheRow, at: usize, out: &mut [u8]) -> usize
    requires front { at ≤ MAX_FRONT_BYTES }
    requires space { MAX_REPLY_BYTES ≤ length out.old }
    ensures text { take result out.new ≡ cache_text (take at out.old) row }
    ensures short { result < MAX_REPLY_BYTES }
{
    let at = put_labelled(b"cache ", u32::from(row.cache), at, out);
    let at = put_labelled(b" full ", row.full, at, out);
    let at = put_labelled(b" partial ", row.partial, at, out);
    let at = put_labelled(b" empty ", row.empty, at, out);
    put_labelled(b" live ", row.live, at, out)
}
