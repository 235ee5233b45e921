//! The numbers of blocks in a report.

ghost use Rattle.std.specs.Prelude.{◌≡◌, ℕ, ◌+◌, ◌*◌, ◌^◌, ◌≤◌, ◌<◌, length, map, drop, slice_index, Some, IfSome};
ghost use Rattle.model_core.specs.Reports.{greatest, split_share as share};
ghost use Rattle.model_core.specs.declared.limits.TheConstants.{MAX_ORDER, WIDE_ORDER};
ghost use Rattle.promise_core.specs.Promises.{frames_of_counts};

use arrayvec::ArrayVec;
use model_core::report::OrderRow;
use words_core::ORDERS;

/// Returns the numbers of free blocks and of taken blocks in these rows.
pub(crate) fn counts_of(
    rows: &ArrayVec<OrderRow, ORDERS>,
) -> (ArrayVec<u32, ORDERS>, ArrayVec<u32, ORDERS>)
    ensures free { result.0.items ≡ map (λ row. row.free) rows.now.items }
    ensures taken { result.1.items ≡ map (λ row. row.taken) rows.now.items }
{
    let mut free = ArrayVec::new();
    let mut taken = ArrayVec::new();
    for row in rows.as_slice() {
        free.push(row.free);
        taken.push(row.taken);
    }
    (free, taken)
}

/// Returns the total number of frames in `counts[k]` blocks of each order `k`.
pub(crate) fn frames_of_counts(counts: &[u32]) -> u64
    requires { length counts.now ≤ ORDERS }
    ensures { result ≡ frames_of_counts counts.now }
{
    let mut frames = 0u64;
    for order in 0..counts.len() {
        frames += frames_in(counts[order], order as u8);
    }
    frames
}

/// Returns the number of frames in `count` blocks of an order.
pub(crate) fn frames_in(count: u32, order: u8) -> u64
    requires { order ≤ WIDE_ORDER }
    ensures value { result ≡ count * 2 ^ order }
    ensures most { result ≤ 2 ^ 42 }
{
    u64::from(count) * (1u64 << order)
}

/// Returns the total size of the counted blocks of order `k` and above, in units of `2^k` frames.
pub(crate) fn frames_from(counts: &[u32], k: u8) -> u64
    requires { length counts.now ≤ ORDERS }
    ensures { result ≡ frames_of_counts (drop k counts.now) }
{
    let k = usize::from(k);
    if k < counts.len() {
        frames_of_counts(&counts[k..])
    } else {
        0
    }
}

/// Returns the count of this order, or 0 if there is none.
pub(crate) fn count_at(counts: &[u32], order: u8) -> u32
    ensures { result ≡ slice_index counts.now order }
{
    counts.get(usize::from(order)).copied().unwrap_or(0)
}

/// Returns the greatest order below `end` with a count other than 0, or `None` if there is none.
pub(crate) fn greatest(counts: &[u32], end: u8) -> Option<u8>
    ensures value { result ≡ greatest (slice_index counts.now) end }
    ensures small { IfSome result (λ k. k < end) }
{
    let mut top = None;
    for order in 0..end {
        if count_at(counts, order) != 0 {
            top = Some(order);
        }
    }
    top
}

/// Returns the share of the free frames that lie outside one block of order `top`, in thousandths. `free` is the number of free
/// frames, and `top` is the greatest order of a free block. Returns 0 if `top` is `None`. Returns 1000 if `top` is an order but
/// `free` is 0.
pub(crate) fn split_share(free: u32, top: Option<u8>) -> u32
    requires { IfSome top (λ k. k ≤ MAX_ORDER) }
    ensures { result ≡ share free top }
{
    let Some(order) = top else {
        return 0;
    };
    if free == 0 {
        return 1000;
    }
    1000u32.saturating_sub((1000 << order) / free)
}
