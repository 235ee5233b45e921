//! Verdicts on reports. A report that keeps every promise is followed: it is stored as the last report. Slots have `2^order`
//! frames. `may_have_empty`, indexed by cache number, says which caches may have an empty slab. `last_report` is the last report, or
//! `None` if there is none or if it is no longer valid.

ghost use Rattle.std.specs.Prelude.{◌≡◌, ℕ, ◌+◌, ◌*◌, ◌^◌, ◌≤◌, ◌<◌, ◌==◌, ◌&&◌, nat_le, drop, length, slice_index, slice_index_or, false, true};
ghost use Rattle.std.specs.List.{list_all, range_with_len, zip};
ghost use Rattle.std.specs.Option.{option_copied, option_map_or, option_eq};
ghost use Rattle.model_core.specs.declared.limits.TheConstants.{MAX_ORDER};
ghost use Rattle.model_core.specs.Reports.{greatest, split_share};
ghost use Rattle.words_core.specs.declared.event.Event.TheVariants as On;
ghost use Rattle.words_core.specs.declared.event.Command.TheVariants as Asked;
ghost use Rattle.words_core.specs.declared.reply.Body.TheVariants as Say;
ghost use Rattle.promise_core.specs.Holdings.{vacant_blocks};
ghost use Rattle.promise_core.specs.State.{State, Known};
ghost use Rattle.promise_core.specs.Promises.{report, frames_of_counts, known_count};
ghost use Rattle.reply_judge.specs.Judged.{IsVerdictFor, failing};

use crate::counts::{count_at, counts_of, frames_from, frames_of_counts, greatest, split_share};
use crate::rows::are_rows;
use crate::taken::are_taken;
use crate::tenant::Tenant;
use crate::verdict::{Verdict, on_still_answer};
use known_holdings::Held;
use model_core::report::{CacheRow, OrderRow};
use promise_core::promise::Promise;
use words_core::{CACHES, Command, ORDERS, Report};

impl Tenant {
    /// Judges and follows a report in reply to the command.
    pub(crate) fn judge_rows(&mut self, command: &Command, report: &Report) -> Verdict
        ensures { (t : ℕ) (w : Known)
            → IsVerdictFor (On.Tenant t command.now) (Say.Report report.now) w self.old self.new (failing result) }
    {
        match command {
            Command::Report => self.judge_report(report),
            _ => Err(Promise::Form),
        }
    }

    /// Judges and follows a requested report. Not inlined, so that no caller clears memory for the copy of the report on entry.
    #[inline(never)]
    fn judge_report(&mut self, report: &Report) -> Verdict
        ensures { (t : ℕ) (w : Known)
            → IsVerdictFor (On.Tenant t Asked.Report) (Say.Report report.now) w self.old self.new (failing result) }
    {
        let is_right = tells_state(&self.held, self.left.order(), &self.may_have_empty, report);
        let is_still = tells_same(self.last_report.as_ref(), report);
        on_still_answer(None, Promise::Report, is_right, is_still)?;
        self.last_report = Some(copy_of(report));
        Ok(())
    }
}

/// Returns whether the report's figures are right for what the tenant has.
fn tells_state(held: &Held, order: u8, may_have_empty: &[bool], r: &Report) -> bool
    requires { order ≤ MAX_ORDER }
    ensures { (t : ℕ) (w : Known) (s : State) → result ≡ report (On.Tenant t Asked.Report) (Say.Report r.now)
        (record w { order = order }) (record s { has = held.now; may_have_empty = λ n. slice_index_or may_have_empty.now n false }) }
{
    let (free, taken) = counts_of(&r.orders);
    let (free, taken) = (free.as_slice(), taken.as_slice());
    let rows = r.caches.as_slice();
    are_all(&[
        has_rows(held, order, free, rows),
        has_frames(held, order, r, free, taken),
        is_split(order, r, free),
        are_rows(held.caches(), may_have_empty, rows),
        are_all_taken(held, order, rows, taken),
        have_room(held, order, free),
    ])
}

/// Returns whether all of these tests passed.
fn are_all(tests: &[bool]) -> bool
    ensures { result ≡ list_all (λ is_passed. is_passed) tests.now }
{
    tests.iter().all(|is_passed| *is_passed)
}

/// Returns whether there is a row for each order and a row for each cache.
fn has_rows(held: &Held, order: u8, free: &[u32], rows: &[CacheRow]) -> bool
    ensures { result ≡ (length free.now == order + 1 && length rows.now == length held.now.caches) }
{
    free.len() == usize::from(order) + 1 && rows.len() == held.caches().len()
}

/// Returns whether the report's numbers of frames are right. Its number of all frames must be the number of frames in the held
/// slots, and the sum of its numbers of live and of free frames. Its number of free frames must be the number of frames in the
/// free blocks of its rows, and its number of live frames the number of frames in the taken blocks of its rows.
fn has_frames(held: &Held, order: u8, r: &Report, free: &[u32], taken: &[u32]) -> bool
    requires order { order ≤ MAX_ORDER }
    requires free { length free.now ≤ ORDERS }
    requires taken { length taken.now ≤ ORDERS }
    ensures { result ≡ ((r.now.frames == length held.now.slots * 2 ^ order && r.now.live + r.now.free == r.now.frames)
        && (r.now.free == frames_of_counts free.now && r.now.live == frames_of_counts taken.now)) }
{
    (u128::from(r.frames) == held.slots().len() as u128 * (1u128 << order)
        && u64::from(r.live) + u64::from(r.free) == u64::from(r.frames))
        && (u64::from(r.free) == frames_of_counts(free)
            && u64::from(r.live) == frames_of_counts(taken))
}

/// Returns whether the report's greatest order of a free block, and its share of free frames outside one block of that order,
/// agree with its other figures.
#[tactic(auto, using(crate::proofs::Lists::same_share))]
fn is_split(order: u8, r: &Report, free: &[u32]) -> bool
    requires { order ≤ MAX_ORDER }
    ensures { result ≡ (option_eq (λ i j. i == j) r.now.top (greatest (slice_index free.now) (order + 1))
        && r.now.split == split_share r.now.free r.now.top) }
{
    let top = greatest(free, order + 1);
    r.top == top && r.split == split_share(r.free, top)
}

/// Returns whether, for each order, the reported number of taken blocks is the number of page blocks plus the number of slabs in
/// the rows.
fn are_all_taken(held: &Held, order: u8, rows: &[CacheRow], taken: &[u32]) -> bool
    requires order { order ≤ MAX_ORDER }
    requires rows { length rows.now ≤ CACHES }
    ensures { result ≡ list_all (λ k. slice_index taken.now k == known_count held.now rows.now k) (range_with_len 0 (order + 1)) }
{
    (0..order + 1).all(|k| are_taken(held, rows, k, count_at(taken, k)))
}

/// Returns whether the reported free blocks of each order can exist, together with those of greater orders. One pass over the
/// held slots counts the vacant blocks of all orders.
#[tactic(auto, using(crate::proofs::Lists::all_from))]
fn have_room(held: &Held, order: u8, free: &[u32]) -> bool
    requires order { order ≤ MAX_ORDER }
    requires short { length free.now ≤ ORDERS }
    ensures { result ≡ list_all (λ k. nat_le (frames_of_counts (drop k free.now)) (length (vacant_blocks order held.now k)))
        (range_with_len 0 (order + 1)) }
{
    let vacant = held.vacant_by_order(order);
    for k in 0..order + 1 {
        if u128::from(frames_from(free, k)) > vacant[k as usize] {
            return false;
        }
    }
    true
}

/// Returns whether the report has the same free blocks and empty slabs as the last report. Returns true if no report is valid.
fn tells_same(last_report: Option<&Report>, r: &Report) -> bool
    ensures { result ≡ option_map_or (λ q. list_all (λ p. p.0.free == p.1.free) (zip q.orders.items r.now.orders.items)
        && list_all (λ p. p.0.empty == p.1.empty) (zip q.caches.items r.now.caches.items)) (option_copied last_report.entry) true }
{
    match last_report {
        Some(q) => are_as_free(q.orders.as_slice(), r.orders.as_slice())
            && are_as_empty(q.caches.as_slice(), r.caches.as_slice()),
        None => true,
    }
}

fn are_as_free(before: &[OrderRow], now: &[OrderRow]) -> bool
    ensures { result ≡ list_all (λ p. p.0.free == p.1.free) (zip before.now now.now) }
{
    before.iter().zip(now).all(|(a, b)| a.free == b.free)
}

fn are_as_empty(before: &[CacheRow], now: &[CacheRow]) -> bool
    ensures { result ≡ list_all (λ p. p.0.empty == p.1.empty) (zip before.now now.now) }
{
    before.iter().zip(now).all(|(a, b)| a.empty == b.empty)
}

/// Returns a copy of the report.
fn copy_of(report: &Report) -> Report
    ensures { result ≡ report.now }
{
    Report {
        frames: report.frames,
        live: report.live,
        free: report.free,
        top: report.top,
        split: report.split,
        orders: known_holdings::copy_of(&report.orders),
        caches: known_holdings::copy_of(&report.caches),
    }
}
