//! The rows of a table. Each begins with the same front as the table's first line: the addressee, such as `3> `.

ghost use Rattle.std.specs.Prelude.{◌≡◌, ◌<◌, ◌^◌, ℕ, List, Option};
ghost use Rattle.trace_check.specs.Forms.{Gives};
ghost use Rattle.trace_check.specs.Tables.{after_front, row_behind, rows_from, order_at, cache_row_at, unowned_at, owned_at, owner_at};

use crate::form::form_at;
use arrayvec::ArrayVec;
use model_core::owner::Owner;
use model_core::report::{CacheRow, OrderRow};

/// A row of a table.
pub trait Row: Default + Sized {
    // The row with this index at the beginning of a text, and the text that follows the row.
    ghost row_at: { ℕ → List ℕ → Option (Self × List ℕ) };

    /// Reads the row with this index at the beginning of a text, from which the front was removed. Returns the row and the text
    /// that follows it.
    fn read(index: u32, text: &[u8]) -> Option<(Self, &[u8])>
        ensures { Gives (λ found. (found.0, found.1.now)) result (row_at index text.now) };
}

/// Reads the rows that begin with this front, with indices from 0 on, until a row is missing or `N` rows were read. Returns the
/// rows and the text that follows them.
pub fn rows_at<'a, R: Row + Drop, const N: usize>(
    front: &[u8],
    text: &'a [u8],
) -> (ArrayVec<R, N>, &'a [u8])
    requires { N < 2 ^ 32 }
    ensures { rows_from R.row_at front.now N 0 text.now ≡ (result.0.items, result.1.now) }
{
    let mut rows = ArrayVec::new();
    let mut rest = text;
    for index in 0..N {
        let Some((row, after)) = row_behind(front, index as u32, rest) else {
            return (rows, rest);
        };
        rows.push(row);
        rest = after;
    }
    (rows, rest)
}

/// Reads the front, and then the row with this index. Returns the row and the text that follows it.
fn row_behind<'a, R: Row>(front: &[u8], index: u32, text: &'a [u8]) -> Option<(R, &'a [u8])>
    ensures { Gives (λ found. (found.0, found.1.now)) result (row_behind (R.row_at index) front.now text.now) }
{
    R::read(index, after_front(front, text)?)
}

/// Returns the text that follows the front, if the text begins with it.
#[tactic(auto, unfolding(crate::specs::Tables::after_front))]
fn after_front<'a>(front: &[u8], text: &'a [u8]) -> Option<&'a [u8]>
    ensures { Gives (λ rest. rest.now) result (after_front front.now text.now) }
{
    text.strip_prefix(front)
}

impl Row for OrderRow {
    ghost row_at = { order_at };

    #[tactic(auto, unfolding(crate::specs::Tables::order_at))]
    fn read(order: u32, text: &[u8]) -> Option<(OrderRow, &[u8])> {
        let ([number, free, taken], rest) = form_at::<3>(b"order # free # taken #\n", text)?;
        (number == order).then_some((OrderRow { free, taken }, rest))
    }
}

impl Row for CacheRow {
    ghost row_at = { cache_row_at };

    #[tactic(auto, unfolding(crate::specs::Tables::cache_row_at))]
    fn read(_index: u32, text: &[u8]) -> Option<(CacheRow, &[u8])> {
        let ([cache, full, partial, empty, live], rest) = form_at::<5>(
            b"cache # full # partial # empty # live #\n",
            text,
        )?;
        let row = CacheRow {
            cache: u8::try_from(cache).ok()?,
            full,
            partial,
            empty,
            live,
        };
        Some((row, rest))
    }
}

impl Row for Option<Owner> {
    ghost row_at = { owner_at };

    #[tactic(auto, unfolding(crate::specs::Tables::owner_at))]
    fn read(superblock: u32, text: &[u8]) -> Option<(Option<Owner>, &[u8])> {
        let ([number], rest) = form_at::<1>(b"superblock # ", text)?;
        if number != superblock {
            return None;
        }
        unowned_at(rest).or_else(|| owned_at(rest))
    }
}

#[tactic(auto, unfolding(crate::specs::Tables::unowned_at))]
fn unowned_at(text: &[u8]) -> Option<(Option<Owner>, &[u8])>
    ensures { Gives (λ found. (found.0, found.1.now)) result (unowned_at text.now) }
{
    let ([], rest) = form_at::<0>(b"free\n", text)?;
    Some((None, rest))
}

#[tactic(auto, unfolding(crate::specs::Tables::owned_at))]
fn owned_at(text: &[u8]) -> Option<(Option<Owner>, &[u8])>
    ensures { Gives (λ found. (found.0, found.1.now)) result (owned_at text.now) }
{
    let ([tenant, slot], rest) = form_at::<2>(b"tenant # slot #\n", text)?;
    let owner = Owner {
        tenant: u8::try_from(tenant).ok()?,
        slot: u16::try_from(slot).ok()?,
    };
    Some((Some(owner), rest))
}
