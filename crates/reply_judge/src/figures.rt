//! Numbers in reports, and what they have to be.

ghost use Rattle.std.specs.Prelude.{◌≡◌, find, is_some};
ghost use Rattle.reply_judge.specs.Figures.{at_most, exactly, first_found};

use crate::bound::Bound;

/// A number in a report.
#[derive(Clone, Copy, Debug)]
pub enum ReportFigure {
    /// The number of rows of orders.
    OrderRows,
    /// The number of rows of caches.
    CacheRows,
    /// The number of frames.
    Frames,
    /// The number of live frames.
    Live,
    /// The number of free frames.
    Free,
    /// The number of frames in the free blocks of all rows.
    FreeInRows,
    /// The greatest order of a free block.
    Top,
    /// The share of the free frames that are outside the largest free block.
    Split,
    /// The number of free blocks of this order.
    FreeBlocks(u8),
    /// The number of taken blocks of this order.
    TakenBlocks(u8),
    /// The number of the cache in the row of a cache with this index.
    CacheOf(usize),
    /// The number of full slabs of the cache with this number.
    FullSlabs(u8),
    /// The number of partial slabs of the cache with this number.
    PartialSlabs(u8),
    /// The number of empty slabs of the cache with this number.
    EmptySlabs(u8),
    /// The number of live objects of the cache with this number.
    LiveObjects(u8),
}

/// A wrong number in a report, and what it has to be.
#[derive(Clone, Copy, Debug)]
pub struct WrongFigure {
    pub figure: ReportFigure,
    pub bound: Bound,
}

/// Returns the number that is due, if the report has another one.
pub(crate) fn exactly(figure: ReportFigure, due: u128, told: u128) -> Option<WrongFigure>
    ensures { result ≡ exactly figure due told }
{
    if told == due {
        return None;
    }
    Some(WrongFigure {
        figure,
        bound: Bound::Exactly(due),
    })
}

/// Returns the largest number that is allowed, if the report has a larger one.
pub(crate) fn at_most(figure: ReportFigure, most: u128, told: u128) -> Option<WrongFigure>
    ensures { result ≡ at_most figure most told }
{
    if told <= most {
        return None;
    }
    Some(WrongFigure {
        figure,
        bound: Bound::AtMost(most),
    })
}

/// Returns the first wrong number among these, if there is one.
pub(crate) fn first_found(found: &[Option<WrongFigure>]) -> Option<WrongFigure>
    ensures { result ≡ first_found found.now }
{
    match first_some(found) {
        Some(wrong) => wrong,
        None => None,
    }
}

fn first_some(found: &[Option<WrongFigure>]) -> Option<Option<WrongFigure>>
    ensures { result ≡ find is_some found.now }
{
    found.iter().copied().find(|wrong| wrong.is_some())
}
