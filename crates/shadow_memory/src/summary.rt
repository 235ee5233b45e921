//! Summaries of what may have been left at some places.

ghost use Rattle.std.specs.Prelude.{◌≡◌, ℕ, true, Option, slice_index_or, slice_set};
ghost use Rattle.promise_core.specs.Bytes.{Holder, Cell};
ghost use Rattle.known_holdings.specs.Holders.{shown_holder};
ghost use Rattle.shadow_memory.specs.Summaries.{MayOwn, IsSummarizedBy, any_summary};

use known_holdings::RangeHolder;

/// The holders whose bytes may have been left at some places.
#[derive(Clone, Copy, Debug)]
pub(crate) enum Owners {
    /// No holder: nothing was left there.
    Nobody,
    /// One holder.
    One(RangeHolder),
    /// Any object of the cache with this number.
    Objects(u8),
    /// Any holder.
    Any,
}

/// What may have been left at some places: the possible holders, and whether any of the bytes may be sure. A byte is sure if it
/// is surely still there.
#[derive(Clone, Copy, Debug)]
pub(crate) struct Summary {
    pub owners: Owners,
    pub sure: bool,
}

impl Summary {
    /// The summary of places where nothing was left.
    pub const FRESH: Summary = Summary {
        owners: Owners::Nobody,
        sure: false,
    };

    /// The summary that allows anything.
    pub const ANY: Summary = Summary {
        owners: Owners::Any,
        sure: true,
    };

    /// Returns a summary that also allows sure bytes of the holder.
    pub fn with(self, holder: RangeHolder) -> Summary
        ensures more { (cell : Option Cell) → IsSummarizedBy self cell → IsSummarizedBy result cell }
        ensures owners { MayOwn result.owners (shown_holder holder) }
        ensures sure { result.sure ≡ true }
    {
        Summary {
            owners: self.owners.with(holder),
            sure: true,
        }
    }
}

impl Owners {
    /// Returns owners that include these owners and the holder.
    fn with(self, holder: RangeHolder) -> Owners
        ensures more { (h : Holder) → MayOwn self h → MayOwn result h }
        ensures owners { MayOwn result (shown_holder holder) }
    {
        match self {
            Owners::Nobody => Owners::One(holder),
            Owners::One(one) => {
                if one.is_same(&holder) {
                    self
                } else {
                    both(one, holder)
                }
            }
            Owners::Objects(number) => match holder {
                RangeHolder::Object { cache, .. } if cache == number => self,
                _ => Owners::Any,
            },
            Owners::Any => Owners::Any,
        }
    }
}

/// Returns owners that include both holders.
fn both(one: RangeHolder, other: RangeHolder) -> Owners
    ensures one { MayOwn result (shown_holder one) }
    ensures other { MayOwn result (shown_holder other) }
{
    match (one, other) {
        (RangeHolder::Object { cache, .. }, RangeHolder::Object { cache: number, .. })
            if cache == number => { Owners::Objects(cache) }
        _ => Owners::Any,
    }
}

/// Returns the summary with this number, or `Summary::ANY` if there is none.
pub(crate) fn summary_at(summaries: &[Summary], number: usize) -> Summary
    ensures { result ≡ slice_index_or summaries.now number any_summary }
{
    summaries.get(number).copied().unwrap_or(Summary::ANY)
}

/// Sets the summary with this number, if there is one.
pub(crate) fn set_summary(summaries: &mut [Summary], number: usize, summary: Summary)
    ensures { summaries.new ≡ slice_set summaries.old number summary }
{
    if number < summaries.len() {
        summaries[number] = summary;
    }
}
