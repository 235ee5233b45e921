//! The changes that replies make to what was left at a place.

ghost use Rattle.std.specs.Prelude.{◌≡◌, ℕ, ◌+◌, ◌-◌, ◌^◌, ◌<◌, ◌≤◌, Bool, true, false, not, length, Option, None};
ghost use Rattle.promise_core.specs.Bytes.{Cell, with_bytes};
ghost use Rattle.known_holdings.specs.Holders.{shown_holder};
ghost use Rattle.shadow_memory.specs.Inside.{CellStep, shown_kept, doubted_of, removed_of};
ghost use Rattle.shadow_memory.specs.Summaries.{IsSummarizedBy, IsChanged};

use crate::holder_predicates::{HolderPredicate, fails_all, passes_all};
use crate::kept::KeptByte;
use crate::summary::Summary;
use known_holdings::{LeftByte, RangeHolder};

/// A change of what was left at places.
pub(crate) trait Change {
    ghost step: { Self → CellStep };

    /// Changes the stored bytes at the indices `low..high`. Index 0 is the place `first`.
    fn change_places(&self, cells: &mut [KeptByte], first: u64, low: usize, high: usize)
        requires order { low ≤ high }
        requires most { high ≤ length cells.old }
        requires low { first + length cells.old ≤ 2 ^ 32 }
        ensures { IsChanged (step self.now) first low high cells.old cells.new };

    /// Returns whether the change may leave a byte at a place where nothing was left.
    fn adds(&self) -> bool
        ensures { result ≡ false → (place : ℕ) → step self.now place None ≡ None };

    /// Returns true only if the change has no effect at any place with this summary.
    fn leaves(&self, summary: Summary) -> bool
        ensures { result ≡ true → (place : ℕ) (cell : Option Cell) → IsSummarizedBy summary cell → step self.now place cell ≡ cell };

    /// Returns a summary of some places after the change. `summary` is their summary before the change. `all` is true if the
    /// change is made at all of these places, and false if it may be made at only some of them.
    fn summary_after(&self, summary: Summary, all: bool) -> Summary
        ensures changed { (place : ℕ) (cell : Option Cell) → IsSummarizedBy summary cell → IsSummarizedBy result (step self.now place cell) }
        ensures kept { all ≡ false → (cell : Option Cell) → IsSummarizedBy summary cell → IsSummarizedBy result cell };
}

/// The change that puts in doubt the bytes of every holder that passes the test.
#[derive(Drop)]
pub(crate) struct Doubt<T>(pub T);

impl<T: HolderPredicate> Doubt<T> {
    /// Returns the stored byte after the change.
    fn doubted(&self, kept: KeptByte) -> KeptByte
        ensures { (place : ℕ) → shown_kept result ≡ doubted_of (T.test self.now.0) place (shown_kept kept) }
    {
        match kept.left() {
            Some(left) => {
                if self.0.passes(left.holder) {
                    KeptByte::of(LeftByte {
                        holder: left.holder,
                        byte: left.byte,
                        sure: false,
                    })
                } else {
                    kept
                }
            }
            None => kept,
        }
    }
}

impl<T: HolderPredicate> Change for Doubt<T> {
    ghost step = { λ d. doubted_of (T.test d.0) };

    fn change_places(&self, cells: &mut [KeptByte], _first: u64, low: usize, high: usize) {
        for k in low..high {
            cells[k] = self.doubted(cells[k]);
        }
    }

    fn adds(&self) -> bool {
        false
    }

    fn leaves(&self, summary: Summary) -> bool {
        !summary.sure || fails_all(&self.0, summary.owners)
    }

    fn summary_after(&self, summary: Summary, all: bool) -> Summary {
        if all && passes_all(&self.0, summary.owners) {
            Summary {
                owners: summary.owners,
                sure: false,
            }
        } else {
            summary
        }
    }
}

/// The change that forgets the bytes of every holder that passes the test.
#[derive(Drop)]
pub(crate) struct Remove<T>(pub T);

impl<T: HolderPredicate> Remove<T> {
    /// Returns the stored byte after the change.
    fn without(&self, kept: KeptByte) -> KeptByte
        ensures { (place : ℕ) → shown_kept result ≡ removed_of (T.test self.now.0) place (shown_kept kept) }
    {
        match kept.left() {
            Some(left) => {
                if self.0.passes(left.holder) {
                    KeptByte::Fresh
                } else {
                    kept
                }
            }
            None => kept,
        }
    }
}

impl<T: HolderPredicate> Change for Remove<T> {
    ghost step = { λ d. removed_of (T.test d.0) };

    fn change_places(&self, cells: &mut [KeptByte], _first: u64, low: usize, high: usize) {
        for k in low..high {
            cells[k] = self.without(cells[k]);
        }
    }

    fn adds(&self) -> bool {
        false
    }

    fn leaves(&self, summary: Summary) -> bool {
        fails_all(&self.0, summary.owners)
    }

    fn summary_after(&self, summary: Summary, all: bool) -> Summary {
        if all && passes_all(&self.0, summary.owners) {
            Summary::FRESH
        } else {
            summary
        }
    }
}

/// The change that stores these bytes at the places from `begin` on, as bytes that the holder left.
#[derive(Drop)]
pub(crate) struct Put<'a> {
    pub holder: RangeHolder,
    pub begin: u32,
    pub bytes: &'a [u8],
}

impl<'a> Change for Put<'a> {
    ghost step = { λ d place cell. with_bytes (shown_holder d.holder) d.begin d.bytes.now (λ _. cell) place };

    // Not inlined, so that the facts about `begin` and `end` are not worked out again for each chunk.
    #[inline(never)]
    fn change_places(&self, cells: &mut [KeptByte], first: u64, low: usize, high: usize) {
        let Put {
            holder,
            begin: place,
            bytes,
        } = *self;
        let begin = u64::from(place);
        let end = begin + bytes.len() as u64;
        let from = begin.saturating_sub(first).max(low as u64).min(high as u64);
        let to = end.saturating_sub(first).min(high as u64).max(from);
        for k in from..to {
            cells[k as usize] = KeptByte::of(LeftByte {
                holder,
                byte: bytes[(first + k - begin) as usize],
                sure: true,
            });
        }
    }

    fn adds(&self) -> bool {
        true
    }

    fn leaves(&self, _mark: Summary) -> bool {
        false
    }

    fn summary_after(&self, summary: Summary, _all: bool) -> Summary {
        summary.with(self.holder)
    }
}
