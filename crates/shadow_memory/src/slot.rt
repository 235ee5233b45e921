//! What was left in a slot: for each place, a byte and the page block or object that left it, or nothing.

ghost use Rattle.std.specs.Prelude.{◌≡◌, ℕ, ◌+◌, ◌-◌, ◌*◌, ◌^◌, ◌<◌, ◌≤◌, Option, None, IfOk, length, option_map, replicate, slice_index_or};
ghost use Rattle.known_holdings.specs.Holders.{shown_cell};
ghost use Rattle.shadow_memory.specs.declared.kept.KeptByte.TheVariants as Kept;
ghost use Rattle.std.specs.Vec.{vec_capacity};
ghost use Rattle.shadow_memory.specs.Inside.{padded, shown_kept, within};

use crate::change::Change;
use crate::kept::KeptByte;
use crate::ranges::{CHUNK, FRAME, change_range};
use crate::summary::Summary;
use known_holdings::LeftByte;
use std::alloc::{AllocError, Global};
use std::marker::Model;

/// A slot, and what was left at each of its places.
#[derive(Debug, Drop)]
pub(crate) struct SlotBytes {
    slot: u16,
    /// The number of places in the slot.
    places: usize,
    /// The stored bytes of the first places of the slot. Nothing was left at the places behind them. The capacity is enough for
    /// all places.
    cells: Vec<KeptByte>,
    /// The summary of each chunk.
    chunks: Vec<Summary>,
    /// The summary of each frame.
    frames: Vec<Summary>,
}

impl Model for SlotBytes {
    ghost use Rattle.std.specs.Prelude.{◌≤◌, length, map};
    ghost use Rattle.std.specs.Vec.{vec_capacity};
    ghost use Rattle.shadow_memory.specs.Left.{LeftSlot};
    ghost use Rattle.shadow_memory.specs.Inside.{padded, shown_kept};
    ghost use Rattle.shadow_memory.specs.Summaries.{AreSummarized};

    ghost Value = { LeftSlot };

    ghost view = { λ s. record { slot = s.slot; cells = map shown_kept (padded s.places s.cells.items) } };

    ghost invariant = { λ s. AreSummarized 64 s.chunks.items s.cells.items × AreSummarized 4096 s.frames.items s.cells.items
        × (length s.cells.items ≤ s.places) × (s.places ≤ vec_capacity s.cells) };
}

impl SlotBytes {
    /// Returns a slot with `places` places, where nothing was left. Fails if memory runs out.
    pub fn fresh(alloc: Global, slot: u16, places: usize) -> Result<SlotBytes, AllocError>
        ensures { IfOk result (λ s. s ≡ record { slot = slot; cells = replicate places None }) }
    {
        Ok(SlotBytes {
            slot,
            places,
            cells: Vec::with_capacity(alloc, places)?,
            chunks: vec![in alloc; Summary::FRESH; places / CHUNK]?,
            frames: vec![in alloc; Summary::FRESH; places / FRAME]?,
        })
    }

    /// Returns the number of the slot.
    pub fn slot(&self) -> u16
        ensures { result ≡ self.now.slot }
    {
        self.slot
    }

    /// Returns what was left `index` places after the slot's first place, or `None` if nothing was left there.
    pub fn at(&self, index: usize) -> Option<LeftByte>
        ensures { option_map shown_cell result ≡ slice_index_or self.now.cells index None }
    {
        kept_at(&self.cells, index).left()
    }

    /// Returns the stored bytes that begin `index` places after the slot's first place. They may end before the slot does.
    pub fn kept_from(&self, index: usize) -> &[KeptByte]
        ensures len { length result.now ≤ length self.now.cells - index }
        ensures kept { (j : ℕ) → j < length result.now → shown_kept (slice_index_or result.now j Kept.Fresh)
            ≡ slice_index_or self.now.cells (index + j) None }
    {
        match self.cells.get(index..) {
            Some(kept) => kept,
            None => &[],
        }
    }

    /// Changes what was left at the places in `begin..end`. The slot begins at the place `first`.
    pub fn change<C: Change>(&mut self, first: u64, begin: u64, end: u64, change: &C)
        requires { first + length self.old.cells ≤ 2 ^ 32 }
        ensures slot { self.new.slot ≡ self.old.slot }
        ensures len { length self.new.cells ≡ length self.old.cells }
        ensures cells { (k : ℕ) → k < length self.old.cells → slice_index_or self.new.cells k None
            ≡ within begin end (C.step change.now) (first + k) (slice_index_or self.old.cells k None) }
    {
        if end <= first || first + self.places as u64 <= begin {
            return;
        }
        make_room(&mut self.cells, self.places, first, end, change);
        change_range(
            &mut self.cells,
            &mut self.chunks,
            &mut self.frames,
            first,
            begin,
            end,
            change,
        );
    }
}

/// If the change may leave a byte where nothing was left, extends the stored bytes to all places of the slot below `end`. The
/// slot begins at the place `first`.
fn make_room<C: Change>(cells: &mut Vec<KeptByte>, places: usize, first: u64, end: u64, change: &C)
    requires few { length cells.old.items ≤ places }
    requires room { places ≤ vec_capacity cells.old }
    ensures same { (k : ℕ) → slice_index_or cells.new.items k Kept.Fresh ≡ slice_index_or cells.old.items k Kept.Fresh }
    ensures behind { (begin k : ℕ) → length cells.new.items ≤ k → k < places
        → within begin end (C.step change.now) (first + k) None ≡ None }
    ensures few { length cells.new.items ≤ places }
    ensures room { places ≤ vec_capacity cells.new }
{
    if !change.adds() {
        return;
    }
    let wanted = end.saturating_sub(first).min(places as u64) as usize;
    grow(cells, wanted);
}

/// Extends the stored bytes to `wanted` places, if there are fewer. Nothing was left at the new places.
fn grow(cells: &mut Vec<KeptByte>, wanted: usize)
    requires { wanted ≤ vec_capacity cells.old }
    ensures items { cells.new.items ≡ padded wanted cells.old.items }
    ensures room { vec_capacity cells.old ≤ vec_capacity cells.new }
{
    if cells.len() < wanted {
        cells.resize(wanted, KeptByte::Fresh).unwrap();
    }
}

/// Returns the stored byte at the index, or `Fresh` if the index is past the end.
fn kept_at(cells: &[KeptByte], index: usize) -> KeptByte
    ensures { result ≡ slice_index_or cells.now index Kept.Fresh }
{
    cells.get(index).copied().unwrap_or(KeptByte::Fresh)
}
