//! The tones of the rows of a column.

ghost use Rattle.std.specs.Prelude.{◌≡◌, ℕ, ◌+◌, ◌-◌, ◌^◌, ◌<◌, ◌≤◌, ◌==◌, List, Some, min, length, take, count_by, slice_get, slice_index, slice_index_or};
ghost use Rattle.model_core.specs.declared.limits.TheConstants.{WIDE_ORDER};
ghost use Rattle.frame_picture.specs.Kinds.{rank_of};
ghost use Rattle.frame_picture.specs.Rows.{cells_in, row_cells, kind_count, first_of, end_of};
ghost use Rattle.frame_picture.specs.Owned.{IsOwn};
ghost use Rattle.frame_picture.specs.Tones.{is_tone, not_held, taken_cells, drawn_kinds, quarters_of, IsMostCommon, IsRowTone};
ghost use Rattle.frame_picture.specs.declared.history.Column.{Column};
ghost use Rattle.frame_picture.specs.declared.drawing.Tone.{Tone};

use crate::grid::Grid;
use crate::history::{Column, Sheet};
use crate::kinds::{KINDS, TAKEN_KINDS, of_rank, rank};
use crate::owned::OwnSheets;
use kernel_core::FrameKind;

/// The largest number of rows of a band.
pub const MAX_ROWS: usize = 256;

/// The tone of a row.
#[derive(Clone, Copy, Debug)]
pub struct Tone {
    /// The most common kind of the row's taken frames. If no frame is taken: free or not held, whichever is more common.
    pub kind: FrameKind,
    /// How many quarters of the row's frames are taken, rounded up: 0 to 4.
    pub quarters: u8,
}

impl Tone {
    /// The tone of a row in which nothing is held.
    pub const NOT_HELD: Tone = Tone {
        kind: FrameKind::NotHeld,
        quarters: 0,
    };
}

/// Returns whether the tones are equal.
pub fn is_tone(tone: Tone, cell: Tone) -> bool
    ensures { result ≡ is_tone tone cell }
{
    rank(cell.kind) == rank(tone.kind) && cell.quarters == tone.quarters
}

/// Sets `cells[i]` to the tones of tenant `t`'s rows in `columns[i]`, for each index `i` that both slices have.
pub fn set_cells(cells: &mut [[Tone; MAX_ROWS]], columns: &[Column], t: u8, grid: Grid)
    ensures { (at row : ℕ) (column : Column) (rows : List Tone) → slice_get columns.now at ≡ Some column → slice_get cells.new at ≡ Some rows
        → row < 256 → row < grid.rows → IsRowTone column t grid row (slice_index_or rows row not_held) }
{
    let mut own = OwnSheets::new();
    for at in 0..cells.len().min(columns.len()) {
        let column = &columns[at];
        own.list(&column.sheets, t);
        set_rows(&mut cells[at], column, &own, t, grid);
    }
}

/// Stores the tones of tenant `t`'s rows in a column.
fn set_rows(rows: &mut [Tone; MAX_ROWS], column: &Column, own: &OwnSheets, t: u8, grid: Grid)
    requires { IsOwn t column.now.sheets.items own.now }
    ensures { (row : ℕ) → row < 256 → row < grid.rows → IsRowTone column.now t grid row (slice_index_or rows.new row not_held) }
{
    for row in 0..MAX_ROWS {
        rows[row] = row_tone(column, own, t, grid, row as u32);
    }
}

/// Returns the tone of tenant `t`'s row in a column, or [`Tone::NOT_HELD`] if the grid does not have the row.
fn row_tone(column: &Column, own: &OwnSheets, t: u8, grid: Grid, row: u32) -> Tone
    requires { IsOwn t column.now.sheets.items own.now }
    ensures { row < grid.rows → IsRowTone column.now t grid row result }
{
    if row >= grid.rows {
        return Tone::NOT_HELD;
    }
    let frames = grid.frames_of(row);
    let counts = row_counts(column, own, t, grid, row);
    tone_of(&counts, frames.end - frames.start)
}

/// Returns how many frames of a row have each kind. Frames that the column does not show count as not held.
fn row_counts(column: &Column, own: &OwnSheets, t: u8, grid: Grid, row: u32) -> [usize; KINDS]
    requires row { row < grid.rows }
    requires own { IsOwn t column.now.sheets.items own.now }
    ensures long { length result ≡ 6 }
    ensures kinds { let cells = row_cells grid.order t (first_of grid row) (end_of grid row) column.now.sheets.items in
        (k : ℕ) → k < 6 → length cells + 2 ^ 32 < 2 ^ 64
        → slice_index result k ≡ kind_count cells (end_of grid row - first_of grid row) k }
{
    let frames = grid.frames_of(row);
    let (mut counts, shown) = count_kinds(
        &column.sheets,
        own,
        t,
        grid.order,
        frames.start,
        frames.end,
    );
    let all = (frames.end - frames.start) as usize;
    let not_held = rank(FrameKind::NotHeld);
    counts[not_held] = counts[not_held].saturating_add(all.saturating_sub(shown));
    counts
}

/// Returns the tone of a row of `frames` frames. `counts` has the number of its frames of each kind.
fn tone_of(counts: &[usize; KINDS], frames: u32) -> Tone
    requires { 0 < frames }
    ensures most { IsMostCommon (drawn_kinds (taken_cells (slice_index counts.now))) (slice_index counts.now) (rank_of result.kind) }
    ensures share { result.quarters ≡ quarters_of (taken_cells (slice_index counts.now)) frames }
{
    let taken = counts[0]
        .saturating_add(counts[1])
        .saturating_add(counts[2])
        .saturating_add(counts[3]);
    let kinds = if taken == 0 { KINDS } else { TAKEN_KINDS };
    Tone {
        kind: of_rank(greatest_at(counts, kinds)),
        quarters: quarters_of(taken, frames),
    }
}

/// Returns how many quarters of `frames` frames are taken, rounded up.
fn quarters_of(taken: usize, frames: u32) -> u8
    requires { 0 < frames }
    ensures { result ≡ quarters_of taken frames }
{
    let taken = taken.min(frames as usize) as u64;
    (4 * taken).div_ceil(u64::from(frames)).min(4) as u8
}

/// Counts tenant `t`'s frames in `first..end` that the sheets show, by kind and in total.
fn count_kinds(
    sheets: &[Sheet],
    own: &OwnSheets,
    t: u8,
    order: u32,
    first: u32,
    end: u32,
) -> ([usize; KINDS], usize)
    requires order { order ≤ WIDE_ORDER }
    requires rising { first ≤ end }
    requires own { IsOwn t sheets.now own.now }
    ensures long { length result.0 ≡ 6 }
    ensures kinds { (k : ℕ) → k < 6 → length (row_cells order t first end sheets.now) < 2 ^ 64
        → slice_index result.0 k ≡ count_by (λ cell. rank_of cell == k) (row_cells order t first end sheets.now) }
    ensures all { length (row_cells order t first end sheets.now) < 2 ^ 64 → result.1 ≡ length (row_cells order t first end sheets.now) }
{
    let (mut counts, mut shown) = count_listed(sheets, own, t, order, first, end);
    for sheet in &sheets[own.rest..] {
        let cells = cells_of(sheet, t, order, first, end);
        count_cells(cells, &mut counts, &mut shown);
    }
    (counts, shown)
}

/// Does the same as [`count_kinds`], but only for the sheets that `own` lists.
fn count_listed(
    sheets: &[Sheet],
    own: &OwnSheets,
    t: u8,
    order: u32,
    first: u32,
    end: u32,
) -> ([usize; KINDS], usize)
    requires order { order ≤ WIDE_ORDER }
    requires rising { first ≤ end }
    requires own { IsOwn t sheets.now own.now }
    ensures long { length result.0 ≡ 6 }
    ensures kinds { let cells = row_cells order t first end (take own.now.rest sheets.now) in
        (k : ℕ) → k < 6 → length cells < 2 ^ 64 → slice_index result.0 k ≡ count_by (λ cell. rank_of cell == k) cells }
    ensures all { let cells = row_cells order t first end (take own.now.rest sheets.now) in length cells < 2 ^ 64 → result.1 ≡ length cells }
{
    let mut counts = [0usize; KINDS];
    let mut shown = 0usize;
    for j in 0..own.len {
        let cells = cells_of(&sheets[own.listed[j] as usize], t, order, first, end);
        count_cells(cells, &mut counts, &mut shown);
    }
    (counts, shown)
}

/// Returns the cells of tenant `t`'s frames in `first..end` that a sheet shows.
fn cells_of(sheet: &Sheet, t: u8, order: u32, first: u32, end: u32) -> &[FrameKind]
    requires order { order ≤ WIDE_ORDER }
    requires rising { first ≤ end }
    ensures { result.now ≡ cells_in order t first end sheet.now }
{
    let cells = sheet.cells.as_slice();
    let Some(owner) = sheet.owner else {
        return &[];
    };
    if owner.tenant != t {
        return &[];
    }
    let base = u32::from(owner.slot) << order;
    let from = cells.len().min(first.saturating_sub(base) as usize);
    let to = cells.len().min(end.saturating_sub(base) as usize);
    &cells[from..to]
}

/// Adds the cells to the counts of their kinds and to the total.
fn count_cells(cells: &[FrameKind], counts: &mut [usize; KINDS], shown: &mut usize)
    ensures kinds { (k : ℕ) → k < 6 → slice_index counts.old k + length cells.now < 2 ^ 64
        → slice_index counts.new k ≡ slice_index counts.old k + count_by (λ cell. rank_of cell == k) cells.now }
    ensures all { shown.new ≡ min (shown.old + length cells.now) usize.MAX }
{
    for cell in cells {
        let kind = rank(*cell);
        counts[kind] = counts[kind].saturating_add(1);
    }
    *shown = shown.saturating_add(cells.len());
}

/// Returns the index of the greatest of the first `kinds` counts. If several counts are greatest, returns the least index.
fn greatest_at(counts: &[usize; KINDS], kinds: usize) -> usize
    requires some { 0 < kinds }
    requires all { kinds ≤ KINDS }
    ensures { IsMostCommon kinds (slice_index counts.now) result }
{
    let mut greatest = 0usize;
    for at in 1..kinds {
        if counts[at] > counts[greatest] {
            greatest = at;
        }
    }
    greatest
}
