//! The frames that the rows of a tenant's band show.

ghost use Rattle.std.specs.Prelude.{◌≡◌, ℕ, ◌+◌, ◌*◌, ◌^◌, ◌<◌, ◌≤◌, max, min, MatchOption};
ghost use Rattle.std.specs.Int.{div_ceil};
ghost use Rattle.model_core.specs.declared.limits.TheConstants.{WIDE_ORDER};
ghost use Rattle.frame_picture.specs.Bounds.{IsGreatest, IsLeastPower};
ghost use Rattle.frame_picture.specs.Slots.{IsAbove, IsSheetOf, HasSlot};

use crate::history::{Column, History, Sheet};
use std::ops::Range;

/// The frames that the rows of a band show.
#[derive(Clone, Copy, Debug, PartialEq, Eq)]
pub struct Grid {
    /// A superblock has `2^order` frames.
    pub order: u32,
    /// The number of frames shown: the frames of the slots up to the greatest one that the tenant holds in any column. At least
    /// one slot is shown.
    pub frames: u32,
    /// The number of frames in a row: a power of two up to 2^15, or all frames if even 2^15 frames in a row give too many rows.
    /// The last row may have fewer frames.
    pub frames_per_row: u32,
    /// The number of rows.
    pub rows: u32,
    ghost small: { order ≤ WIDE_ORDER },
    ghost some: { 0 < frames_per_row },
    ghost all: { rows ≡ div_ceil frames frames_per_row },
}

impl Grid {
    ghost use Rattle.frame_picture.specs.Grids.{IsGridOf};

    /// Returns the grid of tenant `t`'s band, with at most `most_rows` rows.
    pub fn of(history: &History, t: u8, most_rows: u32) -> Grid
        requires { 0 < most_rows }
        ensures { IsGridOf history.now t most_rows result }
    {
        let order = history.order();
        let mut slots = 1;
        for column in history.columns() {
            slots = slots_in(column, t).max(slots);
        }
        let frames = slots << order;
        let frames_per_row = frames_per_row(frames, most_rows);
        Grid {
            order,
            frames,
            frames_per_row,
            rows: rows_up_to(frames, frames_per_row),
        }
    }

    /// Returns the range of a row's frames.
    pub fn frames_of(self, row: u32) -> Range<u32>
        requires { row < self.rows }
        ensures start { result.start ≡ row * self.frames_per_row }
        ensures end { result.end ≡ min (row * self.frames_per_row + self.frames_per_row) self.frames }
        ensures some { result.start < result.end }
    {
        let start = row * self.frames_per_row;
        start..start.saturating_add(self.frames_per_row).min(self.frames)
    }

    /// Returns the distance between marks, in slots: the least power of two that gives at most `most_marks` marks. The first mark
    /// is at slot 0. If even a distance of 2^15 slots gives more marks, the result is so large that only the first mark is left.
    pub fn slots_between(self, most_marks: u32) -> u32
        requires { 0 < most_marks }
        ensures some { 0 < result }
        ensures all { self.frames ≤ most_marks * (result * 2 ^ self.order) }
        ensures least { IsLeastPower (λ slots. self.frames ≤ most_marks * (slots * 2 ^ self.order)) (max self.frames 1) result }
    {
        for power in 0..16u32 {
            let between = 1 << power;
            if u64::from(self.frames)
                <= u64::from(most_marks) * (u64::from(between) << self.order)
            {
                return between;
            }
        }
        self.frames.max(1)
    }

    /// Returns the first frame of a slot, or `None` if the slot is not shown.
    pub fn slot_start(self, slot: u32) -> Option<u32>
        ensures { MatchOption result (self.frames ≤ slot * 2 ^ self.order)
            (λ frame. (frame ≡ slot * 2 ^ self.order) × (frame < self.frames)) }
    {
        let frame = u64::from(slot) << self.order;
        if frame < u64::from(self.frames) {
            Some(frame as u32)
        } else {
            None
        }
    }
}

/// Returns the number of frames in a row: the least power of two that gives at most `most_rows` rows for `frames` frames. If even
/// 2^15 frames in a row give more rows, all frames are one row.
fn frames_per_row(frames: u32, most_rows: u32) -> u32
    requires { 0 < most_rows }
    ensures some { 0 < result }
    ensures few { div_ceil frames result ≤ most_rows }
    ensures least { IsLeastPower (λ size. div_ceil frames size ≤ most_rows) (max frames 1) result }
{
    for power in 0..16u32 {
        let frames_per_row = 1 << power;
        if rows_up_to(frames, frames_per_row) <= most_rows {
            return frames_per_row;
        }
    }
    frames.max(1)
}

/// Returns the number of rows that `frames` frames need. The last row may be shorter.
fn rows_up_to(frames: u32, frames_per_row: u32) -> u32
    requires { 0 < frames_per_row }
    ensures { result ≡ div_ceil frames frames_per_row }
{
    frames.div_ceil(frames_per_row)
}

/// Returns 1 more than the greatest slot that tenant `t` holds in a column, or 0 if it holds none.
fn slots_in(column: &Column, t: u8) -> u32
    ensures few { result ≤ 2 ^ 16 }
    ensures greatest { IsGreatest (IsAbove (λ slot. HasSlot t slot column.now)) 0 result }
{
    let mut slots = 0;
    for sheet in &column.sheets {
        slots = slots_up_to(sheet, t).max(slots);
    }
    slots
}

/// Returns 1 more than the slot of a sheet if tenant `t` holds it, or else 0.
fn slots_up_to(sheet: &Sheet, t: u8) -> u32
    ensures few { result ≤ 2 ^ 16 }
    ensures greatest { IsGreatest (IsAbove (λ slot. IsSheetOf t slot sheet.now)) 0 result }
{
    if let Some(owner) = sheet.owner
        && owner.tenant == t
    {
        u32::from(owner.slot) + 1
    } else {
        0
    }
}
