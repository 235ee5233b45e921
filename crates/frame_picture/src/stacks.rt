//! The values drawn beside and below the rows of a tenant's band: its figures, its free frames by the order of their blocks, and
//! its refusals.

ghost use Rattle.std.specs.Prelude.{◌≡◌, ◌≢◌, ◌-◌, ◌*◌, ◌^◌, ◌<◌, ◌≤◌, MatchOption, SomeIndex};
ghost use Rattle.frame_picture.specs.Bounds.{IsGreatest};
ghost use Rattle.frame_picture.specs.Stacks.{figures_in_column, taken_in_column, frames_of_orders, free_in_column, free_before, refused_until, refused_before};

use crate::history::{Column, Figures, ORDERS};

/// Returns the figures of tenant `t` in a column, or `Figures::NONE` if there are none.
pub fn figures_at(columns: &[Column], t: u8, column: usize) -> Figures
    ensures { result ≡ figures_in_column columns.now t column }
{
    match columns.get(column) {
        Some(column) => column
            .figures
            .get(t as usize)
            .copied()
            .unwrap_or(Figures::NONE),
        None => Figures::NONE,
    }
}

/// Returns the largest number of taken frames of tenant `t` in any column, or 0 if there are no columns.
pub fn most_taken(columns: &[Column], t: u8) -> u32
    ensures { IsGreatest (λ frames. SomeIndex columns.now (λ n. taken_in_column columns.now t n ≡ frames)) 0 result }
{
    let mut most = 0;
    for column in 0..columns.len() {
        most = figures_at(columns, t, column).taken.max(most);
    }
    most
}

/// Returns the number of tenant `t`'s frames in free blocks of this order and above, in a column. Returns 0 if there is no column
/// with this index.
pub fn free_at(columns: &[Column], t: u8, order: usize, column: usize) -> u64
    requires { order < ORDERS }
    ensures { result ≡ free_in_column columns.now t order column }
{
    match columns.get(column) {
        Some(column) => match column.figures.get(t as usize) {
            Some(figures) => free_from(figures, order),
            None => 0,
        },
        None => 0,
    }
}

/// Returns the number of frames in free blocks of this order and above.
fn free_from(figures: &Figures, order: usize) -> u64
    requires { order < ORDERS }
    ensures { result ≡ frames_of_orders figures.now.free order (ORDERS - order) }
{
    let free = &figures.free;
    let mut frames = 0u64;
    for k in order..ORDERS {
        frames += frames_of_blocks(free[k], k);
    }
    frames
}

/// Returns the number of frames in `blocks` blocks of this order.
fn frames_of_blocks(blocks: u32, order: usize) -> u64
    requires { order < ORDERS }
    ensures value { result ≡ blocks * 2 ^ order }
    ensures few { result ≤ 2 ^ 42 }
{
    u64::from(blocks) << order
}

/// Returns [`free_at`] for a column if it differs from the value for the previous column, and `None` otherwise. The value for the
/// first column is compared with 0.
pub fn turn_at(columns: &[Column], t: u8, order: usize, column: usize) -> Option<u64>
    requires { order < ORDERS }
    ensures { MatchOption result (free_in_column columns.now t order column ≡ free_before columns.now t order column)
        (λ frames. (frames ≡ free_in_column columns.now t order column) × (frames ≢ free_before columns.now t order column)) }
{
    let before = if column == 0 {
        0
    } else {
        free_at(columns, t, order, column - 1)
    };
    let frames = free_at(columns, t, order, column);
    if frames == before { None } else { Some(frames) }
}

/// Returns the largest number of free frames of tenant `t` in any column, but at least 1.
pub fn most_free(columns: &[Column], t: u8) -> u64
    ensures { IsGreatest (λ frames. SomeIndex columns.now (λ n. free_in_column columns.now t 0 n ≡ frames)) 1 result }
{
    let mut most = 1;
    for column in 0..columns.len() {
        most = free_at(columns, t, 0, column).max(most);
    }
    most
}

/// Returns the number of requests of tenant `t` that were refused for lack of frames in the lines of a column.
pub fn refused_in(columns: &[Column], t: u8, column: usize) -> u32
    ensures { result ≡ refused_until columns.now t column - refused_before columns.now t column }
{
    let before = if column == 0 {
        0
    } else {
        refused_at(columns, t, column - 1)
    };
    refused_at(columns, t, column).saturating_sub(before)
}

/// Returns the number of requests of tenant `t` that were refused for lack of frames up to the last line of a column. Returns 0
/// if there is no column with this index.
pub fn refused_at(columns: &[Column], t: u8, column: usize) -> u32
    ensures { result ≡ refused_until columns.now t column }
{
    match columns.get(column) {
        Some(column) => column.refused.get(t as usize).copied().unwrap_or(0),
        None => 0,
    }
}
