//! Joins equal cells into rectangles. If adjacent columns have the same run of rows of one tone, these runs make one rectangle.

ghost use Rattle.std.specs.Prelude.{◌≡◌, ◌≢◌, ℕ, ◌+◌, ◌-◌, ◌<◌, ◌≤◌, length, drop, MatchOption, IfSome};
ghost use Rattle.std.specs.List.{prefix_len};
ghost use Rattle.frame_picture.specs.Rectangles.{run_at, run_in, IsRectangle, GoesOn};

use crate::drawing::{MAX_ROWS, Tone, is_tone};

/// A rectangle of cells of one tone.
#[derive(Clone, Copy, Debug, PartialEq, Eq)]
pub struct Rectangle {
    /// The first column of the rectangle.
    pub column: usize,
    /// The lowest row.
    pub row: usize,
    /// The number of columns.
    pub columns: usize,
    /// The number of rows.
    pub rows: usize,
}

/// Returns the rectangle of a tone that begins at a row and has `end - 1` as its last column, if there is one. All its columns
/// have the same run of rows there, and the columns beside it do not. Only the first `rows` rows of a column are shown.
pub fn rectangle_at(
    columns: &[[Tone; MAX_ROWS]],
    tone: Tone,
    rows: usize,
    row: usize,
    end: usize,
) -> Option<Rectangle>
    requires some { 0 < end }
    requires within { end ≤ length columns.now }
    requires few { rows ≤ MAX_ROWS }
    requires shown { row < rows }
    ensures row { IfSome result (λ r. r.row ≡ row) }
    ensures rectangle { MatchOption result (GoesOn (run_in columns.now tone rows row) (length columns.now) end)
        (λ r. IsRectangle (run_in columns.now tone rows row) (length columns.now) end r) }
{
    let run = run_in(columns, tone, rows, row, end - 1);
    if run == 0 || (end < columns.len() && run_in(columns, tone, rows, row, end) == run) {
        return None;
    }
    let mut column = end - 1;
    while column > 0 && run_in(columns, tone, rows, row, column - 1) == run {
        column -= 1;
    }
    Some(Rectangle {
        column,
        row,
        columns: end - column,
        rows: run,
    })
}

/// Returns the number of rows in the run of the tone that begins at this row in a column, or 0 if none begins there. Only the
/// first `rows` rows of a column are shown.
fn run_in(columns: &[[Tone; MAX_ROWS]], tone: Tone, rows: usize, row: usize, column: usize) -> usize
    requires within { column < length columns.now }
    requires few { rows ≤ MAX_ROWS }
    requires shown { row < rows }
    ensures { result ≡ run_in columns.now tone rows row column }
{
    run_at(tone, &columns[column][..rows], row)
}

/// Returns the number of cells in the run of the tone that begins at this row, or 0 if none begins there.
fn run_at(tone: Tone, cells: &[Tone], row: usize) -> usize
    requires { row < length cells.now }
    ensures { result ≡ run_at tone cells.now row }
{
    if row > 0 && is_tone(tone, cells[row - 1]) {
        return 0;
    }
    for at in row..cells.len() {
        if !is_tone(tone, cells[at]) {
            return at - row;
        }
    }
    cells.len() - row
}
