//! The figures of a history as a table of comma-separated values.

ghost use Rattle.std.specs.Prelude.{◌≡◌, ◌+◌, ◌≤◌, Some, flat_map};
ghost use Rattle.frame_picture.specs.Stacks.{column_figures, refused_in};
ghost use Rattle.picture_svg.specs.Texts.{WritesText};
ghost use Rattle.framemap.specs.Tables.{column_rows, free_cell, heading_text, row_text, table_text};

use crate::peaks::Peaks;
use frame_picture::history::{Column, Figures, History, ORDERS};
use std::io::{self, Write};

/// Writes a row of headings, and then a row for each column and each tenant in `first..end`, and flushes.
pub fn write_figures<W: Write>(
    out: &mut W,
    history: &History,
    peaks: &Peaks,
    first: u8,
    end: u8,
) -> io::Result<()>
    ensures { WritesText result (W.contents out.old) (W.contents out.new) (λ text. text ≡ table_text history.now peaks.now first end) }
{
    let orders = history.order() as usize + 1;
    write_headings(out, orders)?;
    let columns = history.columns();
    for at in 0..columns.len() {
        write_column(out, &columns[at], orders, peaks, at, first, end)?;
    }
    out.flush()
}

/// Writes the row of headings for this number of orders.
fn write_headings<W: Write>(out: &mut W, orders: usize) -> io::Result<()>
    ensures { WritesText result (W.contents out.old) (W.contents out.new) (λ text. text ≡ heading_text orders) }
{
    out.write_all(b"line,tenant,held,taken,most,refused")?;
    for order in 0..orders {
        write!(out, ",free{order}")?;
    }
    out.write_all(b"\n")
}

/// Writes the rows of the column with this index, one for each tenant in `first..end`.
fn write_column<W: Write>(
    out: &mut W,
    column: &Column,
    orders: usize,
    peaks: &Peaks,
    at: usize,
    first: u8,
    end: u8,
) -> io::Result<()>
    requires { orders ≤ ORDERS }
    ensures { WritesText result (W.contents out.old) (W.contents out.new)
        (λ text. text ≡ column_rows orders peaks.now first end at column.now) }
{
    for t in first..end {
        write_row(out, column, orders, peaks.most(t, at), t)?;
    }
    Ok(())
}

/// Writes the row of tenant `t` for a column: the number of lines run so far, the tenant's number, its held frames, its taken
/// frames, the most of them in the column, its requests that were refused so far for lack of frames, and its free blocks of each
/// order.
fn write_row<W: Write>(
    out: &mut W,
    column: &Column,
    orders: usize,
    most: u32,
    t: u8,
) -> io::Result<()>
    requires { orders ≤ ORDERS }
    ensures { WritesText result (W.contents out.old) (W.contents out.new) (λ text. text ≡ row_text orders column.now most t) }
{
    let figures = figures_of(column, t);
    let (held, taken) = (figures.held, figures.taken);
    let line = column.line;
    let refused = refused_to(column, t);
    write!(out, "{line},{t},{held},{taken},{most},{refused}")?;
    write_cells(out, &figures.free[..orders])?;
    out.write_all(b"\n")
}

/// Writes the numbers, each after a comma.
fn write_cells<W: Write>(out: &mut W, numbers: &[u32]) -> io::Result<()>
    ensures { WritesText result (W.contents out.old) (W.contents out.new) (λ text. text ≡ flat_map free_cell numbers.now) }
{
    for number in numbers {
        write!(out, ",{number}")?;
    }
    Ok(())
}

/// Returns the figures of tenant `t` in a column.
fn figures_of(column: &Column, t: u8) -> Figures
    ensures { result ≡ column_figures t (Some column.now) }
{
    column
        .figures
        .get(t as usize)
        .copied()
        .unwrap_or(Figures::NONE)
}

/// Returns the number of requests of tenant `t` that were refused for lack of frames up to the end of a column.
fn refused_to(column: &Column, t: u8) -> u32
    ensures { result ≡ refused_in t (Some column.now) }
{
    column.refused.get(t as usize).copied().unwrap_or(0)
}
