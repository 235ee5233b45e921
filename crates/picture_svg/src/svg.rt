//! Writes the SVG text of a picture, each computed value at its position. Positions and sizes are in pixels.

ghost use Rattle.std.specs.Prelude.{◌≡◌, ◌+◌, ◌-◌, ◌*◌, ◌/◌, ◌^◌, ◌<◌, ◌≤◌, ◌++◌, ℕ, List, ⊤, flat_map, length, option_copied};
ghost use Rattle.std.specs.List.{range_with_len};
ghost use Rattle.frame_picture.specs.declared.rectangles.Rectangle.{Rectangle};
ghost use Rattle.frame_picture.specs.Histories.{columns_of, drawn_order, line_count, superblocks_of, width_of};
ghost use Rattle.frame_picture.specs.Rectangles.{AreRectangles, CoverTone};
ghost use Rattle.picture_svg.specs.Bands.{IsBand, IsFiguresText, IsStackText};
ghost use Rattle.picture_svg.specs.Sizes.{band_height, row_height, rows_height};
ghost use Rattle.picture_svg.specs.Texts.{WritesText, escaped, opening_text, rectangle_path, tenant_title, title_text};
ghost use Rattle.picture_svg.specs.Cells.{class_of, AreRows, AreShadePaths, IsTonePath};
ghost use Rattle.picture_svg.specs.Marks.{depth_class, layer_text, middle_of, refusals_text, scale_text, turn_text};

use frame_picture::drawing::{MAX_ROWS, Tone};
use frame_picture::grid::Grid;
use frame_picture::history::{Column, History, ORDERS};
use frame_picture::kinds::ALL;
use frame_picture::rectangles::{Rectangle, rectangle_at};
use frame_picture::stacks::{figures_at, most_free, most_taken, refused_at, refused_in, turn_at};
use kernel_core::FrameKind;
use std::fmt;
use std::io::{self, Write};

/// The distance of the first column from the left edge of the picture.
const LEFT: u32 = 72;

/// The width of all columns together.
const WIDTH: u32 = 1200;

/// The width of the picture.
const WHOLE_WIDTH: u32 = LEFT + WIDTH + 36;

/// The height of the part above the bands.
pub const HEAD: u32 = 116;

/// The heights of the parts of a band above its rows and below its rows.
const ABOVE: u32 = 26;

const BELOW: u32 = 132;

/// The height of the stack of free frames below the rows of a band, and the distance of its top from the rows.
const STACK: u32 = 56;

const STACK_TOP: u32 = 36;

/// The distance of the marks of refusals from the rows, and the height of a mark.
const REFUSALS_TOP: u32 = 4;

const REFUSALS: u32 = 9;

/// The approximate height of all rows of a band together.
const ROWS_HEIGHT: u32 = 192;

/// The largest height of a row.
const MAX_ROW_HEIGHT: u32 = 16;

/// The largest number of slots that get a line and a number, and the largest number of slots that get a tick.
const MAX_SLOT_LINES: u32 = 8;

const MAX_SLOT_TICKS: u32 = 64;

const STYLE: &str = "<style>\
text{font:12px sans-serif;fill:#444}\
.head{font-size:18px;font-weight:bold;fill:#222}\
.tenant{font-size:15px;font-weight:bold;fill:#222}\
.right{text-anchor:end}\
.middle{text-anchor:middle}\
.cells{shape-rendering:crispEdges}\
.axis{stroke:#888;stroke-width:1;fill:none;shape-rendering:crispEdges}\
.slot{stroke:#222;stroke-opacity:.3;stroke-width:1;stroke-dasharray:2 4;fill:none;shape-rendering:crispEdges}\
.none{fill:#b4b7bb}\
.free{fill:#fffefa}\
.page{fill:#0f3d75}\
.full{fill:#a84a10}\
.partial{fill:#dd8424}\
.empty{fill:#efd27a}\
.one{fill-opacity:.45}\
.two{fill-opacity:.65}\
.three{fill-opacity:.82}\
.d0{fill:#e6f4dc}\
.d1{fill:#b9dfb5}\
.d2{fill:#8cc5a2}\
.d3{fill:#62a999}\
.d4{fill:#458c93}\
.d5{fill:#336f88}\
.d6{fill:#2c5379}\
.d7{fill:#273863}\
.d8{fill:#1f1f48}\
.refused{fill:#b0003a;stroke:#b0003a;stroke-width:2;shape-rendering:crispEdges}\
.frame{fill:none;stroke:#888;shape-rendering:crispEdges}\
</style>\n";

/// A number with eight digits after the decimal point.
#[derive(Clone, Copy)]
struct Decimal {
    hundred_millionths: u64,
}

impl Decimal {
    /// Returns `n` divided by `d`, rounded down to eight digits. Returns 0 if `d` is 0.
    fn ratio(n: u32, d: u64) -> Decimal
        ensures { result.hundred_millionths ≡ n * 10 ^ 8 / d }
    {
        Decimal {
            hundred_millionths: (u64::from(n) * 100_000_000).checked_div(d).unwrap_or(0),
        }
    }
}

impl fmt::Display for Decimal {
    ghost use Rattle.std.specs.Prelude.{Some};
    ghost use Rattle.picture_svg.specs.Texts.{parts_text};

    ghost output = { λ d. Some (parts_text d.hundred_millionths) };

    fn fmt<W: fmt::Write>(&self, f: &mut fmt::Formatter<W>) -> fmt::Result {
        let whole = self.hundred_millionths / 100_000_000;
        let rest = self.hundred_millionths % 100_000_000;
        write!(f, "{whole}.{rest:08}")
    }
}

/// The additional class of a row for each number of taken quarters. A row with four taken quarters needs none.
const SHADES: [(&str, u8); 4] = [(" one", 1), (" two", 2), (" three", 3), ("", 4)];

/// Returns the CSS class of cells of this kind.
fn class_of(cell: FrameKind) -> &'static str
    ensures { result.now ≡ class_of cell }
{
    match cell {
        FrameKind::NotHeld => "none",
        FrameKind::Free => "free",
        FrameKind::Page => "page",
        FrameKind::Full => "full",
        FrameKind::Partial => "partial",
        FrameKind::Empty => "empty",
    }
}

/// Returns the name of a kind of cells in the legend.
fn name_of(cell: FrameKind) -> &'static str {
    match cell {
        FrameKind::NotHeld => "not held",
        FrameKind::Free => "free",
        FrameKind::Page => "page block",
        FrameKind::Full => "full slab",
        FrameKind::Partial => "partial slab",
        FrameKind::Empty => "empty slab",
    }
}

/// Draws the beginning of a picture of this height.
pub fn draw_opening<W: Write>(out: &mut W, height: u32) -> io::Result<()>
    ensures { WritesText result (W.contents out.old) (W.contents out.new) (λ text. text ≡ opening_text height) }
{
    writeln!(
        out,
        "<svg xmlns=\"http://www.w3.org/2000/svg\" viewBox=\"0 0 {WHOLE_WIDTH} {height}\" width=\"{WHOLE_WIDTH}\" height=\"{height}\">"
    )?;
    out.write_all(STYLE.as_bytes())?;
    writeln!(
        out,
        "<rect width=\"{WHOLE_WIDTH}\" height=\"{height}\" fill=\"#fff\"/>"
    )
}

/// Draws the title and the legend. A trace that was read from standard input has no name.
pub fn draw_head<W: Write>(out: &mut W, history: &History, name: Option<&str>) -> io::Result<()>
    ensures { WritesText result (W.contents out.old) (W.contents out.new) (λ text. (legend : List ℕ)
        × (text ≡ title_text (line_count history.now) (option_copied name.entry) (superblocks_of history.now)
        (2 ^ drawn_order history.now) (width_of history.now) ++ legend)) }
{
    let lines = history.lines();
    let width = history.width();
    let superblocks = history.superblocks();
    let frames = 1u32 << history.order();
    write!(
        out,
        "<text class=\"head\" x=\"{LEFT}\" y=\"30\">Frames over {lines} lines of "
    )?;
    match name {
        Some(name) => write_escaped(out, name.as_bytes())?,
        None => out.write_all(b"a trace")?,
    }
    writeln!(
        out,
        "</text>\n<text x=\"{LEFT}\" y=\"50\">Superblocks: {superblocks}, of {frames} frames each. Lines to a column: {width}; it shows the machine after the last of them.</text>"
    )?;
    draw_kinds(out)?;
    draw_orders(out, history.order() as usize)
}

/// Draws the legend of the frames: a colour for each kind, and one for refused requests.
fn draw_kinds<W: Write>(out: &mut W) -> io::Result<()>
    ensures { WritesText result (W.contents out.old) (W.contents out.new) (λ _. ⊤) }
{
    let mut x = LEFT;
    for cell in ALL {
        draw_swatch(out, x, 64, class_of(cell))?;
        draw_word(out, x, 64, name_of(cell))?;
        x = x.saturating_add(110);
    }
    draw_swatch(out, x, 64, "refused")?;
    draw_word(out, x, 64, "a request was refused for want of frames")
}

/// Draws the legend of the free frames: a colour for each order of their free block, the greatest order first.
fn draw_orders<W: Write>(out: &mut W, order: usize) -> io::Result<()>
    requires { order < ORDERS }
    ensures { WritesText result (W.contents out.old) (W.contents out.new) (λ _. ⊤) }
{
    writeln!(
        out,
        "<text x=\"{LEFT}\" y=\"97\">below a band: its free frames, by the order of their free block</text>"
    )?;
    let mut x = LEFT + 440;
    for depth in 0..=order {
        let k = order - depth;
        draw_swatch(out, x, 86, depth_class(depth))?;
        writeln!(
            out,
            "<text x=\"{}\" y=\"97\">{k}</text>",
            x.saturating_add(20)
        )?;
        x = x.saturating_add(44);
    }
    Ok(())
}

/// Returns the CSS class of free blocks whose order is `depth` below the order of a superblock.
fn depth_class(depth: usize) -> &'static str
    ensures { result.now ≡ depth_class depth }
{
    match depth {
        0 => "d0",
        1 => "d1",
        2 => "d2",
        3 => "d3",
        4 => "d4",
        5 => "d5",
        6 => "d6",
        7 => "d7",
        _ => "d8",
    }
}

/// Writes a name as SVG text. `&`, `<` and `>` are escaped, and a byte below 32 becomes a question mark.
fn write_escaped<W: Write>(out: &mut W, name: &[u8]) -> io::Result<()>
    ensures { WritesText result (W.contents out.old) (W.contents out.new) (λ text. text ≡ flat_map escaped name.now) }
{
    for byte in name {
        match *byte {
            b'&' => out.write_all(b"&amp;")?,
            b'<' => out.write_all(b"&lt;")?,
            b'>' => out.write_all(b"&gt;")?,
            0..=31 => out.write_all(b"?")?,
            other => out.write_all(&[other])?,
        }
    }
    Ok(())
}

/// Draws the band of tenant `t` with these columns of cells, from the y coordinate `top` down. The word `refused` beside the
/// marks of refusals is moved down by `gap` pixels.
pub fn draw_band<W: Write>(
    out: &mut W,
    history: &History,
    t: u8,
    grid: Grid,
    cells: &[[Tone; MAX_ROWS]],
    top: u32,
    gap: u32,
) -> io::Result<()>
    ensures { WritesText result (W.contents out.old) (W.contents out.new) (IsBand history.now t grid cells.now top gap) }
{
    let height = rows_height(grid);
    let y = top.saturating_add(ABOVE);
    let bottom = y.saturating_add(height);
    draw_title(out, t, grid, top)?;
    draw_figures(out, history.columns(), t, top)?;
    writeln!(
        out,
        "<rect class=\"free\" x=\"{LEFT}\" y=\"{y}\" width=\"{WIDTH}\" height=\"{height}\"/>"
    )?;
    draw_rows(out, cells, grid, bottom)?;
    draw_frames_axis(out, grid, y, bottom)?;
    draw_slots_axis(out, grid, y, bottom)?;
    let refusals = bottom.saturating_add(REFUSALS_TOP);
    draw_refusals(out, history.columns(), t, refusals, gap)?;
    let foot = bottom.saturating_add(STACK_TOP + STACK);
    draw_stack(out, history, t, foot)?;
    draw_lines_axis(out, history, foot)
}

/// Draws the cells of a band, upwards from the y coordinate `foot`.
fn draw_rows<W: Write>(
    out: &mut W,
    columns: &[[Tone; MAX_ROWS]],
    grid: Grid,
    foot: u32,
) -> io::Result<()>
    ensures { WritesText result (W.contents out.old) (W.contents out.new) (AreRows columns.now grid foot) }
{
    writeln!(
        out,
        "<g class=\"cells\" transform=\"translate({LEFT} {foot}) scale({} -{})\">",
        column_width(columns.len()),
        row_height(grid)
    )?;
    let rows = MAX_ROWS.min(grid.rows as usize);
    for kind in ALL {
        match kind {
            FrameKind::Free => {}
            FrameKind::NotHeld => draw_tone(out, Tone::NOT_HELD, "", columns, rows)?,
            _ => draw_shades(out, kind, columns, grid)?,
        }
    }
    out.write_all(b"</g>\n")
}

/// Draws all cells of a kind of taken frames. A cell is darker if more frames of its row are taken. If a row has only one frame,
/// there is only one shade.
fn draw_shades<W: Write>(
    out: &mut W,
    kind: FrameKind,
    columns: &[[Tone; MAX_ROWS]],
    grid: Grid,
) -> io::Result<()>
    ensures { WritesText result (W.contents out.old) (W.contents out.new) (AreShadePaths columns.now grid kind) }
{
    let rows = MAX_ROWS.min(grid.rows as usize);
    for (shade, quarters) in SHADES {
        if quarters == 4 || grid.frames_per_row > 1 {
            draw_tone(out, Tone { kind, quarters }, shade, columns, rows)?;
        }
    }
    Ok(())
}

/// Draws all cells of a tone as one path.
fn draw_tone<W: Write>(
    out: &mut W,
    tone: Tone,
    shade: &str,
    columns: &[[Tone; MAX_ROWS]],
    rows: usize,
) -> io::Result<()>
    requires { rows ≤ MAX_ROWS }
    ensures { WritesText result (W.contents out.old) (W.contents out.new) (IsTonePath columns.now rows tone shade.now) }
{
    write!(out, "<path class=\"{}{shade}\" d=\"", class_of(tone.kind))?;
    draw_cells(out, tone, columns, rows)?;
    out.write_all(b"\"/>\n")
}

/// Writes the rectangles of a tone's path. One unit to the right is a column, and one unit upwards is a row.
fn draw_cells<W: Write>(
    out: &mut W,
    tone: Tone,
    columns: &[[Tone; MAX_ROWS]],
    rows: usize,
) -> io::Result<()>
    requires { rows ≤ MAX_ROWS }
    ensures { WritesText result (W.contents out.old) (W.contents out.new)
        (λ text. (rectangles : List Rectangle) × CoverTone columns.now tone rows rectangles
        × (text ≡ flat_map rectangle_path rectangles)) }
{
    for column in 0..columns.len() {
        draw_ended(out, tone, columns, rows, column + 1)?;
    }
    Ok(())
}

/// Draws those rectangles of a tone that end with column `end` - 1, from the lowest row up.
fn draw_ended<W: Write>(
    out: &mut W,
    tone: Tone,
    columns: &[[Tone; MAX_ROWS]],
    rows: usize,
    end: usize,
) -> io::Result<()>
    requires some { 0 < end }
    requires within { end ≤ length columns.now }
    requires few { rows ≤ MAX_ROWS }
    ensures { WritesText result (W.contents out.old) (W.contents out.new)
        (λ text. (rectangles : List Rectangle) × AreRectangles columns.now tone rows rows (end - 1) end rectangles
        × (text ≡ flat_map rectangle_path rectangles)) }
{
    for row in 0..rows {
        if let Some(rectangle) = rectangle_at(columns, tone, rows, row, end) {
            draw_rectangle(out, rectangle)?;
        }
    }
    Ok(())
}

/// Draws a rectangle.
fn draw_rectangle<W: Write>(out: &mut W, rectangle: Rectangle) -> io::Result<()>
    ensures { WritesText result (W.contents out.old) (W.contents out.new) (λ text. text ≡ rectangle_path rectangle) }
{
    let Rectangle {
        column,
        row,
        columns,
        rows,
    } = rectangle;
    write!(out, "M{column} {row}h{columns}v{rows}h-{columns}z")
}

/// Returns the width of a column if there are this many columns.
fn column_width(columns: usize) -> Decimal
    ensures { result.hundred_millionths ≡ WIDTH * 10 ^ 8 / columns }
{
    Decimal::ratio(WIDTH, columns as u64)
}

/// Returns the height of a row.
fn row_height(grid: Grid) -> u32
    ensures { result ≡ row_height grid.rows }
{
    ROWS_HEIGHT
        .checked_div(grid.rows)
        .unwrap_or(1)
        .clamp(1, MAX_ROW_HEIGHT)
}

/// Returns the height of all rows together.
fn rows_height(grid: Grid) -> u32
    ensures { result ≡ rows_height grid.rows }
{
    grid.rows.saturating_mul(row_height(grid))
}

/// Returns the height of a band in pixels, with its title, free frames and axes.
pub fn band_height(grid: Grid) -> u32
    ensures { result ≡ band_height grid.rows }
{
    rows_height(grid).saturating_add(ABOVE + BELOW)
}

/// Draws a colour of the legend.
fn draw_swatch<W: Write>(out: &mut W, x: u32, y: u32, class: &str) -> io::Result<()>
    ensures { WritesText result (W.contents out.old) (W.contents out.new) (λ _. ⊤) }
{
    writeln!(
        out,
        "<rect class=\"{class}\" x=\"{x}\" y=\"{y}\" width=\"14\" height=\"14\"/><rect class=\"frame\" x=\"{x}\" y=\"{y}\" width=\"14\" height=\"14\"/>"
    )
}

/// Draws the word beside a colour.
fn draw_word<W: Write>(out: &mut W, x: u32, y: u32, word: &str) -> io::Result<()>
    ensures { WritesText result (W.contents out.old) (W.contents out.new) (λ _. ⊤) }
{
    let x = x.saturating_add(20);
    let y = y.saturating_add(11);
    writeln!(out, "<text x=\"{x}\" y=\"{y}\">{word}</text>")
}

/// Draws the title of a band.
fn draw_title<W: Write>(out: &mut W, t: u8, grid: Grid, top: u32) -> io::Result<()>
    ensures { WritesText result (W.contents out.old) (W.contents out.new) (λ text. text ≡ tenant_title t grid.frames_per_row top) }
{
    let y = top.saturating_add(ABOVE - 8);
    writeln!(
        out,
        "<text class=\"tenant\" x=\"{LEFT}\" y=\"{y}\">Tenant {t}</text>"
    )?;
    if grid.frames_per_row > 1 {
        let frames = grid.frames_per_row;
        let right = LEFT + WIDTH;
        writeln!(
            out,
            "<text class=\"right\" x=\"{right}\" y=\"{y}\">a row is {frames} frames: coloured as most taken ones, darker where more are taken</text>"
        )?;
    }
    Ok(())
}

/// Draws the border of the rows, and the numbers of frames to their left.
fn draw_frames_axis<W: Write>(out: &mut W, grid: Grid, y: u32, bottom: u32) -> io::Result<()>
    ensures { WritesText result (W.contents out.old) (W.contents out.new) (λ _. ⊤) }
{
    let x = LEFT - 6;
    writeln!(
        out,
        "<rect class=\"frame\" x=\"{LEFT}\" y=\"{y}\" width=\"{WIDTH}\" height=\"{}\"/>",
        bottom.saturating_sub(y)
    )?;
    writeln!(
        out,
        "<text class=\"right\" x=\"{x}\" y=\"{}\">frame</text>",
        y.saturating_sub(8)
    )?;
    let step = frames_step(grid.frames);
    for k in 0..9u32 {
        let frame = step.saturating_mul(k);
        if frame > grid.frames {
            break;
        }
        let at = bottom.saturating_sub(height_of(grid, frame));
        writeln!(
            out,
            "<path class=\"axis\" d=\"M{x} {at}H{LEFT}\"/><text class=\"right\" x=\"{}\" y=\"{}\">{frame}</text>",
            x - 3,
            at.saturating_add(4)
        )?;
    }
    Ok(())
}

/// Draws the axis of slots to the right of the rows. It has a tick where a slot begins, and for some slots also the slot's number
/// and a line across the rows. Slots are left out if their ticks or numbers would overlap.
fn draw_slots_axis<W: Write>(out: &mut W, grid: Grid, y: u32, bottom: u32) -> io::Result<()>
    ensures { WritesText result (W.contents out.old) (W.contents out.new) (λ _. ⊤) }
{
    let x = LEFT + WIDTH;
    writeln!(
        out,
        "<text x=\"{}\" y=\"{}\">slot</text>",
        x + 6,
        y.saturating_sub(8)
    )?;
    let between = grid.slots_between(MAX_SLOT_LINES);
    for mark in 0..MAX_SLOT_LINES {
        let slot = between.saturating_mul(mark);
        if let Some(frame) = grid.slot_start(slot) {
            let at = bottom.saturating_sub(height_of(grid, frame));
            writeln!(
                out,
                "<path class=\"slot\" d=\"M{LEFT} {at}H{x}\"/><text x=\"{}\" y=\"{}\">{slot}</text>",
                x + 8,
                at.saturating_sub(1)
            )?;
        }
    }
    draw_slot_ticks(out, grid, bottom)
}

/// Draws a tick at the beginning of each slot. Leaves out slots if the ticks would overlap.
fn draw_slot_ticks<W: Write>(out: &mut W, grid: Grid, bottom: u32) -> io::Result<()>
    ensures { WritesText result (W.contents out.old) (W.contents out.new) (λ _. ⊤) }
{
    let x = LEFT + WIDTH;
    let between = grid.slots_between(grid.rows.clamp(1, MAX_SLOT_TICKS));
    out.write_all(b"<path class=\"axis\" d=\"")?;
    for mark in 0..MAX_SLOT_TICKS {
        if let Some(frame) = grid.slot_start(between.saturating_mul(mark)) {
            let at = bottom.saturating_sub(height_of(grid, frame));
            write!(out, "M{x} {at}h5")?;
        }
    }
    out.write_all(b"\"/>\n")
}

/// Returns the distance from the foot of the rows up to the lower edge of the row that has this frame.
fn height_of(grid: Grid, frame: u32) -> u32 {
    let rows = frame.checked_div(grid.frames_per_row).unwrap_or(0);
    rows.saturating_mul(row_height(grid))
}

/// Returns the distance between the numbers on the axis of frames: a power of two that gives at most eight steps.
fn frames_step(frames: u32) -> u32 {
    let mut step = 1u32;
    for _ in 0..31 {
        if frames <= step.saturating_mul(8) {
            break;
        }
        step = step.saturating_mul(2);
    }
    step
}

/// Writes the figures of tenant `t` beside the title of its band: its taken and held frames at the end, the largest number of its
/// taken frames in any column, and the number of its requests that were refused for lack of frames.
fn draw_figures<W: Write>(out: &mut W, columns: &[Column], t: u8, top: u32) -> io::Result<()>
    ensures { WritesText result (W.contents out.old) (W.contents out.new) (IsFiguresText columns.now t top) }
{
    let x = LEFT + 90;
    let y = top.saturating_add(ABOVE - 8);
    let last = columns.len().saturating_sub(1);
    let figures = figures_at(columns, t, last);
    let (taken, held) = (figures.taken, figures.held);
    let most = most_taken(columns, t);
    let refused = refused_at(columns, t, last);
    writeln!(
        out,
        "<text x=\"{x}\" y=\"{y}\">at the end {taken} of {held} frames taken; at most {most} taken; refused for want of frames: {refused}</text>"
    )
}

/// Draws a mark for each column in which a request of tenant `t` was refused for lack of frames. The word `refused` beside the
/// marks is moved down by `gap` pixels.
fn draw_refusals<W: Write>(
    out: &mut W,
    columns: &[Column],
    t: u8,
    y: u32,
    gap: u32,
) -> io::Result<()>
    ensures { WritesText result (W.contents out.old) (W.contents out.new) (λ text. text ≡ refusals_text columns.now t y gap) }
{
    writeln!(
        out,
        "<text class=\"right\" x=\"{}\" y=\"{}\">refused</text>",
        LEFT - 9,
        y.saturating_add(REFUSALS).saturating_add(gap)
    )?;
    out.write_all(b"<path class=\"refused\" d=\"")?;
    for at in 0..columns.len() {
        if refused_in(columns, t, at) > 0 {
            let x = LEFT.saturating_add(middle_of(at, columns.len()));
            write!(out, "M{x} {y}v{REFUSALS}")?;
        }
    }
    out.write_all(b"\"/>\n")
}

/// Returns the distance of the middle of a column from the left edge of the first column, if there are this many columns.
fn middle_of(column: usize, columns: usize) -> u32
    ensures { result ≡ middle_of column columns }
{
    let halves = (column as u64).saturating_mul(2).saturating_add(1);
    let way = halves
        .saturating_mul(u64::from(WIDTH / 2))
        .checked_div(columns as u64)
        .unwrap_or(0);
    way.min(u64::from(WIDTH)) as u32
}

/// Draws the free frames of tenant `t` by the order of their free block, upwards from the y coordinate `foot`. The greatest order
/// is at the bottom.
fn draw_stack<W: Write>(out: &mut W, history: &History, t: u8, foot: u32) -> io::Result<()>
    ensures { WritesText result (W.contents out.old) (W.contents out.new) (IsStackText history.now t foot) }
{
    let top = foot.saturating_sub(STACK);
    let most = most_free(history.columns(), t);
    writeln!(
        out,
        "<text x=\"{LEFT}\" y=\"{}\">free frames, at most {most}</text>",
        top.saturating_sub(5)
    )?;
    draw_layers(out, history, t, foot, most)?;
    draw_scale(out, top, foot, most)
}

/// Draws a layer of a stack for each order. The height of the stack represents `most` frames.
fn draw_layers<W: Write>(
    out: &mut W,
    history: &History,
    t: u8,
    foot: u32,
    most: u64,
) -> io::Result<()>
    ensures { WritesText result (W.contents out.old) (W.contents out.new)
        (λ text. text ≡ flat_map (layer_text (columns_of history.now) t (drawn_order history.now) foot most)
        (range_with_len 0 (drawn_order history.now + 1))) }
{
    let columns = history.columns();
    let order = history.order() as usize;
    for k in 0..=order {
        write!(
            out,
            "<path class=\"cells {}\" transform=\"translate({LEFT} {foot}) scale({} -{})\" d=\"M0 0",
            depth_class(order - k),
            column_width(columns.len()),
            Decimal::ratio(STACK, most)
        )?;
        draw_turns(out, columns, t, k)?;
        writeln!(out, "H{}V0z\"/>", columns.len())?;
    }
    Ok(())
}

/// Draws the border of a stack, and the numbers of frames at its top and at its foot.
fn draw_scale<W: Write>(out: &mut W, top: u32, foot: u32, most: u64) -> io::Result<()>
    ensures { WritesText result (W.contents out.old) (W.contents out.new) (λ text. text ≡ scale_text top foot most) }
{
    writeln!(
        out,
        "<rect class=\"frame\" x=\"{LEFT}\" y=\"{top}\" width=\"{WIDTH}\" height=\"{STACK}\"/>"
    )?;
    writeln!(
        out,
        "<text class=\"right\" x=\"{}\" y=\"{}\">{most}</text>",
        LEFT - 9,
        top.saturating_add(9)
    )?;
    writeln!(
        out,
        "<text class=\"right\" x=\"{}\" y=\"{foot}\">0</text>",
        LEFT - 9
    )
}

/// Draws the outline of a layer. Its height in a column is the number of free frames in blocks of this order and above. Each
/// column in which this number changes begins with a step.
fn draw_turns<W: Write>(out: &mut W, columns: &[Column], t: u8, order: usize) -> io::Result<()>
    requires { order < ORDERS }
    ensures { WritesText result (W.contents out.old) (W.contents out.new)
        (λ text. text ≡ flat_map (turn_text columns.now t order) (range_with_len 0 (length columns.now))) }
{
    for at in 0..columns.len() {
        if let Some(frames) = turn_at(columns, t, order, at) {
            write!(out, "H{at}V{frames}")?;
        }
    }
    Ok(())
}

/// Draws the axis of line numbers below the y coordinate `foot`.
fn draw_lines_axis<W: Write>(out: &mut W, history: &History, foot: u32) -> io::Result<()>
    ensures { WritesText result (W.contents out.old) (W.contents out.new) (λ _. ⊤) }
{
    let step = lines_step(history.lines());
    let text = foot.saturating_add(18);
    for k in 0..11u32 {
        let line = step.saturating_mul(k);
        if line > history.lines() {
            break;
        }
        let x = LEFT.saturating_add(way_of(history, line));
        writeln!(
            out,
            "<path class=\"axis\" d=\"M{x} {foot}v5\"/><text class=\"middle\" x=\"{x}\" y=\"{text}\">{line}</text>"
        )?;
    }
    writeln!(
        out,
        "<text class=\"right\" x=\"{}\" y=\"{text}\">line</text>",
        LEFT - 9
    )
}

/// Returns the distance from the left edge of the first column to the point where line number `line` of the trace ends. Each line
/// of a column gets the same share of the column's width.
fn way_of(history: &History, line: u32) -> u32 {
    let lines = u64::from(history.width()).saturating_mul(history.columns().len() as u64);
    let way = (u64::from(line) * u64::from(WIDTH))
        .checked_div(lines)
        .unwrap_or(0);
    way.min(u64::from(WIDTH)) as u32
}

/// Returns the distance between the numbers on the axis of lines: 1, 2 or 5 times a power of ten, which gives at most ten steps.
fn lines_step(lines: u32) -> u32 {
    let mut decade = 1u32;
    for _ in 0..9 {
        for round in [1, 2, 5] {
            let step = decade.saturating_mul(round);
            if lines <= step.saturating_mul(10) {
                return step;
            }
        }
        decade = decade.saturating_mul(10);
    }
    decade
}
