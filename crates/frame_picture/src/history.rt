//! The states of a machine over the lines of a trace.

ghost use Rattle.std.specs.Prelude.{◌≡◌, ℕ, ◌+◌, ◌*◌, ◌/◌, ◌%◌, ◌^◌, ◌<◌, ◌≤◌, ◌⊎◌, min, IfOk, Option, Some, length, replicate, slice_get, slice_index, slice_set, vec_len};
ghost use Rattle.model_core.specs.declared.limits.TheConstants.{WIDE_ORDER, WIDE_TENANTS};

use crate::showing::{show_figures, show_refused, show_sheets};
use kernel_core::{FrameKind, Kernel};
use model_core::limits::WIDE_ORDER;
use model_core::owner::Owner;
use std::alloc::{AllocError, Global};

/// The largest number of columns. With this number, the kinds of the frames, one byte each, need as many bytes as the machine's
/// RAM.
pub const MAX_COLUMNS: u32 = 4096;

/// The state of a superblock after some line of a trace.
#[derive(Debug, Drop)]
pub struct Sheet {
    /// Its owner, if it has one.
    pub owner: Option<Owner>,
    /// The kind of each of its frames, if it has an owner.
    pub cells: Vec<FrameKind>,
}

/// The number of orders of blocks, 0 to 10.
pub const ORDERS: usize = WIDE_ORDER as usize + 1;

/// A tenant's frames, as in its report.
#[derive(Clone, Copy, Debug)]
pub struct Figures {
    /// The number of frames in its slots.
    pub held: u32,
    /// The number of these frames that are in taken blocks.
    pub taken: u32,
    /// The number of free blocks of each order.
    pub free: [u32; ORDERS],
}

/// The state of a machine after some line of a trace.
#[derive(Debug, Drop)]
pub struct Column {
    /// The number of lines that the machine had run.
    pub line: u32,
    /// The superblocks, indexed by number.
    pub sheets: Vec<Sheet>,
    /// The figures of each tenant.
    pub figures: Vec<Figures>,
    /// For each tenant, the number of its requests that had been refused for lack of frames.
    pub refused: Vec<u32>,
}

/// The states of a machine over a trace, in a fixed number of columns, each with the same number of lines.
///
/// The length of the trace is unknown before its end, and a pipe cannot be read twice. So each line has its own column at first.
/// Whenever all columns are in use, every second one is dropped, and each column then has twice as many lines. A history
/// allocates nothing after it is made, for traces of any length.
#[derive(Debug, Drop)]
pub struct History {
    /// A superblock has `2^order` frames.
    order: u32,
    superblocks: u32,
    tenants: u32,
    columns: Vec<Column>,
    /// For each tenant, the number of its requests that were refused for lack of frames.
    refused: Vec<u32>,
    /// The number of columns in use.
    kept: usize,
    /// The number of lines per column.
    width: u32,
    /// The number of lines that were run.
    lines: u32,
    ghost small: { order ≤ WIDE_ORDER },
    ghost few: { tenants ≤ WIDE_TENANTS },
    ghost some: { 0 < width },
    ghost within: { kept ≤ vec_len columns },
}

impl History {
    ghost use Rattle.frame_picture.specs.declared.history.Column.{Column};
    ghost use Rattle.frame_picture.specs.Columns.{IsColumnAfter};
    ghost use Rattle.frame_picture.specs.Histories.{drawn_order, superblocks_of, tenants_of, columns_of, most_columns_of, width_of, line_count, refusals_of, SameShape, Doubles, IsEven, IsComplete};

    /// Returns the history of a machine that has run no line, with at most `most_columns` columns. Fails if memory runs out.
    pub fn new(alloc: Global, kernel: &Kernel, most_columns: u32) -> Result<History, AllocError>
        ensures order { IfOk result (λ history. drawn_order history ≡ kernel.now.order) }
        ensures superblocks { IfOk result (λ history. superblocks_of history ≡ kernel.now.superblocks) }
        ensures tenants { IfOk result (λ history. tenants_of history ≡ kernel.now.tenants) }
        ensures most_columns { IfOk result (λ history. most_columns_of history ≡ most_columns) }
        ensures refused { IfOk result (λ history. refusals_of history ≡ replicate kernel.now.tenants 0) }
        ensures lines { IfOk result (λ history. line_count history ≡ 0) }
        ensures width { IfOk result (λ history. width_of history ≡ 1) }
        ensures even { IfOk result (λ history. IsEven (columns_of history) (width_of history) (line_count history)) }
    {
        kernel.parts_agree();
        let mut columns = Vec::with_capacity(alloc, most_columns as usize)?;
        for _column in 0..most_columns {
            columns.push(Column::new(alloc, kernel)?)?;
        }
        Ok(History {
            order: kernel.order(),
            superblocks: kernel.superblocks(),
            tenants: kernel.tenants(),
            columns,
            refused: vec![in alloc; 0; kernel.tenants() as usize]?,
            kept: 0,
            width: 1,
            lines: 0,
        })
    }

    /// Returns the order of a superblock, which has `2^order` frames.
    pub fn order(&self) -> u32
        ensures value { result ≡ drawn_order self.now }
        ensures small { result ≤ WIDE_ORDER }
    {
        self.order
    }

    /// Returns the number of superblocks of the machine.
    pub fn superblocks(&self) -> u32
        ensures value { result ≡ superblocks_of self.now }
    {
        self.superblocks
    }

    /// Returns the number of tenants that share the machine.
    pub fn tenants(&self) -> u32
        ensures value { result ≡ tenants_of self.now }
        ensures few { result ≤ WIDE_TENANTS }
    {
        self.tenants
    }

    /// Returns the largest number of columns.
    pub fn most_columns(&self) -> usize
        ensures { result ≡ most_columns_of self.now }
    {
        self.columns.len()
    }

    /// Returns the columns in use.
    pub fn columns(&self) -> &[Column]
        ensures all { result.now ≡ columns_of self.now }
        ensures fit { length result.now ≤ most_columns_of self.now }
    {
        &self.columns[..self.kept]
    }

    /// Returns the number of lines per column. The last column may have fewer.
    pub fn width(&self) -> u32
        ensures value { result ≡ width_of self.now }
        ensures some { 0 < result }
    {
        self.width
    }

    /// Returns the number of lines that were run.
    pub fn lines(&self) -> u32
        ensures { result ≡ line_count self.now }
    {
        self.lines
    }

    /// Counts a request of tenant `t` that was refused for lack of frames, in the line that is run now.
    pub fn add_refusal(&mut self, t: u8)
        ensures counted { refusals_of self.new
            ≡ slice_set (refusals_of self.old) t (min (slice_index (refusals_of self.old) t + 1) u32.MAX) }
        ensures sizes { SameShape self.old self.new }
        ensures lines { line_count self.new ≡ line_count self.old }
        ensures width { width_of self.new ≡ width_of self.old }
        ensures columns { columns_of self.new ≡ columns_of self.old }
    {
        if let Some(count) = self.refused.get_mut(t as usize) {
            *count = count.saturating_add(1);
        }
    }

    /// Counts one more line, which the kernel has just run. If the new number of lines is a multiple of the width and all columns
    /// are in use, every second column is dropped and the width doubles. After that, if the number of lines is a multiple of the
    /// width, the next column gets the state of the kernel.
    pub fn add_line(&mut self, kernel: &Kernel)
        ensures counted { line_count self.old < u32.MAX → line_count self.new ≡ line_count self.old + 1 }
        ensures sizes { SameShape self.old self.new }
        ensures refused { refusals_of self.new ≡ refusals_of self.old }
        ensures width { width_of self.old ≤ width_of self.new }
        // The width doubles only if the number of lines is a multiple of it and all columns are in use. Else it stays the same.
        ensures full { (width_of self.new ≡ width_of self.old)
            ⊎ ((line_count self.new % width_of self.old ≡ 0) × Doubles self.old self.new) }
        ensures even { line_count self.old < 2 ^ 30 → IsEven (columns_of self.old) (width_of self.old) (line_count self.old)
            → IsEven (columns_of self.new) (width_of self.new) (line_count self.new) }
        ensures shown { (i : ℕ) (column : Column) → slice_get (columns_of self.new) i ≡ Some column
            → ((k : ℕ) × (slice_get (columns_of self.old) k ≡ Some column)) ⊎ IsColumnAfter kernel.now (line_count self.new) (refusals_of self.new) column }
    {
        let line = self.lines.saturating_add(1);
        self.halve_if_full(line);
        self.lines = line;
        if line % self.width == 0 {
            self.keep(kernel);
        }
    }

    /// Drops every second column if `line`, the number of the next line, is a multiple of the width and all columns are in use.
    fn halve_if_full(&mut self, line: u32)
        ensures lines { line_count self.new ≡ line_count self.old }
        ensures sizes { SameShape self.old self.new }
        ensures refused { refusals_of self.new ≡ refusals_of self.old }
        ensures width { width_of self.old ≤ width_of self.new }
        ensures full { (width_of self.new ≡ width_of self.old) ⊎ ((line % width_of self.old ≡ 0) × Doubles self.old self.new) }
        ensures shown { (i : ℕ) (column : Column) → slice_get (columns_of self.new) i ≡ Some column
            → (k : ℕ) × (slice_get (columns_of self.old) k ≡ Some column) }
        ensures even { line ≡ line_count self.old + 1 → line ≤ 2 ^ 30 → IsEven (columns_of self.old) (width_of self.old) (line_count self.old)
            → IsEven (columns_of self.new) (width_of self.new) (line_count self.new) }
        ensures due { line ≡ line_count self.old + 1 → IsEven (columns_of self.old) (width_of self.old) (line_count self.old)
            → line ≤ 2 ^ 30 → line % width_of self.new ≡ 0 → length (columns_of self.new) < most_columns_of self.new }
    {
        if line % self.width == 0 && self.kept >= self.columns.len() {
            self.halve();
        }
    }

    /// Ends the history. If the last lines have no column yet, the next column gets the state of the kernel. If all columns are
    /// in use, every second one is dropped first.
    pub fn end(&mut self, kernel: &Kernel)
        ensures lines { line_count self.new ≡ line_count self.old }
        ensures sizes { SameShape self.old self.new }
        ensures refused { refusals_of self.new ≡ refusals_of self.old }
        ensures done { line_count self.old % width_of self.old ≡ 0 → self.new ≡ self.old }
        ensures width { width_of self.old ≤ width_of self.new }
        ensures full { (width_of self.new ≡ width_of self.old) ⊎ Doubles self.old self.new }
        ensures complete { 0 < most_columns_of self.old → line_count self.old ≤ 2 ^ 30
            → IsEven (columns_of self.old) (width_of self.old) (line_count self.old)
            → IsComplete (columns_of self.new) (width_of self.new) (line_count self.new) }
        ensures shown { (i : ℕ) (column : Column) → slice_get (columns_of self.new) i ≡ Some column
            → ((k : ℕ) × (slice_get (columns_of self.old) k ≡ Some column)) ⊎ IsColumnAfter kernel.now (line_count self.new) (refusals_of self.new) column }
    {
        if self.lines % self.width == 0 {
            return;
        }
        if self.kept >= self.columns.len() {
            self.halve();
        }
        self.keep(kernel);
    }

    /// Stores the state of the kernel in the next column. Does nothing if all columns are in use.
    fn keep(&mut self, kernel: &Kernel)
        ensures lines { line_count self.new ≡ line_count self.old }
        ensures sizes { SameShape self.old self.new }
        ensures refused { refusals_of self.new ≡ refusals_of self.old }
        ensures width { width_of self.new ≡ width_of self.old }
        ensures one { length (columns_of self.old) < most_columns_of self.old → length (columns_of self.new) ≡ length (columns_of self.old) + 1 }
        ensures none { most_columns_of self.old ≤ length (columns_of self.old) → columns_of self.new ≡ columns_of self.old }
        ensures before { (i : ℕ) → i < length (columns_of self.old) → slice_get (columns_of self.new) i ≡ slice_get (columns_of self.old) i }
        ensures last { (column : Column) → length (columns_of self.old) < most_columns_of self.old
            → slice_get (columns_of self.new) (length (columns_of self.old)) ≡ Some column → IsColumnAfter kernel.now (line_count self.old) (refusals_of self.old) column }
    {
        if let Some(column) = self.columns.get_mut(self.kept) {
            column.show(kernel, self.lines, &self.refused);
            self.kept += 1;
        }
    }

    /// Drops the first column and every second one after it. Each column that is left has twice as many lines.
    fn halve(&mut self)
        ensures lines { line_count self.new ≡ line_count self.old }
        ensures sizes { SameShape self.old self.new }
        ensures refused { refusals_of self.new ≡ refusals_of self.old }
        ensures width { width_of self.new ≡ min (2 * width_of self.old) u32.MAX }
        ensures wider { width_of self.old ≤ width_of self.new }
        ensures half { length (columns_of self.new) ≡ length (columns_of self.old) / 2 }
        ensures second { (i : ℕ) → i < length (columns_of self.new)
            → slice_get (columns_of self.new) i ≡ slice_get (columns_of self.old) (2 * i + 1) }
    {
        let half = self.kept / 2;
        for i in 0..half {
            self.columns.swap(i, 2 * i + 1);
        }
        self.kept = half;
        self.width = self.width.saturating_mul(2);
    }
}

impl Figures {
    /// The figures of a tenant that holds no frame.
    pub const NONE: Figures = Figures {
        held: 0,
        taken: 0,
        free: [0; ORDERS],
    };
}

impl Column {
    ghost use Rattle.kernel_core.specs.Shows.{Shows};
    ghost use Rattle.world_core.specs.World.{World};
    ghost use Rattle.frame_picture.specs.Columns.{IsColumnOf, IsColumnAfter};

    /// Returns a column that shows no machine yet. Fails if memory runs out.
    fn new(alloc: Global, kernel: &Kernel) -> Result<Column, AllocError> {
        kernel.parts_agree();
        let mut sheets = Vec::with_capacity(alloc, kernel.superblocks() as usize)?;
        for _ in 0..kernel.superblocks() {
            sheets.push(Sheet {
                owner: None,
                cells: vec![in alloc; FrameKind::NotHeld; 1 << kernel.order()]?,
            })?;
        }
        Ok(Column {
            line: 0,
            sheets,
            figures: vec![in alloc; Figures::NONE; kernel.tenants() as usize]?,
            refused: vec![in alloc; 0; kernel.tenants() as usize]?,
        })
    }

    /// Stores the state of the kernel after `line` lines, and for each tenant the number of its requests that were refused for
    /// lack of frames.
    fn show(&mut self, kernel: &Kernel, line: u32, refused: &[u32])
        ensures { IsColumnAfter kernel.now line refused.now self.new }
    {
        self.line = line;
        show_refused(&mut self.refused, refused);
        self.show_world(kernel);
    }

    /// Stores the state of the kernel.
    fn show_world(&mut self, kernel: &Kernel)
        ensures line { self.new.line ≡ self.old.line }
        ensures refused { self.new.refused ≡ self.old.refused }
        ensures shows { (w : World) → Shows kernel.now w → IsColumnOf kernel.now.order w self.new }
    {
        show_sheets(&mut self.sheets, kernel);
        show_figures(&mut self.figures, kernel);
    }
}
