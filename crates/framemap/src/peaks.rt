//! The most taken frames of each tenant in the lines of each column of a history.

ghost use Rattle.std.specs.Prelude.{◌≡◌, ℕ, ◌+◌, ◌-◌, ◌^◌, ◌<◌, ◌≤◌, Some, IfOk, length, slice_get, vec_len};
ghost use Rattle.world_core.specs.World.{World};
ghost use Rattle.kernel_core.specs.Shows.{Shows};
ghost use Rattle.frame_picture.specs.Histories.{columns_of, line_count, most_columns_of, width_of, IsEven, IsComplete};
ghost use Rattle.framemap.specs.Peaks.{frames_taken_in, EachPeak, HaveEnded, HaveMost, HaveNoted, HaveWidened, IsEnded, IsJoined, IsAfterLine, IsPeakNoted, IsPeak, KeepMost, most_in_column};

use frame_picture::history::History;
use kernel_core::Kernel;
use std::alloc::{AllocError, Global};

/// The most taken frames of a tenant in each column, as in its report: page blocks and slabs, including empty slabs.
#[derive(Debug, Drop)]
pub struct Peak {
    /// The number of taken frames after the last line that named the tenant.
    now: u32,
    /// The most taken frames since the last column ended.
    since: u32,
    /// The most taken frames in each column that has ended.
    columns: Vec<u32>,
}

impl Peak {
    /// Returns the peak of a tenant that has no frame, with at most this number of columns. Fails if memory runs out.
    fn new(alloc: Global, most_columns: u32) -> Result<Peak, AllocError>
        ensures { IfOk result (λ peak. (taken : ℕ → ℕ) (width : ℕ) → taken 0 ≡ 0 → IsPeak taken 0 width 0 most_columns peak) }
    {
        Ok(Peak {
            now: 0,
            since: 0,
            columns: vec![in alloc; 0; most_columns as usize]?,
        })
    }

    /// Notes the number of taken frames after a line.
    fn note(&mut self, taken: u32)
        ensures { IsPeakNoted taken self.old self.new }
    {
        self.now = taken;
        self.since = self.since.max(taken);
    }

    /// Joins the `ended` columns in pairs. If a column is left over, it becomes a part of the one that has not ended.
    fn join(&mut self, ended: usize)
        ensures { IsJoined ended self.old self.new }
    {
        let ended = ended.min(self.columns.len());
        for i in 0..ended / 2 {
            self.columns[i] = self.columns[2 * i].max(self.columns[2 * i + 1]);
        }
        if ended % 2 == 1 {
            self.since = self.since.max(self.columns[ended - 1]);
        }
    }

    /// Ends one more column after `ended` others.
    fn end_column(&mut self, ended: usize)
        ensures { IsEnded ended self.old self.new }
    {
        let since = self.since;
        self.since = self.now;
        if ended < self.columns.len() {
            self.columns[ended] = since;
        }
    }
}

/// The peaks of tenants in the columns of a history. A column's peak includes the state after the last line of the column before
/// it.
#[derive(Debug, Drop)]
pub struct Peaks {
    /// The peaks, indexed by tenant.
    of_tenants: Vec<Peak>,
    /// The number of columns that have ended.
    ended: usize,
    /// The number of lines per column.
    width: u32,
}

impl Peaks {
    /// Returns the peaks of this number of tenants before the first line, in at most `most_columns` columns. Fails if memory runs
    /// out.
    pub fn new(alloc: Global, tenants: u32, most_columns: u32) -> Result<Peaks, AllocError>
        ensures tenants { IfOk result (λ peaks. vec_len peaks.of_tenants ≡ tenants) }
        ensures width { IfOk result (λ peaks. peaks.width ≡ 1) }
        ensures ended { IfOk result (λ peaks. peaks.ended ≡ 0) }
        ensures none { IfOk result (λ peaks. (t : ℕ) (peak : Peak) → slice_get peaks.of_tenants.items t ≡ Some peak
            → (taken : ℕ → ℕ) (width : ℕ) → taken 0 ≡ 0 → IsPeak taken 0 width 0 most_columns peak) }
    {
        let mut of_tenants = Vec::with_capacity(alloc, tenants as usize)?;
        for _tenant in 0..tenants {
            of_tenants.push(Peak::new(alloc, most_columns)?)?;
        }
        Ok(Peaks {
            of_tenants,
            ended: 0,
            width: 1,
        })
    }

    /// Adds a line, which the kernel has just run, to the history, and notes the taken frames of the tenant that the line names.
    #[inline(always)]
    pub fn add_line(&mut self, history: &mut History, kernel: &Kernel, named: Option<u32>)
        ensures counted { line_count history.old < 2 ^ 32 - 1 → line_count history.new ≡ line_count history.old + 1 }
        ensures most_columns { most_columns_of history.new ≡ most_columns_of history.old }
        ensures even { line_count history.old < 2 ^ 30 → IsEven (columns_of history.old) (width_of history.old) (line_count history.old)
            → IsEven (columns_of history.new) (width_of history.new) (line_count history.new) }
        ensures tenants { vec_len self.new.of_tenants ≡ vec_len self.old.of_tenants }
        ensures most { (taken : ℕ → ℕ → ℕ) → line_count history.old < 2 ^ 30
            → IsEven (columns_of history.old) (width_of history.old) (line_count history.old)
            → IsAfterLine taken (line_count history.old) named kernel.now → KeepMost taken history.old self.old → KeepMost taken history.new self.new }
    {
        history.add_line(kernel);
        if self.of_tenants.is_empty() {
            return;
        }
        self.note(kernel, named);
        self.widen(history.width());
        self.end_column(history.columns().len());
    }

    /// Ends the history, and its last column.
    pub fn end(&mut self, history: &mut History, kernel: &Kernel)
        ensures lines { line_count history.new ≡ line_count history.old }
        ensures tenants { vec_len self.new.of_tenants ≡ vec_len self.old.of_tenants }
        ensures most { (taken : ℕ → ℕ → ℕ) → 0 < most_columns_of history.old → line_count history.old ≤ 2 ^ 30
            → IsEven (columns_of history.old) (width_of history.old) (line_count history.old)
            → KeepMost taken history.old self.old → HaveMost taken history.new self.new }
    {
        history.end(kernel);
        self.widen(history.width());
        self.end_column(history.columns().len());
    }

    /// Notes the taken frames of the tenant that a line names, after the line.
    fn note(&mut self, kernel: &Kernel, named: Option<u32>)
        ensures { HaveNoted named kernel.now self.old self.new }
    {
        let Some(t) = named else {
            return;
        };
        if let Some(peak) = self.of_tenants.get_mut(t as usize) {
            peak.note(frames_taken_of(kernel, t));
        }
    }

    /// Joins the columns in pairs, unless they have this width already.
    fn widen(&mut self, width: u32)
        ensures { HaveWidened width self.old self.new }
    {
        if self.width == width {
            return;
        }
        join_all(&mut self.of_tenants, self.ended);
        self.ended /= 2;
        self.width = width;
    }

    /// Ends one more column, unless this number of columns has ended already.
    fn end_column(&mut self, columns: usize)
        ensures { HaveEnded columns self.old self.new }
    {
        if self.ended >= columns {
            return;
        }
        end_all(&mut self.of_tenants, self.ended);
        self.ended += 1;
    }

    /// Returns the most taken frames of tenant `t` in a column, or 0 if the tenant has no peak.
    pub fn most(&self, t: u8, column: usize) -> u32
        ensures { result ≡ most_in_column self.now t column }
    {
        match self.of_tenants.get(t as usize) {
            Some(peak) => peak.columns.get(column).copied().unwrap_or(0),
            None => 0,
        }
    }
}

/// Joins the columns of each peak in pairs.
fn join_all(peaks: &mut [Peak], ended: usize)
    ensures tenants { length peaks.new ≡ length peaks.old }
    ensures joined { EachPeak (λ _. IsJoined ended) peaks.old peaks.new }
{
    for peak in peaks.iter_mut() {
        peak.join(ended);
    }
}

/// Ends one more column of each peak after `ended` others.
fn end_all(peaks: &mut [Peak], ended: usize)
    ensures tenants { length peaks.new ≡ length peaks.old }
    ensures one { EachPeak (λ _. IsEnded ended) peaks.old peaks.new }
{
    for peak in peaks.iter_mut() {
        peak.end_column(ended);
    }
}

/// Returns the number of taken frames of tenant `t`, or 0 if there is no such tenant.
fn frames_taken_of(kernel: &Kernel, t: u32) -> u32
    ensures { (w : World) → Shows kernel.now w → result ≡ frames_taken_in w t }
{
    match kernel.tenant(t) {
        Some(t) => kernel.block_figures(t).live,
        None => 0,
    }
}
