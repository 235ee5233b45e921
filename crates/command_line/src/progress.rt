//! The progress of a run through a large file: a line on a terminal, which is erased at the end.

ghost use Rattle.std.specs.Prelude.{◌≡◌, ◌+◌, ◌-◌, ◌^◌, ◌<◌, ◌≤◌, ◌==◌, false, None, Some, IfSome, count_by, length, min};
ghost use Rattle.command_line.specs.Progress.{percent_of, position_text};

use crate::arguments::Program;
use std::io::{self, Read};
use std::rt::{Clock, Files};
use std::time::Instant;
use std::{fmt, fs};

/// The largest input for which no progress is shown, 64 MiB. An input of this size is run in about a second.
const SMALL_BYTES: u64 = 64 << 20;

/// The number of seconds until the line is first shown, and then between two updates of the line. So a run of less than a second
/// shows nothing, and a longer run spends nearly no time on the line.
const SECONDS_BETWEEN: u64 = 1;

/// How far a run has come in a file.
#[derive(Clone, Copy, Debug)]
struct Position {
    /// The number of line feeds read so far.
    lines: u64,
    /// The number of bytes read so far.
    bytes: u64,
    /// The size of the file in bytes.
    size: u64,
    ghost some: { 0 < size },
}

impl Position {
    /// Counts the bytes and the line feeds of a piece that was read.
    fn add(&mut self, piece: &[u8])
        ensures lines { self.new.lines ≡ min (self.old.lines + count_by (λ byte. byte == 10) piece.now) (2 ^ 64 - 1) }
        ensures bytes { self.new.bytes ≡ min (self.old.bytes + length piece.now) (2 ^ 64 - 1) }
        ensures size { self.new.size ≡ self.old.size }
    {
        let lines = piece.iter().filter(|byte| **byte == b'\n').count();
        self.lines = self.lines.saturating_add(lines as u64);
        self.bytes = self.bytes.saturating_add(piece.len() as u64);
    }

    /// Returns the share of the file that was read, in whole percent, 0 to 100.
    fn percent(&self) -> u64
        ensures { result ≡ percent_of self.now.bytes self.now.size }
    {
        let share = u128::from(self.bytes) * 100 / u128::from(self.size);
        share.min(100) as u64
    }
}

impl fmt::Display for Position {
    ghost output = { λ position. Some (position_text position.lines position.bytes position.size) };

    fn fmt<W: fmt::Write>(&self, f: &mut fmt::Formatter<W>) -> fmt::Result {
        let lines = self.lines;
        let percent = self.percent();
        write!(f, "{lines} lines, {percent} %")
    }
}

/// The progress of a run through a large file. When it is dropped, the line on the terminal is erased.
#[derive(Debug)]
pub struct Progress<'a, P: Eprint + Clock> {
    to: &'a P,
    name: &'a str,
    position: Position,
    /// The time when the line was last shown, or when the run began.
    last: Instant,
    /// True if a line is on the terminal.
    shown: bool,
}

impl<'a, P: Eprint + Clock> Progress<'a, P> {
    /// Returns the progress of a run that begins now in a file of `size` bytes. `all` is the number of bytes in this file and in
    /// the file that is read beside it, if there is one. Returns `None` if the file is empty, if `all` is at most 64 MiB, or if
    /// there is no clock.
    fn begin(to: &'a P, program: Program<'a>, size: u64, all: u64) -> Option<Progress<'a, P>>
        ensures empty { size ≡ 0 → result ≡ None }
        ensures small { all ≤ 2 ^ 26 → result ≡ None }
        ensures named { IfSome result (λ progress. progress.name.now ≡ program.entry.name.now) }
        ensures unread { IfSome result (λ progress. (progress.position.lines ≡ 0) × (progress.position.bytes ≡ 0)) }
        ensures size { IfSome result (λ progress. progress.position.size ≡ size) }
        ensures hidden { IfSome result (λ progress. progress.shown ≡ false) }
    {
        if size == 0 || all <= SMALL_BYTES {
            return None;
        }
        let last = Instant::now(to).ok()?;
        let position = Position {
            lines: 0,
            bytes: 0,
            size,
        };
        Some(Progress {
            to,
            name: program.name,
            position,
            last,
            shown: false,
        })
    }

    /// Shows the line if a second has passed since it was last shown, or since the run began.
    fn show(&mut self) {
        let to = self.to;
        let Ok(now) = Instant::now(to) else {
            return;
        };
        if now.duration_since(self.last).as_secs() >= SECONDS_BETWEEN {
            self.last = now;
            self.shown = true;
            let name = self.name;
            let position = self.position;
            let _unheard = eprint!(to; "\r{name}: {position}");
        }
    }

    /// Erases the line if one is on the terminal.
    fn erase(&mut self) {
        if self.shown {
            self.shown = false;
            let to = self.to;
            let _unheard = eprint!(to; "\r\x1b[K");
        }
    }
}

impl<P: Eprint + Clock> Drop for Progress<'_, P> {
    fn drop(mut self) {
        self.erase();
        let Progress {
            to: _,
            name: _,
            position: _,
            last: _,
            shown: _,
        } = self;
    }
}

/// Returns the progress of a run of `program` that begins now in the file at this path, or in standard input if there is no path.
/// The run may read another file `beside` it.
///
/// Returns `None` if progress is not `wanted`, if one of the files is not a regular file or its size cannot be read, if the first
/// file is empty, if the files have at most 64 MiB in total, or if there is no clock.
pub fn progress_in<'a, P: Files + Eprint + Clock>(
    rt: &'a P,
    program: Program<'a>,
    path: Option<&str>,
    beside: Option<&str>,
    wanted: bool,
) -> Option<Progress<'a, P>>
    ensures unwanted { wanted ≡ false → result ≡ None }
    ensures named { IfSome result (λ progress. progress.name.now ≡ program.entry.name.now) }
    ensures unread { IfSome result (λ progress. (progress.position.lines ≡ 0) × (progress.position.bytes ≡ 0)) }
    ensures hidden { IfSome result (λ progress. progress.shown ≡ false) }
{
    if !wanted {
        return None;
    }
    let size = size_of(rt, path.unwrap_or("/dev/stdin"))?;
    let other = match beside {
        Some(path) => size_of(rt, path)?,
        None => 0,
    };
    Progress::begin(rt, program, size, size.saturating_add(other))
}

/// Returns the size in bytes of the file at this path, or `None` if it is not a regular file or its size cannot be read.
fn size_of(rt: &impl Files, path: &str) -> Option<u64> {
    let metadata = fs::metadata(rt, path).ok()?;
    metadata.is_file().then_some(metadata.len())
}

/// A reader that gives the bytes of another reader, and shows the progress of the run before each read. Before a read, the run
/// has done all whole lines that it was given.
#[derive(Debug, Drop)]
pub struct ProgressReader<'a, R: Read, P: Eprint + Clock> {
    reader: R,
    progress: Option<Progress<'a, P>>,
}

impl<'a, R: Read, P: Eprint + Clock> ProgressReader<'a, R, P> {
    /// Returns a reader over `reader` that shows this progress, if there is one.
    pub fn new(reader: R, progress: Option<Progress<'a, P>>) -> ProgressReader<'a, R, P>
        ensures bytes { ⟦<ProgressReader<'a, R, P> as Read>⟧.remaining result ≡ R.remaining reader }
        ensures shown { result.progress ≡ progress.entry }
    {
        ProgressReader { reader, progress }
    }
}

impl<R: Read, P: Eprint + Clock> Read for ProgressReader<'_, R, P> {
    ghost remaining = { λ s. R.remaining s.reader };

    fn read(&mut self, buf: &mut [u8]) -> io::Result<usize> {
        let Some(progress) = &mut self.progress else {
            return self.reader.read(buf);
        };
        progress.show();
        let given = self.reader.read(buf);
        match given {
            Ok(count) if count > 0 => progress.position.add(&buf[..count]),
            _ => progress.erase(),
        }
        given
    }
}
