//! Feeds and drains that fail, and replies that are sent before more of the trace is read.

ghost use Rattle.std.specs.Prelude.{◌≡◌, false, IfOk};

use crate::pieces::{in_pieces, taking};
use crate::running::ALL;
use crate::tables::MACHINE;
use kernel_core::Kernel;
use replay_core::{Drain, Feed, ReaderFeed, ReplayError, Tally, WriterDrain, push_all, replay};
use std::alloc::Global;
use std::cell::Cell;
use std::io::{self, ErrorKind, Read, Write};
use std::test::Fail;
use streams::line_end;

const TRACE: &[u8] = b"admin grant 0\n0 alloc 0\n0 read 0 4\n";

/// Returns the tally of a replay in which each line is an event, and none is faulty.
fn tally(lines: u64, written: u128) -> Tally {
    Tally {
        lines,
        events: lines,
        faults: 0,
        written,
    }
}

/// How a replay ends.
#[derive(Clone, Copy)]
enum End {
    Done,
    FeedFails,
    DrainFails,
}

/// Returns whether a replay ended in this way, after this number of lines and this number of written bytes.
fn is_ended(ran: Result<Tally, ReplayError>, end: End, lines: u64, written: u128) -> bool {
    let tally = tally(lines, written);
    match (ran, end) {
        (Ok(done), End::Done) => done == tally,
        (Err(ReplayError::Feed(done)), End::FeedFails) => done == tally,
        (Err(ReplayError::Drain(done)), End::DrainFails) => done == tally,
        _ => false,
    }
}

/// The number of good pulls, and the tally after them: the lines, and the bytes written.
const FAILING_FEEDS: [(u32, u64, u128); 4] = [(0, 0, 0), (14, 1, 37), (19, 1, 37), (24, 2, 48)];

/// When the feed fails, all lines that it returned in full have been run, and a line that it returned in part has not.
#[test]
fn feed_fails(rt: HostRuntime) -> Result<(), Fail> {
    for (good_pulls, lines, written) in FAILING_FEEDS {
        let mut kernel = Kernel::boot(rt.alloc(), MACHINE)?;
        let mut feed = in_pieces(TRACE, 1, good_pulls);
        let ran = replay(&mut kernel, &mut feed, &mut taking(100, ALL), None);
        let fits = is_ended(ran, End::FeedFails, lines, written);
        assert!(rt; fits, "after {good_pulls} pulls");
    }
    Ok(())
}

/// The number of good pushes, the tally after them (lines and bytes written), and the reply to `NEXT_LINE` on the same kernel.
const FAILING_DRAINS: [(u32, u64, u128, &[u8]); 2] = [
    (1, 1, 10, b"0> frame 0\n"),
    (4, 2, 37, b"0> frame 1\n"),
];

const NEXT_LINE: &[u8] = b"0 alloc 0";

/// After a failed drain, the kernel is in the state after the line whose reply was cut.
#[test]
fn drain_fails(rt: HostRuntime) -> Result<(), Fail> {
    for (good_pushes, lines, written, next) in FAILING_DRAINS {
        let mut kernel = Kernel::boot(rt.alloc(), MACHINE)?;
        let mut feed = in_pieces(TRACE, 100, ALL);
        let ran = replay(&mut kernel, &mut feed, &mut taking(10, good_pushes), None);
        let fits = is_ended(ran, End::DrainFails, lines, written);
        let mut drain = taking(100, ALL);
        let mut feed = in_pieces(NEXT_LINE, 100, ALL);
        replay(&mut kernel, &mut feed, &mut drain, None)?;
        assert!(rt; fits && drain.taken() == next, "after {good_pushes} pushes");
    }
    Ok(())
}

/// The limit of a feed in bytes, how a replay of `TRACE` then ends, and its tally (lines and bytes written).
const ROOMS: [(u64, End, u64, u128); 4] = [
    (0, End::FeedFails, 0, 0),
    (LEN - 1, End::FeedFails, 2, 48),
    (LEN, End::Done, 3, 66),
    (LEN + 1, End::Done, 3, 66),
];

/// The length of the trace in bytes.
const LEN: u64 = TRACE.len() as u64;

/// When a feed has reached its limit, it reads once more. If the reader has no more bytes, the feed ends. If the reader has
/// more, the feed fails.
#[test]
fn room_ends(rt: HostRuntime) -> Result<(), Fail> {
    for (room, end, lines, written) in ROOMS {
        let mut kernel = Kernel::boot(rt.alloc(), MACHINE)?;
        let mut feed = ReaderFeed::with_room(TRACE, room);
        let ran = replay(&mut kernel, &mut feed, &mut taking(100, ALL), None);
        let fits = is_ended(ran, end, lines, written)
            && feed.ended() == ran.is_ok()
            && feed.failed() == ran.is_err()
            && feed.room() == room.saturating_sub(LEN);
        assert!(rt; fits, "room for {room} bytes");
    }
    Ok(())
}

/// What a reader and a writer record about their calls.
#[derive(Drop)]
struct Log {
    /// The number of successful writes.
    writes: Cell<u32>,
    flushes: Cell<u32>,
    /// Whether bytes were written after the last flush.
    unsent: Cell<bool>,
    /// Whether the reader was called while written bytes were not flushed.
    late: Cell<bool>,
}

fn no_calls() -> Log {
    Log {
        writes: Cell::new(0),
        flushes: Cell::new(0),
        unsent: Cell::new(false),
        late: Cell::new(false),
    }
}

/// A reader that returns one line per read. After `good_reads` reads one read is interrupted, and the next one returns the line.
#[derive(Drop)]
struct LineReader<'a> {
    rest: &'a [u8],
    good_reads: u32,
    log: &'a Log,
}

impl Read for LineReader<'_> {
    fn read(&mut self, buf: &mut [u8]) -> io::Result<usize> {
        if self.log.unsent.get() {
            self.log.late.set(true);
        }
        if self.good_reads == 0 {
            self.good_reads = ALL;
            return Err(ErrorKind::Interrupted.into());
        }
        self.good_reads -= 1;
        let line = match line_end(self.rest) {
            Some(end) => end + 1,
            None => self.rest.len(),
        };
        let count = buf.len().min(line);
        buf[..count].copy_from_slice(&self.rest[..count]);
        self.rest = &self.rest[count..];
        Ok(count)
    }
}

/// A writer that takes all bytes and counts its calls. After `good_writes` writes one write takes no byte, and after
/// `good_flushes` flushes one flush is interrupted. The next call succeeds.
#[derive(Drop)]
struct LogWriter<'a> {
    good_writes: u32,
    good_flushes: u32,
    log: &'a Log,
}

impl Write for LogWriter<'_> {
    fn write(&mut self, buf: &[u8]) -> io::Result<usize> {
        if self.good_writes == 0 {
            self.good_writes = ALL;
            return Ok(0);
        }
        self.good_writes -= 1;
        self.log.writes.set(self.log.writes.get().saturating_add(1));
        self.log.unsent.set(true);
        Ok(buf.len())
    }

    fn flush(&mut self) -> io::Result<()> {
        if self.good_flushes == 0 {
            self.good_flushes = ALL;
            return Err(ErrorKind::Interrupted.into());
        }
        self.good_flushes -= 1;
        self.log
            .flushes
            .set(self.log.flushes.get().saturating_add(1));
        self.log.unsent.set(false);
        Ok(())
    }
}

/// The numbers of good reads, writes and flushes.
type Good = (u32, u32, u32);

/// The sizes of a drain's buffer in bytes: no buffer, less than the first reply to `TRACE`, more than its first two replies but
/// less than all three, and more than all three.
const SIZES: [usize; 4] = [0, 16, 64, 4096];

/// Returns a drain with a buffer of `size` bytes, or without a buffer if `size` is 0.
fn drain_into<'a>(
    alloc: Global,
    size: usize,
    writer: LogWriter<'a>,
) -> Result<WriterDrain<LogWriter<'a>>, Fail>
    ensures { IfOk result (λ drain. ⟦<WriterDrain<LogWriter<'a>> as Drain>⟧.has_failed drain ≡ false) }
{
    if size == 0 {
        return Ok(WriterDrain::new(writer));
    }
    Ok(WriterDrain::holding(writer, Vec::with_capacity(alloc, size)?))
}

/// How a replay ended, whether it and a flush after it succeeded, and the number of bytes that were then unwritten.
#[derive(Drop)]
struct Told {
    ran: Result<Tally, ReplayError>,
    flushed: bool,
    unwritten: usize,
}

/// Runs a replay from a [`LineReader`] to a [`LogWriter`], and flushes the drain if the replay succeeded.
fn between(alloc: Global, trace: &[u8], size: usize, log: &Log, good: Good) -> Result<Told, Fail> {
    let (good_reads, good_writes, good_flushes) = good;
    let mut kernel = Kernel::boot(alloc, MACHINE)?;
    let mut feed = ReaderFeed::new(LineReader {
        rest: trace,
        good_reads,
        log,
    });
    let mut drain = drain_into(
        alloc,
        size,
        LogWriter {
            good_writes,
            good_flushes,
            log,
        },
    )?;
    let ran = replay(&mut kernel, &mut feed, &mut drain, None);
    let flushed = ran.is_ok() && drain.flush().is_ok();
    Ok(Told {
        ran,
        flushed,
        unwritten: drain.unwritten(),
    })
}

/// How a replay ends, its tally (lines and bytes written), whether it and the flush after it succeed, and the number of bytes
/// that are then unwritten.
type Ending = (End, u64, u128, bool, usize);

/// The numbers of good reads, writes and flushes, and the ending with each size of the drain's buffer: 0, 16, 64 and 4,096 bytes.
/// A buffer of 16 bytes is large enough for the second reply to `TRACE`, but not for the other two.
const STAYING: [(Good, [Ending; 4]); 9] = [
    ((ALL, ALL, ALL), [(End::Done, 3, 66, true, 0); 4]),
    ((0, ALL, ALL), [(End::FeedFails, 0, 0, false, 0); 4]),
    ((2, ALL, ALL), [(End::FeedFails, 2, 48, false, 0); 4]),
    ((3, ALL, ALL), [(End::FeedFails, 3, 66, false, 0); 4]),
    (
        (ALL, 0, ALL),
        [
            (End::DrainFails, 1, 0, false, 0),
            (End::DrainFails, 1, 0, false, 0),
            (End::DrainFails, 2, 37, false, 37),
            (End::DrainFails, 2, 37, false, 37),
        ],
    ),
    (
        (ALL, 1, ALL),
        [
            (End::DrainFails, 2, 37, false, 0),
            (End::DrainFails, 3, 48, false, 11),
            (End::DrainFails, 3, 48, false, 11),
            (End::DrainFails, 3, 48, false, 11),
        ],
    ),
    ((ALL, ALL, 0), [(End::DrainFails, 2, 37, false, 0); 4]),
    ((ALL, ALL, 2), [(End::Done, 3, 66, false, 0); 4]),
    ((ALL, ALL, 3), [(End::Done, 3, 66, false, 0); 4]),
];

/// A failed read, a write that took no byte and a failed flush are not tried again, although a second try would succeed. If the
/// drain fails while it sends its buffer, the next push fails, or the flush after the replay does.
#[test]
fn failures_stay(rt: HostRuntime) -> Result<(), Fail> {
    for (good, endings) in STAYING {
        for (size, ending) in SIZES.into_iter().zip(endings) {
            let (end, lines, written, flushed, unwritten) = ending;
            let told = between(rt.alloc(), TRACE, size, &no_calls(), good)?;
            let fits = is_ended(told.ran, end, lines, written)
                && told.flushed == flushed
                && told.unwritten == unwritten;
            let (good_reads, good_writes, good_flushes) = good;
            assert!(rt;
                fits,
                "{good_reads} {good_writes} {good_flushes}, a buffer of {size} bytes"
            );
        }
    }
    Ok(())
}

/// Traces, each with the numbers of writes and flushes that a replay of it makes.
const CALLS: [(&[u8], u32, u32); 4] = [
    (TRACE, 3, 4),
    (b"", 0, 1),
    (b"# note\n\n# note\n", 0, 1),
    (b"# note\nfrob\n\n# note\n", 1, 2),
];

/// Each reply is sent before the reader is called again. A replay makes the numbers of writes and flushes in `CALLS`.
#[test]
fn answers_at_once(rt: HostRuntime) -> Result<(), Fail> {
    for (trace, writes, flushes) in CALLS {
        for size in SIZES {
            let log = no_calls();
            let told = between(rt.alloc(), trace, size, &log, (ALL, ALL, ALL))?;
            assert!(rt; told.ran.is_ok() && told.flushed);
            assert!(rt; !log.late.get());
            assert!(rt; log.writes.get() == writes);
            assert!(rt; log.flushes.get() == flushes);
        }
    }
    Ok(())
}

/// The size of the buffer of a program's drain, in bytes.
const FULL: usize = 65_536;

/// The number of bytes that are pushed, and the number of bytes that are then still in the drain's buffer.
const FILLINGS: [(usize, usize); 3] = [(FULL - 1, FULL - 1), (FULL, FULL), (FULL + 1, 1)];

/// A drain is flushed without an error if its buffer is full, if one byte of it is free, and if the last byte pushed did not fit.
#[test]
fn full_buffer_is_flushed(rt: HostRuntime) -> Result<(), Fail> {
    for (len, held) in FILLINGS {
        let replies = vec![in rt.alloc(); b'0'; len]?;
        let mut written = Vec::new(rt.alloc());
        let mut drain = WriterDrain::holding(&mut written, Vec::with_capacity(rt.alloc(), FULL)?);
        let mut count = 0;
        let (first, last) = replies.split_at(replies.len().min(FULL));
        let fits = push_all(first, &mut drain, &mut count).is_ok()
            && push_all(last, &mut drain, &mut count).is_ok()
            && drain.unwritten() == held
            && drain.flush().is_ok();
        drop(drain);
        assert!(rt; fits && written == replies, "{len} bytes");
    }
    Ok(())
}
