//! The jobs that users wait for, each on its own traces.

ghost use Rattle.replay_core.specs.Standing.{IsRunnable};

use crate::digest::Digest;
use crate::load::{BLOCKS, BYTES, CROWDED, GUESTS, Load, MIXED, OBJECTS};
use crate::maker::Maker;
use crate::numbers::Numbers;
use frame_picture::history::History;
use kernel_core::{Config, Kernel};
use own_trace::keep;
use picture_svg::picture::Picture;
use replay_core::{
    Drain, NoNotes, Notes, Pending, ReaderFeed, ReplayError, WriterDrain, replay_noted,
};
use reply_judge::KnownMachine;
use run_notes::{MAX_NUMBER, RunNotes};
use std::alloc::{AllocError, Global};
use std::io::{BufWriter, Read, Write};
use trace_check::{Finding, LineReader, Shown, Unchecked, check};
use words_core::{Answer, Event, LineFault, Refusal};

/// The capacity of a trace, in bytes per line.
const LINE_BYTES: usize = 32;

/// The size of a drain's buffer in bytes.
const BUFFER_BYTES: usize = 65_536;

/// The largest number of columns of a picture.
const COLUMNS: u32 = 600;

/// What is done with each trace.
#[derive(Clone, Copy, Debug, PartialEq, Eq)]
pub enum Job {
    /// The trace is replayed, once for all tenants and once for one.
    Replay,
    /// A tenant's own list of the trace is written.
    Own,
    /// The trace is replayed, and its faults and refusals are noted.
    Tally,
    /// The replies to the trace are checked, and then checked again with one bit changed.
    Check,
    /// The picture of the trace is drawn.
    Picture,
}

/// A job on a load, with the number of traces and the number of lines in each.
#[derive(Clone, Copy, Debug)]
pub struct Work {
    pub job: Job,
    pub load: Load,
    pub traces: u32,
    pub lines: u32,
}

impl Work {
    /// Returns the work with these values.
    const fn of(job: Job, load: Load, traces: u32, lines: u32) -> Work {
        Work {
            job,
            load,
            traces,
            lines,
        }
    }
}

/// Returns each [`Work`] of the workload with this name, or an empty vector if the name is unknown. Fails if memory runs out.
pub fn works_of(alloc: Global, name: &str) -> Result<Vec<Work>, AllocError> {
    let mut works = Vec::new(alloc);
    let loads = [
        (GUESTS, 4u32, 250_000u32),
        (BLOCKS, 4, 250_000),
        (OBJECTS, 4, 250_000),
        (BYTES, 2, 250_000),
        (MIXED, 2, 250_000),
    ];
    match name {
        "replay" => {
            for (load, traces, lines) in loads {
                works.push(Work::of(Job::Replay, load, traces, lines))?;
            }
        }
        "own" => {
            for (load, traces, lines) in loads {
                works.push(Work::of(Job::Own, load, traces, lines))?;
            }
        }
        "tally" => {
            for (load, traces, lines) in loads {
                works.push(Work::of(Job::Tally, load, traces, lines))?;
            }
        }
        "check" => {
            for (load, traces, lines) in loads {
                works.push(Work::of(Job::Check, load, traces, lines / 4))?;
            }
        }
        "picture" => {
            works.push(Work::of(Job::Picture, GUESTS, 1, 60_000))?;
            works.push(Work::of(Job::Picture, MIXED, 1, 60_000))?;
            works.push(Work::of(Job::Picture, CROWDED, 1, 6_000))?;
        }
        "crowded" => {
            works.push(Work::of(Job::Replay, CROWDED, 1, 300_000))?;
            works.push(Work::of(Job::Own, CROWDED, 1, 300_000))?;
            works.push(Work::of(Job::Check, CROWDED, 1, 60_000))?;
        }
        _ => {}
    }
    Ok(works)
}

/// Does a [`Work`] on traces that are made from this seed, and adds all results to the digest.
pub fn run(alloc: Global, work: &Work, seed: u64, digest: &mut Digest) -> Result<(), AllocError> {
    for trace in 0..work.traces {
        let own_seed = seed.wrapping_mul(1000).wrapping_add(u64::from(trace));
        let room = work.lines as usize * LINE_BYTES;
        let mut maker = Maker::new(alloc, work.load, own_seed, room)?;
        maker.make(work.lines)?;
        digest.add(maker.digest.value());
        let lines = maker.trace.as_slice();
        let tenant = u8::try_from(trace % work.load.config.tenants.max(1)).unwrap_or(0);
        match work.job {
            Job::Replay => {
                replay_all(alloc, work.load.config, lines, None, digest)?;
                replay_all(alloc, work.load.config, lines, Some(tenant), digest)?;
            }
            Job::Own => keep_own(alloc, work.load.config, lines, tenant, digest)?,
            Job::Tally => replay_and_note(alloc, work.load.config, lines, digest)?,
            Job::Check => check_both(alloc, work.load.config, lines, own_seed, digest)?,
            Job::Picture => draw(alloc, work.load.config, lines, digest)?,
        }
    }
    Ok(())
}

/// Boots a new machine.
fn booted(alloc: Global, config: Config) -> Result<Kernel, AllocError> {
    Kernel::boot(alloc, config).map_err(|_| AllocError)
}

/// Replays the trace that a reader gives, and writes the replies to a writer: those to one tenant, or all. Returns a number that
/// depends on the counts, the error and the success of the flush.
fn replay_between<R: Read + Drop, W: Write + Drop, N: Notes>(
    alloc: Global,
    config: Config,
    only: Option<u8>,
    reader: R,
    writer: W,
    notes: &mut N,
) -> Result<u64, AllocError> {
    let mut kernel = booted(alloc, config)?;
    let room = Vec::with_capacity(alloc, BUFFER_BYTES)?;
    let mut drain = WriterDrain::holding(writer, room);
    let replayed = replay_noted(
        &mut kernel,
        &mut ReaderFeed::new(reader),
        &mut drain,
        only,
        notes,
    );
    let flushed = !drain.failed() && drain.flush().is_ok();
    let (tally, error) = match replayed {
        Ok(tally) => (tally, 0),
        Err(ReplayError::Feed(tally)) => (tally, 1),
        Err(ReplayError::Drain(tally)) => (tally, 2),
    };
    let counts = [
        tally.lines,
        tally.events,
        tally.faults,
        low(tally.written),
        error,
        u64::from(flushed),
    ];
    Ok(
        counts.iter().fold(
            0u64,
            |sum, count| sum.wrapping_mul(1_000_003).wrapping_add(*count),
        ),
    )
}

/// Reads a trace from a reader, and writes a tenant's own list of this trace to a writer. Returns true if nothing failed.
fn keep_between<R: Read + Drop, W: Write + Drop>(
    alloc: Global,
    config: Config,
    tenant: u8,
    reader: R,
    writer: W,
) -> Result<bool, AllocError> {
    let mut kernel = booted(alloc, config)?;
    let room = Vec::with_capacity(alloc, BUFFER_BYTES)?;
    let mut drain = WriterDrain::holding(writer, room);
    let kept = keep(
        &mut kernel,
        &mut ReaderFeed::new(reader),
        &mut drain,
        tenant,
    );
    let flushed = !drain.failed() && drain.flush().is_ok();
    Ok(kept.is_ok() && flushed)
}

/// Replays a trace, for one tenant or for all, and adds the replies to the digest.
fn replay_all(
    alloc: Global,
    config: Config,
    trace: &[u8],
    only: Option<u8>,
    digest: &mut Digest,
) -> Result<(), AllocError> {
    let ended = replay_between(alloc, config, only, trace, &mut *digest, &mut NoNotes)?;
    digest.add(ended);
    Ok(())
}

/// Replays a trace, and adds the replies and the notes of its faults and refusals to the digest.
fn replay_and_note(
    alloc: Global,
    config: Config,
    trace: &[u8],
    digest: &mut Digest,
) -> Result<(), AllocError> {
    let mut notes = RunNotes::new();
    let ended = replay_between(alloc, config, None, trace, &mut *digest, &mut notes)?;
    digest.add(ended);
    for number in 1..=MAX_NUMBER {
        if let Some(refused) = notes.told(number) {
            digest.add_bytes(format!(in alloc; "{refused}")?.as_bytes());
        }
    }
    for line in notes.first() {
        digest.add_bytes(format!(in alloc; "{line}")?.as_bytes());
    }
    Ok(())
}

/// Adds a tenant's own list of a trace to the digest.
fn keep_own(
    alloc: Global,
    config: Config,
    trace: &[u8],
    tenant: u8,
    digest: &mut Digest,
) -> Result<(), AllocError> {
    let done = keep_between(alloc, config, tenant, trace, &mut *digest)?;
    digest.add(u64::from(done));
    Ok(())
}

/// Checks the replies to a trace, and then checks them again with one bit in their last quarter changed.
fn check_both(
    alloc: Global,
    config: Config,
    trace: &[u8],
    seed: u64,
    digest: &mut Digest,
) -> Result<(), AllocError> {
    let mut replies = Vec::with_capacity(alloc, trace.len().saturating_mul(2))?;
    let ended = replay_between(alloc, config, None, trace, &mut replies, &mut NoNotes)?;
    digest.add(ended);
    digest.add_bytes(replies.as_slice());
    digest.add(checked(alloc, config, trace, replies.as_slice())?);
    let quarter = u32::try_from(replies.len() / 4).unwrap_or(0);
    if quarter > 0 {
        let back = Numbers::new(seed).below(quarter) as usize + 1;
        let at = replies.len().saturating_sub(back);
        if let Some(byte) = replies.get_mut(at) {
            *byte ^= 1;
        }
        digest.add(checked(alloc, config, trace, replies.as_slice())?);
    }
    Ok(())
}

/// Checks the replies to a trace. Returns a number that depends on the finding.
fn checked(alloc: Global, config: Config, trace: &[u8], replies: &[u8]) -> Result<u64, AllocError> {
    if !config.is_bootable() {
        return Ok(0);
    }
    let mut machine = KnownMachine::new(
        alloc,
        config.order as u8,
        config.superblocks as u16,
        config.tenants as u8,
    )?;
    let mut trace = LineReader::new(ReaderFeed::with_room(trace, u64::MAX));
    let mut replies = LineReader::new(ReaderFeed::with_room(replies, u64::MAX));
    let found = check(&mut machine, &mut trace, &mut replies, &mut Shown::new());
    match found {
        Ok(Finding::Kept(lines)) => Ok(low(lines)),
        Ok(Finding::Broken(breach)) => Ok(
            low(breach.line)
                .wrapping_mul(31)
                .wrapping_add(low(breach.reply))
                .wrapping_mul(31)
                .wrapping_add(breach.promise as u64),
        ),
        Err(Unchecked::Memory) => Err(AllocError),
        Err(Unchecked::Trace) => Ok(1 << 60),
        Err(Unchecked::Replies) => Ok(1 << 61),
    }
}

/// Returns a count, or 0 if it does not fit into 64 bits.
fn low(count: u128) -> u64 {
    u64::try_from(count).unwrap_or(0)
}

/// Runs a trace, and adds its picture to the digest.
fn draw(
    alloc: Global,
    config: Config,
    trace: &[u8],
    digest: &mut Digest,
) -> Result<(), AllocError> {
    let mut kernel = booted(alloc, config)?;
    let mut history = History::new(alloc, &kernel, COLUMNS)?;
    let mut picture = Picture::new(alloc, &history, None)?;
    let mut pending = Pending::new();
    for line in trace.split(|byte| *byte == b'\n') {
        watch_line(pending.end_with(line), &mut kernel, &mut history);
    }
    history.end(&kernel);
    let drawn = draw_into(alloc, &history, &mut picture, &mut *digest);
    digest.add(u64::from(drawn));
    Ok(())
}

/// Adds a picture to the digest. Returns true if it was written.
fn draw_into(alloc: Global, history: &History, picture: &mut Picture, digest: &mut Digest) -> bool {
    let Ok(mut writer) = BufWriter::with_capacity(alloc, BUFFER_BYTES, digest) else {
        return false;
    };
    picture.draw(history, Some("trace"), &mut writer).is_ok()
}

/// Runs a line, as `framemap` does, and adds the state of the machine after it to the history.
fn watch_line(reading: Result<Option<Event>, LineFault>, kernel: &mut Kernel, history: &mut History)
    requires { IsRunnable reading }
{
    match reading {
        Ok(Some(Event::Admin(command))) => {
            let _ = kernel.administer(&command);
        }
        Ok(Some(Event::Tenant(tenant, command))) => {
            if let Some(request) = command.request()
                && let Some((t, Answer::Refused(Refusal::NoFrames))) = kernel.ask(tenant, request)
            {
                history.add_refusal(t);
            }
        }
        Ok(None) | Err(_) => {}
    }
    history.add_line(kernel);
}
