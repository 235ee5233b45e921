//! Runs a trace on a new machine whose memory is shared by tenants, and writes the replies to standard output.
//!
//! `partmem --order S --superblocks N --tenants T [--only T | --own T] [--tally] [FILE]`
//!
//! The exit status depends on the [`Outcome`].
//!
//! With `--tally`, the counts of the run are printed on standard error, however it ended:
//! `partmem: 6 lines, 6 events, 0 faults, 214 bytes written`. Then come the message of the outcome, the reason why FILE could
//! not be opened or read, the count of each refusal, and the first faulty lines with their faults.
#![tactic(auto)]

ghost use Rattle.std.specs.Prelude.{◌≡◌, OnErr};
ghost use Rattle.command_line.specs.declared.outcome.Outcome.{Outcome};
ghost use Rattle.partmem.specs.Outcome.{ended_at_once};

mod outcome;
mod own;
mod run;

pub use command_line::{Outcome, Settings, outcome_of, read_words};
use command_line::{
    FileError, MachineOptions, OWN_PROGRAM, PROGRAM, Progress, ProgressReader, WatchedReader,
    hand_out, progress_in, tell, tell_file, texts_of, words_given,
};
use outcome::Ended;
use own::run_own;
use replay_core::{NoNotes, Notes, ReaderFeed, Tally, WriterDrain};
use run::run;
use run_notes::{MAX_NUMBER, RunNotes};
use std::fs::File;
use std::io::{self, IsTerminal, Read, Write};
use std::process::ExitCode;
use std::rt::{Clock, Env, Files};

/// The size of the output buffer, in bytes. The program writes the buffer when the next reply does not fit, and before it reads
/// more of the trace.
const BUFFER_BYTES: usize = 65_536;

fn main(rt: HostRuntime) -> ExitCode {
    match read_command_line(&rt) {
        Ok(settings) => {
            // Replies on a terminal show the progress of the run, so no line of progress is printed between them.
            let wanted = rt.stderr().is_terminal() && !rt.stdout().is_terminal();
            let progress = progress_in(&rt, PROGRAM, settings.file.as_deref(), None, wanted);
            let ran = run_from(&rt, &settings, progress);
            tell_run(&rt, &settings, ran)
        }
        Err(refused) => {
            let outcome = hand_out(&mut io::writer(&rt), refused);
            tell(&rt, PROGRAM, &outcome)
        }
    }
}

/// How a run ended, and what else is printed about it.
#[derive(Drop)]
struct Ran {
    ended: Ended,
    /// Why the trace could not be opened or, with `--tally`, why it could not be read.
    error: Option<FileError>,
    /// The notes, if they were requested.
    notes: Option<RunNotes>,
}

/// Returns the settings of the command line.
fn read_command_line(rt: &(impl Env + AllocGlobal)) -> Result<Settings, Outcome> {
    let words = words_given(rt)?;
    let texts = texts_of(rt.alloc(), words.as_slice())?;
    read_words(rt.alloc(), texts.as_slice())
}

/// Runs the trace, from FILE or from standard input, and writes the replies or the own list to standard output. The compiled
/// program has a copy of the replay loop for each of the two inputs.
fn run_from<P: Eprint + Clock>(
    rt: &(impl Files + Input + Print + AllocGlobal),
    settings: &Settings,
    progress: Option<Progress<'_, P>>,
) -> Ran {
    match &settings.file {
        None => run_opened(rt, settings, Ok(ProgressReader::new(rt.reader(), progress))),
        Some(path) => {
            let opened = File::open(rt, path.as_str());
            run_opened(
                rt,
                settings,
                opened.map(|file| ProgressReader::new(file, progress)),
            )
        }
    }
}

/// Runs the trace from a reader and writes the replies or the own list to standard output. If the trace could not be opened, the
/// outcome is `Unreadable`.
fn run_opened<R: Read + Drop>(
    rt: &(impl Print + AllocGlobal),
    settings: &Settings,
    opened: io::Result<R>,
) -> Ran
    ensures unopened { OnErr opened (result.ended ≡ ended_at_once Outcome.Unreadable) }
{
    let reader = match opened {
        Ok(reader) => reader,
        Err(error) => {
            return Ran {
                ended: Ended::at_once(Outcome::Unreadable),
                error: Some(FileError::Open(error)),
                notes: None,
            };
        }
    };
    if settings.tally {
        return run_noted(rt, &settings.machine(), reader);
    }
    if let Some(tenant) = settings.own {
        return keep_own(rt, &settings.machine(), tenant, reader);
    }
    Ran {
        ended: run_between(
            rt,
            &settings.machine(),
            reader,
            io::writer(rt),
            &mut NoNotes,
        ),
        error: None,
        notes: None,
    }
}

/// Runs the trace from a reader, writes its replies to standard output, and notes the refusals and the faulty lines.
fn run_noted<R: Read + Drop>(
    rt: &(impl Print + AllocGlobal),
    machine: &MachineOptions,
    reader: R,
) -> Ran {
    let mut watched = WatchedReader::new(reader);
    let mut notes = RunNotes::new();
    let ended = run_between(rt, machine, &mut watched, io::writer(rt), &mut notes);
    Ran {
        ended,
        error: watched.error(),
        notes: Some(notes),
    }
}

/// Runs the trace from a reader and writes the tenant's own list to standard output. All counts in the result are 0.
fn keep_own<R: Read + Drop>(
    rt: &(impl Print + AllocGlobal),
    machine: &MachineOptions,
    tenant: u8,
    reader: R,
) -> Ran {
    let alloc = rt.alloc();
    let outcome = match Vec::with_capacity(alloc, BUFFER_BYTES) {
        Err(_) => Outcome::NoMemory,
        Ok(buffer) => run_own(
            alloc,
            machine,
            tenant,
            &mut ReaderFeed::new(reader),
            &mut WriterDrain::holding(io::writer(rt), buffer),
        ),
    };
    Ran {
        ended: Ended {
            outcome,
            tally: Tally::default(),
        },
        error: None,
        notes: None,
    }
}

/// Runs the trace from a reader and writes its replies to a writer.
fn run_between<R: Read + Drop, W: Write + Drop, N: Notes>(
    rt: &impl AllocGlobal,
    machine: &MachineOptions,
    reader: R,
    writer: W,
    notes: &mut N,
) -> Ended {
    let alloc = rt.alloc();
    let Ok(buffer) = Vec::with_capacity(alloc, BUFFER_BYTES) else {
        return Ended::at_once(Outcome::NoMemory);
    };
    run(
        alloc,
        machine,
        &mut ReaderFeed::new(reader),
        &mut WriterDrain::holding(writer, buffer),
        notes,
    )
}

/// Prints the tally if it was requested, then how the run ended and why, and last the notes. Returns the exit status.
fn tell_run(rt: &impl Eprint, settings: &Settings, ran: Ran) -> ExitCode {
    if settings.tally {
        tell_tally(rt, &ran.ended.tally);
    }
    let program = if settings.own.is_some() {
        OWN_PROGRAM
    } else {
        PROGRAM
    };
    let code = tell(rt, program, &ran.ended.outcome);
    if let (true, Some(path), Some(error)) = (settings.tally, &settings.file, &ran.error) {
        tell_file(rt, program, path.as_str(), error);
    }
    if let Some(notes) = &ran.notes {
        tell_notes(rt, notes, &ran.ended.outcome);
    }
    code
}

/// Prints the count of each refusal, and the first faulty lines. If the replies could not be written, some of the counted
/// refusals may be missing from the output, so the line of each count then ends with `answered`.
fn tell_notes(rt: &impl Eprint, notes: &RunNotes, outcome: &Outcome) {
    let counted = match outcome {
        Outcome::Unwritable => " answered",
        _ => "",
    };
    for number in 1..=MAX_NUMBER {
        if let Some(refused) = notes.told(number) {
            let _unheard = eprintln!(rt; "partmem: {refused}{counted}");
        }
    }
    for line in notes.first() {
        let _unheard = eprintln!(rt; "partmem: {line}");
    }
}

/// Prints the tally on standard error.
fn tell_tally(rt: &impl Eprint, tally: &Tally) {
    let Tally {
        lines,
        events,
        faults,
        written,
    } = tally;
    let _unheard = eprintln!(rt;
        "partmem: {lines} lines, {events} events, {faults} faults, {written} bytes written"
    );
}
