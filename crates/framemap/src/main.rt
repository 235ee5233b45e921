//! Runs a trace on a new machine whose memory is shared by tenants, and writes a picture of its frames to standard output.
//!
//! `framemap --order S --superblocks N --tenants T [--only T] [--columns C] [--figures] [FILE]`
//!
//! With `--figures` it writes a table of the tenants' figures instead of the picture. The exit statuses are those of
//! `command_line::Outcome`. If FILE cannot be opened or read, its name and the system's reason are printed too.
#![tactic(auto)]

ghost use Rattle.std.specs.Prelude.{◌≡◌, OnErr};
ghost use Rattle.command_line.specs.declared.outcome.Outcome.{Outcome};

mod figures;
mod peaks;
mod run;
mod settings;
mod watched;

use command_line::{
    FileError, Outcome, ProgressReader, WatchedReader, hand_out, open, progress_in, tell,
    tell_file, texts_of, words_given,
};
use replay_core::ReaderFeed;
use run::{Drawn, run};
use settings::{PROGRAM, Settings, read_words};
use std::io::{self, BufWriter, IsTerminal, Read};
use std::process::ExitCode;
use std::rt::Env;
use streams::LineLimit;

/// The size of the output buffer in bytes.
const BUFFER_BYTES: usize = 65_536;
/// A trace must have fewer line feeds than this number, 2^30. Reading fails at a trace that has as many.
const LINES_ABOVE: u64 = 1 << 30;

fn main(rt: HostRuntime) -> ExitCode {
    match read_command_line(&rt) {
        Ok(settings) => {
            let path = settings.file.as_deref();
            let progress = progress_in(&rt, PROGRAM, path, None, rt.stderr().is_terminal());
            let opened = open(&rt, path).map(|reader| ProgressReader::new(reader, progress));
            let ran = run_opened(&rt, &settings, opened);
            tell_run(&rt, &settings, ran)
        }
        Err(refused) => {
            let outcome = hand_out(&mut io::writer(&rt), refused);
            tell(&rt, PROGRAM, &outcome)
        }
    }
}

/// How a run ended, and the error if the trace could not be opened or read.
#[derive(Drop)]
struct Ran {
    drawn: Drawn,
    error: Option<FileError>,
}

/// Prints on standard error why a run failed and which file could not be opened or read, or that the trace had no event. Returns
/// the exit status.
fn tell_run(rt: &impl Eprint, settings: &Settings, ran: Ran) -> ExitCode {
    let is_of_nothing = ran.drawn.is_of_nothing();
    let code = tell(rt, PROGRAM, &ran.drawn.outcome);
    if is_of_nothing {
        let _unheard = eprintln!(rt; "framemap: no line of the trace was an event");
    }
    if let (Some(path), Some(error)) = (&settings.file, &ran.error) {
        tell_file(rt, PROGRAM, path.as_str(), error);
    }
    code
}

/// Returns the settings that the command line requests.
fn read_command_line(rt: &(impl Env + AllocGlobal)) -> Result<Settings, Outcome> {
    let words = words_given(rt)?;
    let texts = texts_of(rt.alloc(), words.as_slice())?;
    read_words(rt.alloc(), texts.as_slice())
}

/// Runs the trace of a reader, and writes its picture or its figures to standard output. If the trace could not be opened, the
/// outcome is `Unreadable`. A trace may have any number of bytes; only the number of its lines is limited.
fn run_opened<R: Read + Drop>(
    rt: &(impl Print + AllocGlobal),
    settings: &Settings,
    opened: io::Result<R>,
) -> Ran
    ensures unopened { OnErr opened (result.drawn.outcome ≡ Outcome.Unreadable) }
{
    let reader = match opened {
        Ok(reader) => reader,
        Err(error) => {
            return Ran {
                drawn: Drawn::at_once(Outcome::Unreadable),
                error: Some(FileError::Open(error)),
            };
        }
    };
    let mut watched = WatchedReader::new(reader);
    let drawn = run_read(rt, settings, &mut watched);
    Ran {
        drawn,
        error: watched.error(),
    }
}

/// Runs the trace of a reader, and writes its picture or its figures to standard output.
fn run_read<R: Read + Drop>(
    rt: &(impl Print + AllocGlobal),
    settings: &Settings,
    reader: R,
) -> Drawn {
    let alloc = rt.alloc();
    let Ok(mut writer) = BufWriter::with_capacity(alloc, BUFFER_BYTES, io::writer(rt)) else {
        return Drawn::at_once(Outcome::NoMemory);
    };
    let feed = ReaderFeed::with_room(reader, u64::MAX);
    run(
        alloc,
        settings,
        &mut LineLimit::new(feed, LINES_ABOVE),
        &mut writer,
    )
}
