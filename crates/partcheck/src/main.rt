//! Checks the replies to a trace: reads the trace and the replies together, and prints the first reply that breaks a promise.
//!
//! `partcheck --order S --superblocks N --tenants T TRACE REPLIES`
//!
//! | Status | When | Standard output | Standard error, after the program's name |
//! |---|---|---|---|
//! | 0 | all replies are allowed | `kept: 218508 lines, 6 tenants` | nothing |
//! | 4 | a reply is not allowed | `line 391, reply 402: LINE, answered REPLY: PROMISE: what it requires` | nothing |
//! | 1 | the trace cannot be opened or read to its end | nothing | `trace could not be read` |
//! | 1 | the replies cannot be opened or read to their end | nothing | `replies could not be read` |
//! | 1 | the finding, help or the version cannot be written | | `finding could not be written` |
//!
//! If a file could not be opened or read, its name and the system's reason are printed too. The other exit statuses are those of
//! `command_line::Outcome`.
#![tactic(auto)]

mod checked;
mod reasons;
mod run;
mod settings;
mod telling;
mod words;

use checked::{Checked, tell_checked};
use command_line::{
    FileError, Outcome, Progress, ProgressReader, WatchedReader, hand_out, progress_in, tell,
    texts_of, words_given,
};
use run::run;
use settings::{PROGRAM, Settings};
use std::fs::File;
use std::io::{self, BufWriter, IsTerminal, Read};
use std::process::ExitCode;
use std::rt::{Clock, Env, Files};
use streams::ReaderFeed;
use telling::write_finding;
use trace_check::{Finding, LineReader, Shown, Unchecked};
use words::read_words;

/// Capacity of the buffer for the line of a finding.
const LINE_BYTES: usize = 4096;

fn main(rt: HostRuntime) -> ExitCode {
    match read_command_line(&rt) {
        Ok(settings) => {
            let progress = progress_in(
                &rt,
                PROGRAM,
                settings.trace_path(),
                Some(settings.replies.as_str()),
                rt.stderr().is_terminal(),
            );
            let checked = check_files(&rt, &settings, progress);
            tell_checked(&rt, &settings, checked)
        }
        Err(refused) => {
            let outcome = hand_out(&mut io::writer(&rt), refused);
            tell(&rt, PROGRAM, &outcome)
        }
    }
}

/// Reads the command line.
fn read_command_line(rt: &(impl Env + AllocGlobal)) -> Result<Settings, Outcome> {
    let words = words_given(rt)?;
    let texts = texts_of(rt.alloc(), words.as_slice())?;
    read_words(rt.alloc(), texts.as_slice())
}

/// Checks the replies to the trace, and writes the finding to standard output.
fn check_files<P: Eprint + Clock>(
    rt: &(impl Files + Input + Print + AllocGlobal),
    settings: &Settings,
    progress: Option<Progress<'_, P>>,
) -> Checked {
    let Ok(mut out) = BufWriter::with_capacity(rt.alloc(), LINE_BYTES, io::writer(rt)) else {
        return Checked::Failed(Unchecked::Memory, None);
    };
    let mut shown = Shown::new();
    match find(rt, settings, progress, &mut shown) {
        Ok(finding) => match write_finding(&mut out, &finding, &shown, settings.config.tenants) {
            Ok(()) => Checked::Found(finding),
            Err(_) => Checked::Unwritten,
        },
        Err(checked) => checked,
    }
}

/// Checks the replies to the trace TRACE, which is a file or standard input. The check is compiled once for files and once for
/// standard input.
fn find<P: Eprint + Clock>(
    rt: &(impl Files + Input + AllocGlobal),
    settings: &Settings,
    progress: Option<Progress<'_, P>>,
    shown: &mut Shown,
) -> Result<Finding, Checked> {
    let Some(path) = settings.trace_path() else {
        let trace = ProgressReader::new(rt.reader(), progress);
        return find_beside(rt, settings, trace, shown);
    };
    match File::open(rt, path) {
        Ok(trace) => find_beside(rt, settings, ProgressReader::new(trace, progress), shown),
        Err(error) => Err(unopened(Unchecked::Trace, error)),
    }
}

/// Checks the replies in the file REPLIES to the trace of a reader. Both may have any length.
fn find_beside<R: Read + Drop>(
    rt: &(impl Files + AllocGlobal),
    settings: &Settings,
    trace: R,
    shown: &mut Shown,
) -> Result<Finding, Checked> {
    let replies = match File::open(rt, settings.replies.as_str()) {
        Ok(replies) => replies,
        Err(error) => return Err(unopened(Unchecked::Replies, error)),
    };
    let mut trace = WatchedReader::new(trace);
    let mut replies = WatchedReader::new(replies);
    let found = run(
        rt.alloc(),
        settings.config,
        &mut LineReader::new(ReaderFeed::with_room(&mut trace, u64::MAX)),
        &mut LineReader::new(ReaderFeed::with_room(&mut replies, u64::MAX)),
        shown,
    );
    match found {
        Ok(finding) => Ok(finding),
        Err(Unchecked::Trace) => Err(Checked::Failed(Unchecked::Trace, trace.error())),
        Err(Unchecked::Replies) => Err(Checked::Failed(Unchecked::Replies, replies.error())),
        Err(Unchecked::Memory) => Err(Checked::Failed(Unchecked::Memory, None)),
    }
}

/// Returns how a check ends if this file could not be opened.
fn unopened(file: Unchecked, error: io::Error) -> Checked {
    Checked::Failed(file, Some(FileError::Open(error)))
}
