//! How a program ends, and what it prints at its end.

ghost use Rattle.std.specs.Prelude.{◌≡◌, Some, option_map};
ghost use Rattle.std.specs.declared.io.ErrorKind.TheVariants as SystemKind;
ghost use Rattle.clap.specs.Words.{kind_of};
ghost use Rattle.command_line.specs.Outcome.{IsBadLine, IsReportedAs, after_flush, line_of, not_utf8_text, outcome_of};
ghost use Rattle.command_line.specs.Outcome.{outcome_text, status_of};
ghost use Rattle.command_line.specs.declared.outcome.Outcome.TheVariants.{NoMemory};

use crate::arguments::Program;
use clap::Error;
use clap::error::ErrorKind;
use std::alloc::{AllocError, Global};
use std::{fmt, io};
use streams::{ReplayError, Tally};

/// How a program ended.
///
/// | Outcome | Status | Standard error, after the program's name |
/// |---|---|---|
/// | `Done`, `Help`, `Version` | 0 | nothing |
/// | `Unreadable` | 1 | for example `trace could not be read` |
/// | `Unwritable` | 1 | for example `replies could not be written` |
/// | `BadLine` | 2 | what is wrong with the command line, without the name |
/// | `BadOnly` | 2 | `--only names no tenant` |
/// | `NoMemory` | 3 | `not enough memory` |
#[derive(Debug, Drop)]
pub enum Outcome {
    /// The trace was run to its end.
    Done,
    /// `--help` was given. The value is the text of the help.
    Help(String),
    /// `--version` was given. The value is the text of the version.
    Version(String),
    /// The trace could not be opened, or could not be read to its end.
    Unreadable,
    /// The output, the help or the version could not be written or flushed.
    Unwritable,
    /// The command line is faulty or not UTF-8, or a number is out of its range. The value is the message.
    BadLine(String),
    /// The sizes of the machine are valid, but `--only` is not below the number of tenants.
    BadOnly,
    /// There was not enough memory.
    NoMemory,
}

impl Outcome {
    /// Returns the exit status.
    pub fn status(&self) -> u8
        ensures { result ≡ status_of self.now }
    {
        match self {
            Outcome::Done | Outcome::Help(_) | Outcome::Version(_) => 0,
            Outcome::Unreadable | Outcome::Unwritable => 1,
            Outcome::BadLine(_) | Outcome::BadOnly => 2,
            Outcome::NoMemory => 3,
        }
    }

    /// Returns the line for standard error, or `None` if the outcome has no fixed line.
    pub fn text<'a>(&self, program: Program<'a>) -> Option<Line<'a>>
        ensures { option_map (λ line. line_of line) result
            ≡ outcome_text program.entry.name.now program.entry.unread.now program.entry.unwritten.now self.now }
    {
        let text = match self {
            Outcome::Unreadable => program.unread,
            Outcome::Unwritable => program.unwritten,
            Outcome::BadOnly => "--only names no tenant",
            Outcome::NoMemory => "not enough memory",
            Outcome::Done | Outcome::Help(_) | Outcome::Version(_) | Outcome::BadLine(_) => {
                return None;
            }
        };
        Some(Line {
            program: program.name,
            text,
        })
    }

    /// Returns the outcome of a run after its output was flushed. `unsent` is true if a send had failed before, and `flushed`
    /// is true if the flush succeeded. The first failure decides.
    pub fn after_flush(self, unsent: bool, flushed: bool) -> Outcome
        ensures { result ≡ after_flush self unsent flushed }
    {
        match self {
            Outcome::Done if !flushed => Outcome::Unwritable,
            Outcome::Unreadable if unsent => Outcome::Unwritable,
            outcome => outcome,
        }
    }
}

/// Returns the outcome of a run whose replay had this result.
pub fn outcome_of(replayed: &Result<Tally, ReplayError>) -> Outcome
    ensures { result ≡ outcome_of replayed.now }
{
    match replayed {
        Ok(_) => Outcome::Done,
        Err(ReplayError::Feed(_)) => Outcome::Unreadable,
        Err(ReplayError::Drain(_)) => Outcome::Unwritable,
    }
}

impl From<AllocError> for Outcome {
    ghost from_gives = { λ _ outcome. outcome ≡ NoMemory };

    fn from(_error: AllocError) -> Outcome {
        Outcome::NoMemory
    }
}

/// Returns `BadLine` with this text, or `NoMemory` if there is no memory for it.
pub(crate) fn bad_line(alloc: Global, text: &str) -> Outcome
    ensures { IsBadLine text.now result }
{
    match String::from_str(alloc, text) {
        Ok(text) => Outcome::BadLine(text),
        Err(_) => Outcome::NoMemory,
    }
}

/// Returns the outcome if the words of the command line could not be read. It is `NoMemory` if memory ran out. Otherwise it is
/// `BadLine` with the message for a word that is not UTF-8, or `NoMemory` if there is no memory for the message.
pub(crate) fn not_words(alloc: Global, kind: io::ErrorKind) -> Outcome
    ensures text { IsBadLine not_utf8_text result }
    ensures memory { kind ≡ SystemKind.OutOfMemory → result ≡ Outcome.NoMemory }
{
    if kind == io::ErrorKind::OutOfMemory {
        return Outcome::NoMemory;
    }
    bad_line(
        alloc,
        "error: invalid UTF-8 was detected in one or more arguments\n",
    )
}

/// Returns the outcome if the parser refused the words with this error.
pub(crate) fn not_parsed(alloc: Global, error: &Error) -> Outcome
    ensures { IsReportedAs (kind_of error.now) result }
{
    let Ok(text) = format!(in alloc; "{error}") else {
        return Outcome::NoMemory;
    };
    match error.kind() {
        ErrorKind::OutOfMemory => Outcome::NoMemory,
        ErrorKind::DisplayHelp => Outcome::Help(text),
        ErrorKind::DisplayVersion => Outcome::Version(text),
        _ => Outcome::BadLine(text),
    }
}

/// A line on standard error: the name of the program that prints it, and the text that follows the name.
#[derive(Clone, Copy, Debug)]
pub struct Line<'a> {
    pub program: &'a str,
    pub text: &'a str,
}

impl fmt::Display for Line<'_> {
    ghost output = { λ line. Some (line_of line) };

    fn fmt<W: fmt::Write>(&self, f: &mut fmt::Formatter<W>) -> fmt::Result {
        let program = self.program;
        let text = self.text;
        write!(f, "{program}: {text}")
    }
}
