//! Files that a command line names.

ghost use Rattle.std.specs.Prelude.{◌≡◌, true, false, None, Some, IfErr, IfOk, IsNone, IsOkAnd, IsSome, OnOk, option_map};
ghost use Rattle.std.specs.Io.{ReadsAtMost};
ghost use Rattle.std.specs.Io.KnownBytes.{ReadConsumes};
ghost use Rattle.either.specs.Either.{is_left};
ghost use Rattle.command_line.specs.Files.{last_error, plain_path};

use crate::arguments::Program;
use either::{Either, Left, Right};
use std::fmt;
use std::fs::File;
use std::io::{self, Read};
use std::rt::Files;

/// Opens the file at this path, or standard input if there is no path.
///
/// Standard input can always be opened. Fails with the system's error if a file cannot be opened.
pub fn open<R: Files + Input>(rt: &R, path: Option<&str>) -> io::Result<Either<R::Reader, R::File>>
    ensures input { IsNone path.entry → IsOkAnd result (λ opened. is_left opened ≡ true) }
    ensures file { IsSome path.entry → IfOk result (λ opened. is_left opened ≡ false) }
{
    match path {
        None => Ok(Left(rt.reader())),
        Some(path) => Ok(Right(File::open(rt, path)?)),
    }
}

/// Why a file could not be opened or read.
#[derive(Clone, Copy, Debug)]
pub enum FileError {
    /// The file could not be opened.
    Open(io::Error),
    /// A read of the file failed.
    Read(io::Error),
}

/// Prints on standard error which file could not be opened or read, and the system's reason.
pub fn tell_file(rt: &impl Eprint, program: Program<'_>, path: &str, error: &FileError) {
    let name = program.name;
    let path = PathShown(path);
    let _unheard = match error {
        FileError::Open(reason) => eprintln!(rt; "{name}: cannot open {path}: {reason}"),
        FileError::Read(reason) => eprintln!(rt; "{name}: cannot read {path}: {reason}"),
    };
}

/// A path for messages. It is printed unchanged if it is printable ASCII without quotes and backslashes, and otherwise in quotes
/// and escaped. So a file name cannot begin a new line or move the cursor of a terminal.
#[derive(Clone, Copy)]
struct PathShown<'a>(&'a str);

impl fmt::Display for PathShown<'_> {
    ghost output = { λ shown. plain_path shown.0.now };

    fn fmt<W: fmt::Write>(&self, f: &mut fmt::Formatter<W>) -> fmt::Result {
        let path = self.0;
        let is_plain = path.as_bytes().iter().all(|byte| {
            matches!(*byte, b' '..=b'~') && !matches!(*byte, b'\'' | b'"' | b'\\')
        });
        if is_plain {
            write!(f, "{path}")
        } else {
            let escaped = path.escape_debug();
            write!(f, "'{escaped}'")
        }
    }
}

/// A reader that gives the bytes of another reader, and keeps the error of its last read that failed.
#[derive(Debug, Drop)]
pub struct WatchedReader<R: Read> {
    reader: R,
    error: Option<io::Error>,
}

impl<R: Read> WatchedReader<R> {
    /// Returns a reader that watches `reader` and has no error yet.
    pub fn new(reader: R) -> WatchedReader<R>
        ensures bytes { ⟦<WatchedReader<R> as Read>⟧.remaining result ≡ R.remaining reader }
        ensures none { last_error result ≡ None }
    {
        WatchedReader {
            reader,
            error: None,
        }
    }

    /// Returns the error of the last read that failed, or `None` if no read has failed.
    pub fn error(&self) -> Option<FileError>
        ensures { result ≡ option_map (λ error. FileError.Read error) (last_error self.now) }
    {
        self.error.map(FileError::Read)
    }
}

impl<R: Read> Read for WatchedReader<R> {
    ghost remaining = { λ s. R.remaining s.reader };

    fn read(&mut self, buf: &mut [u8]) -> io::Result<usize>
        ensures bound { ReadsAtMost result buf.new }
        ensures bytes { ReadConsumes (R.remaining self.old.reader) (R.remaining self.new.reader) result buf.new }
        ensures failed { IfErr result (λ error. last_error self.new ≡ Some error) }
        ensures kept { OnOk result (last_error self.new ≡ last_error self.old) }
    {
        match self.reader.read(buf) {
            Ok(count) => Ok(count),
            Err(error) => {
                self.error = Some(error);
                Err(error)
            }
        }
    }
}
