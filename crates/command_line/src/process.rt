//! The process around a run: the words of its command line, and what it prints at its end.

ghost use Rattle.std.specs.Prelude.{◌≡◌, IfErr, IfOk, OnOk, map};
ghost use Rattle.std.specs.Io.KnownBytes.{Appends};
ghost use Rattle.std.specs.Process.{exit_status};
ghost use Rattle.std.specs.String.{string_bytes};
ghost use Rattle.command_line.specs.Outcome.{IsBadLine, IsHandedOut, not_utf8_text, status_of};

use crate::arguments::Program;
use crate::outcome::{Outcome, not_words};
use std::alloc::{AllocError, Global};
use std::env;
use std::io::{self, Write};
use std::process::ExitCode;
use std::rt::Env;

/// Returns the words of the process's command line, without the program's name.
///
/// Fails with `BadLine` if a word is not UTF-8, or with `NoMemory`.
pub fn words_given(rt: &(impl Env + AllocGlobal)) -> Result<Vec<String>, Outcome>
    ensures { IfErr result (IsBadLine not_utf8_text) }
{
    let alloc = rt.alloc();
    match env::args(rt) {
        Ok(words) => Ok(words.skip(1).collect(alloc)?),
        Err(error) => Err(not_words(alloc, error.kind())),
    }
}

/// Returns these words as string slices, including empty words.
pub fn texts_of<'a>(alloc: Global, words: &'a [String]) -> Result<Vec<&'a str>, AllocError>
    ensures { IfOk result (λ texts. map (λ text. text.now) texts.items ≡ map (λ word. string_bytes word) words.entry.now) }
{
    let mut texts = Vec::with_capacity(alloc, words.len())?;
    for word in words {
        texts.push(word.as_str())?;
    }
    Ok(texts)
}

/// If help or the version was requested, writes its text and flushes. Returns the outcome of the program.
///
/// If the text could not be written or flushed, the outcome is `Unwritable`, and a part of the text may have been written.
pub fn hand_out<W: Write>(out: &mut W, refused: Outcome) -> Outcome
    ensures { IsHandedOut refused result (W.contents out.old) (W.contents out.new) }
{
    let written = match &refused {
        Outcome::Help(text) | Outcome::Version(text) => write_out(out, text.as_str()),
        _ => Ok(()),
    };
    match written {
        Ok(()) => refused,
        Err(_) => Outcome::Unwritable,
    }
}

/// Writes a text, and flushes.
fn write_out<W: Write>(out: &mut W, text: &str) -> io::Result<()>
    ensures { OnOk result (Appends (W.contents out.old) (W.contents out.new) text.now) }
{
    out.write_all(text.as_bytes())?;
    out.flush()
}

/// Prints on standard error what went wrong, if anything did, and returns the exit status.
pub fn tell(rt: &impl Eprint, program: Program<'_>, outcome: &Outcome) -> ExitCode
    ensures { exit_status result ≡ status_of outcome.now }
{
    let _unheard = match outcome {
        Outcome::BadLine(text) => eprint!(rt; "{text}"),
        other => match other.text(program) {
            Some(line) => eprintln!(rt; "{line}"),
            None => Ok(()),
        },
    };
    ExitCode::from(outcome.status())
}
