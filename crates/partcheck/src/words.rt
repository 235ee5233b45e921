//! Reads the words of a command line.

ghost use Rattle.std.specs.Prelude.{◌≡◌, Some, IfErr, IfOk, map};
ghost use Rattle.std.specs.String.{string_bytes};
ghost use Rattle.clap.specs.Words.{app_of, first_value, found_of};
ghost use Rattle.partcheck.specs.Settings.{IsCheckInOrder, IsCheckRefusedFor, IsCheckRequestedBy, IsNoFile, check_command_line};
ghost use Rattle.partcheck.specs.declared.settings.Settings.{Settings};

use crate::settings::{PROGRAM, Settings};
use clap::{ArgMatches, Command};
use command_line::{Outcome, parse, path_of, positional, sizes_command, sizes_found};
use std::alloc::{AllocError, Global};

/// Returns the settings that the words of a command line request. The words do not include the program's name.
///
/// Fails with `Help` or `Version` if the words request one of them, with `BadLine` if they are faulty, or with `NoMemory`.
pub fn read_words<'a>(alloc: Global, words: &'a [&'a str]) -> Result<Settings, Outcome>
    // Clap's model says which word is the value of which argument.
    ensures asked { IfOk result (IsCheckRequestedBy (map (λ word. word.now) words.entry.now)) }
    ensures refused { IfErr result (IsCheckRefusedFor (map (λ word. word.now) words.entry.now)) }
    // Words that request settings are refused only if memory runs out.
    ensures given { IfErr result (λ outcome. IsCheckInOrder (map (λ word. word.now) words.entry.now)
        → (settings : Settings) → IsCheckRequestedBy (map (λ word. word.now) words.entry.now) settings → outcome ≡ Outcome.NoMemory) }
{
    let matches = parse(alloc, command(alloc)?, words)?;
    Ok(Settings {
        config: sizes_found(alloc, &matches)?,
        trace: required_path(alloc, &matches, "TRACE")?,
        replies: required_path(alloc, &matches, "REPLIES")?,
    })
}

/// Returns the path in the argument with this name, as it was written.
///
/// Fails with `BadLine` if the argument is missing, or with `NoMemory`.
fn required_path(alloc: Global, matches: &ArgMatches<'_>, name: &str) -> Result<String, Outcome>
    ensures path { IfOk result (λ path. first_value (found_of matches.now) name.now ≡ Some (string_bytes path)) }
    ensures refused { IfErr result (IsNoFile (first_value (found_of matches.now) name.now)) }
{
    match path_of(alloc, matches, name)? {
        Some(path) => Ok(path),
        None => {
            let text = "error: TRACE and REPLIES are required\n";
            Err(Outcome::BadLine(String::from_str(alloc, text)?))
        }
    }
}

/// Returns the command that the program parses: the sizes with their ranges, and the arguments TRACE and REPLIES.
fn command<'a>(alloc: Global) -> Result<Command<'a>, AllocError>
    ensures { IfOk result (λ command. app_of command ≡ check_command_line) }
{
    let trace = positional(alloc, "TRACE", "The trace; - is standard input").required(true);
    let replies = positional(alloc, "REPLIES", "The replies to it").required(true);
    sizes_command(alloc, PROGRAM)?.arg(trace)?.arg(replies)
}
