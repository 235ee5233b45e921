//! The arguments that the programs share.

ghost use Rattle.std.specs.Prelude.{◌≡◌, ◌≢◌, ◌≤◌, ◌<◌, ℕ, true, false, None, Ok, IfOk, IfErr, map, option_map};
ghost use Rattle.std.specs.String.{string_bytes};
ghost use Rattle.clap.specs.Words.{HasMatchesOf, app_of, fault_of, first_value, found_of, is_simple_and_free, one_text};
ghost use Rattle.clap.specs.Words.{rule_of, takes};
ghost use Rattle.command_line.specs.Arguments.{machine_command, number_rule, positional_rule, sizes_command};
ghost use Rattle.command_line.specs.MachineOptions.{MayWrite, Writes};
ghost use Rattle.command_line.specs.Outcome.{IsParsedBy, IsRefusal};

use crate::outcome::{Outcome, not_parsed};
use clap::{Arg, ArgAction, ArgMatches, Command, value_parser};
use model_core::limits::{MAX_ORDER, MAX_SUPERBLOCKS, MAX_TENANTS, MIN_ORDER};
use std::alloc::{AllocError, Global};

/// The version that `--version` prints.
const VERSION: &str = "3.0.0";

/// The texts of a program that runs a trace: its name, its help and its messages.
#[derive(Clone, Copy, Debug)]
pub struct Program<'a> {
    /// The name of the program.
    pub name: &'a str,
    /// What the program does.
    pub about: &'a str,
    /// What `--help` prints below the arguments.
    pub after_help: &'a str,
    /// What the program prints if its input could not be read.
    pub unread: &'a str,
    /// What the program prints if its output could not be written.
    pub unwritten: &'a str,
}

/// Returns the command of a program that needs a machine. The command has the arguments `--order`, `--superblocks` and
/// `--tenants`, each with its range, and the optional argument `--only`. The parameter `only` is the help text of `--only`. The
/// program adds its own arguments.
pub fn command<'a>(
    alloc: Global,
    program: Program<'a>,
    only: &'a str,
) -> Result<Command<'a>, AllocError>
    ensures { IfOk result (λ command. app_of command ≡ machine_command program.entry.name.now) }
{
    sizes_command(alloc, program)?.arg(
        number(alloc, "only", "T", 0, u32::MAX)
            .help(only)
            .required(false),
    )
}

/// Returns the command of a program that needs only the sizes of a machine. The command has the arguments `--order`,
/// `--superblocks` and `--tenants`, each with its range. The program adds its own arguments.
pub fn sizes_command<'a>(alloc: Global, program: Program<'a>) -> Result<Command<'a>, AllocError>
    ensures { IfOk result (λ command. app_of command ≡ sizes_command program.entry.name.now) }
{
    Command::new(alloc, program.name)
        .version(VERSION)
        .about(program.about)
        .after_help(program.after_help)
        .no_binary_name(true)
        .arg(number(
            alloc,
            "order",
            "S",
            u32::from(MIN_ORDER),
            u32::from(MAX_ORDER),
        )
        .help("A superblock has 2^S frames of 4096 bytes: 3 to 8"))?
        .arg(number(alloc, "superblocks", "N", 1, u32::from(MAX_SUPERBLOCKS)).help(
            "Number of superblocks: 1 to 256",
        ))?
        .arg(number(alloc, "tenants", "T", 1, u32::from(MAX_TENANTS)).help(
            "Number of tenants: 1 to 64",
        ))
}

/// Returns a required argument `--name NUMBER`, whose value is a number from `least` to `most`.
pub fn number<'a>(alloc: Global, name: &'a str, value: &'a str, least: u32, most: u32) -> Arg<'a>
    ensures rule { rule_of result ≡ number_rule name.entry.now least most }
    ensures local { result.global ≡ false }
{
    Arg::new(alloc, name)
        .long(name)
        .value_name(value)
        .required(true)
        .action(ArgAction::Set)
        .value_parser(value_parser!(u32).range(i64::from(least)..=i64::from(most)))
}

/// Returns an argument that is given by its position, without `--name`, such as a file.
pub fn positional<'a>(alloc: Global, name: &'a str, help: &'a str) -> Arg<'a>
    ensures rule { rule_of result ≡ positional_rule name.entry.now }
    ensures local { result.global ≡ false }
{
    Arg::new(alloc, name).help(help).action(ArgAction::Set)
}

/// Parses these words, which do not include the program's name, and returns the matches.
///
/// Fails with `Help`, `Version`, `BadLine` or `NoMemory`. If clap's model accepts the words, the call can fail only with
/// `NoMemory`.
pub fn parse<'a>(
    alloc: Global,
    command: Command<'a>,
    words: &'a [&'a str],
) -> Result<ArgMatches<'a>, Outcome>
    // The matches are those of clap's model.
    ensures found { IfOk result (HasMatchesOf (app_of command.entry) (map (λ word. word.now) words.entry.now)) }
    ensures refused { IfErr result (λ outcome. IsRefusal outcome × (outcome ≢ Outcome.BadOnly)) }
    ensures takes { IfErr result (λ outcome. takes (app_of command.entry) (map (λ word. word.now) words.entry.now) ≡ true
        → outcome ≡ Outcome.NoMemory) }
    // `Help` and `Version` are returned only if the words request them, and `BadLine` only if there is a fault.
    ensures kinds { is_simple_and_free (app_of command.entry) ≡ true
        → IsParsedBy (fault_of (app_of command.entry) (map (λ word. word.now) words.entry.now)) result }
{
    match command.try_get_matches_from(words) {
        Ok(matches) => Ok(matches),
        Err(error) => Err(not_parsed(alloc, &error)),
    }
}

/// Returns the number given under this name, or `None` if no number below 2^32 is given.
pub(crate) fn number_written(matches: &ArgMatches<'_>, name: &str) -> Option<u32>
    ensures { MayWrite (one_text (found_of matches.now) name.now) result }
{
    matches.get_one::<u32>(name)
}

/// Returns the number given under this name, or 0 if no number below 2^32 is given. The caller refuses both alike, since no size
/// of a machine may be 0.
pub(crate) fn number_of(matches: &ArgMatches<'_>, name: &str) -> u32
    ensures value { 0 < result → Writes (one_text (found_of matches.now) name.now) result }
    ensures written { (n : ℕ) → Writes (one_text (found_of matches.now) name.now) n → result ≡ n }
{
    number_written(matches, name).unwrap_or(0)
}

/// Returns the path given under this name, unchanged, or `None` if there is none.
///
/// Fails with `NoMemory` if there is no memory for the path.
pub fn path_of(
    alloc: Global,
    matches: &ArgMatches<'_>,
    name: &str,
) -> Result<Option<String>, Outcome>
    ensures path { IfOk result (λ path. option_map (λ bytes. string_bytes bytes) path ≡ first_value (found_of matches.now) name.now) }
    ensures refused { IfErr result (λ outcome. outcome ≡ Outcome.NoMemory) }
    // Nothing is allocated if no path was given.
    ensures none { first_value (found_of matches.now) name.now ≡ None → result ≡ Ok None }
{
    match matches.get_str(name) {
        None => Ok(None),
        Some(path) => Ok(Some(String::from_str(alloc, path)?)),
    }
}
