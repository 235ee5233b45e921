//! The arguments of `partmem`, and the settings that the words of a command line request.

ghost use Rattle.std.specs.Prelude.{◌≡◌, ◌<◌, true, IfErr, IfOk, map, codes};
ghost use Rattle.std.specs.Option.{ForSome};
ghost use Rattle.clap.specs.Words.{app_of, found_of, one_text};
ghost use Rattle.model_core.specs.Booting.{is_bootable};
ghost use Rattle.command_line.specs.MachineOptions.{MayWrite};
ghost use Rattle.command_line.specs.Settings.{CanBeHad, IsAlone, IsInOrder, IsNoOwn, IsRefusedFor, IsRequestedBy, command_line};
ghost use Rattle.command_line.specs.declared.settings.Settings.{Settings};

use crate::arguments::{self, number, number_written, parse, path_of, positional};
use crate::machine_options::MachineOptions;
use crate::outcome::{Outcome, bad_line};
use crate::settings::{PROGRAM, Settings};
use clap::{Arg, ArgAction, ArgMatches, Command};
use std::alloc::{AllocError, Global};

/// What `--help` prints beside `--only`.
const ONLY: &str = "Writes only the lines of this tenant, a number below --tenants";

/// Returns the settings that the words of a command line request. The words do not include the program's name.
///
/// Fails with `Help` or `Version` if the words request one of them, and with `BadLine` if they are faulty. After that, it fails
/// with `BadOnly` if the number of `--only` is not below the number of tenants. Last, it fails with `BadLine` if `--own` is given
/// beside `--only` or `--tally`, or if the number of `--own` is not below the number of tenants. If memory runs out, it fails
/// with `NoMemory`.
pub fn read_words<'a>(alloc: Global, words: &'a [&'a str]) -> Result<Settings, Outcome>
    ensures config { IfOk result (λ settings. is_bootable settings.config ≡ true) }
    ensures only { IfOk result (λ settings. ForSome settings.only (λ tenant. tenant < settings.config.tenants)) }
    ensures own { IfOk result (λ settings. ForSome settings.own (λ tenant. tenant < settings.config.tenants)) }
    // The settings are those that clap's model finds in the words.
    ensures asked { IfOk result (IsRequestedBy (map (λ word. word.now) words.entry.now)) }
    ensures refused { IfErr result (IsRefusedFor (map (λ word. word.now) words.entry.now)) }
    // If the words request valid settings, it fails only if there is not enough memory.
    ensures given { IfErr result (λ outcome. IsInOrder (map (λ word. word.now) words.entry.now)
        → (settings : Settings) → CanBeHad (map (λ word. word.now) words.entry.now) settings → outcome ≡ Outcome.NoMemory) }
{
    let matches = parse(alloc, command(alloc)?, words)?;
    let machine = MachineOptions::found(alloc, &matches)?;
    let tally = matches.get_flag("tally");
    let own = own_found(alloc, &matches, &machine, tally)?;
    Ok(Settings {
        config: machine.config,
        only: machine.only,
        own,
        tally,
        file: path_of(alloc, &matches, "FILE")?,
    })
}

/// Returns the tenant whose own list is requested, or `None` if no own list is requested.
///
/// Fails with `BadLine` if `--only` or `--tally` is given too, or if the tenant's number is not below the number of tenants.
/// Fails with `NoMemory` if there is no memory for the message.
fn own_found(
    alloc: Global,
    matches: &ArgMatches<'_>,
    machine: &MachineOptions,
    tally: bool,
) -> Result<Option<u8>, Outcome>
    ensures asked { IfOk result (MayWrite (one_text (found_of matches.now) (codes "own"))) }
    ensures below { IfOk result (λ own. ForSome own (λ tenant. tenant < machine.now.config.tenants)) }
    ensures alone { IfOk result (λ own. IsAlone own machine.now.only tally) }
    ensures refused { IfErr result (IsNoOwn (one_text (found_of matches.now)) machine.now tally) }
{
    let Some(tenant) = number_written(matches, "own") else {
        return Ok(None);
    };
    if machine.only.is_some() || tally {
        let text = "error: --own goes with neither --only nor --tally\n";
        return Err(bad_line(alloc, text));
    }
    if tenant >= machine.config.tenants {
        return Err(bad_line(alloc, "partmem: --own names no tenant\n"));
    }
    Ok(Some(tenant as u8))
}

/// Returns the command that `partmem` parses: the sizes with their ranges, `--only`, `--own`, `--tally` and FILE.
fn command<'a>(alloc: Global) -> Result<Command<'a>, AllocError>
    ensures { IfOk result (λ command. app_of command ≡ command_line) }
{
    arguments::command(alloc, PROGRAM, ONLY)?
        .arg(
            number(alloc, "own", "T", 0, u32::MAX)
                .help("Writes this tenant's own list of the trace, in place of replies")
                .required(false),
        )?
        .arg(
            Arg::new(alloc, "tally")
                .long("tally")
                .help("Prints a tally of what was done, refused and faulty on standard error")
                .action(ArgAction::SetTrue),
        )?
        .arg(positional(alloc, "FILE", "The trace [default: standard input]"))
}
