//! The sizes of the machine that a command line requests.

ghost use Rattle.std.specs.Prelude.{◌≡◌, true, IfErr, IfOk, OnErr};
ghost use Rattle.clap.specs.Words.{found_of, one_text};
ghost use Rattle.model_core.specs.Booting.{is_bootable};
ghost use Rattle.command_line.specs.MachineOptions.{AsksNoSizes, AsksSizes, bad_size_text};
ghost use Rattle.command_line.specs.Outcome.{IsBadLine};

use crate::arguments::number_of;
use crate::outcome::{Outcome, bad_line};
use clap::ArgMatches;
use model_core::config::Config;
use std::alloc::Global;

/// Returns the sizes of the machine that the command line requests.
///
/// Fails with `BadLine` if a size is missing or out of its range, or with `NoMemory` if there is then no memory for the message.
pub fn sizes_found(alloc: Global, matches: &ArgMatches<'_>) -> Result<Config, Outcome>
    ensures asked { IfOk result (AsksSizes (one_text (found_of matches.now))) }
    ensures bootable { IfOk result (λ config. is_bootable config ≡ true) }
    ensures refused { IfErr result (IsBadLine bad_size_text) }
    // Valid sizes are always returned, however little memory there is.
    ensures given { OnErr result (AsksNoSizes (one_text (found_of matches.now))) }
{
    let config = Config {
        order: number_of(matches, "order"),
        superblocks: number_of(matches, "superblocks"),
        tenants: number_of(matches, "tenants"),
    };
    if !config.is_bootable() {
        return Err(bad_line(
            alloc,
            "error: a size of the machine is missing or out of its range\n",
        ));
    }
    Ok(config)
}
