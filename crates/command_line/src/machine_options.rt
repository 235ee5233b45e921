//! The machine that a command line requests.

ghost use Rattle.std.specs.Prelude.{◌≡◌, ◌<◌, true, IfErr, IfOk};
ghost use Rattle.std.specs.Option.{ForSome};
ghost use Rattle.clap.specs.Words.{found_of, one_text};
ghost use Rattle.model_core.specs.Booting.{is_bootable};

use crate::arguments::number_written;
use crate::outcome::Outcome;
use crate::sizes::sizes_found;
use clap::ArgMatches;
use model_core::config::Config;
use std::alloc::Global;

/// A machine, and the tenant whose part is written or drawn.
#[derive(Debug, Drop)]
pub struct MachineOptions {
    /// The sizes, each in its range.
    pub config: Config,
    /// The only tenant whose part is written or drawn, a number below the number of tenants. `None` means all tenants.
    pub only: Option<u8>,
    ghost bootable: { is_bootable config ≡ true },
    ghost below: { ForSome only (λ tenant. tenant < config.tenants) },
}

impl MachineOptions {
    ghost use Rattle.command_line.specs.MachineOptions.{AsksMachine, IsNoMachine};

    /// Returns the machine that the command line requests.
    ///
    /// Fails with `BadLine` if a size is missing or out of its range, or with `NoMemory` if there is no memory for that message.
    /// Fails with `BadOnly` if the sizes are valid and `--only` is not below the number of tenants.
    pub fn found(alloc: Global, matches: &ArgMatches<'_>) -> Result<MachineOptions, Outcome>
        ensures asked { IfOk result (AsksMachine (one_text (found_of matches.now))) }
        ensures refused { IfErr result (IsNoMachine (one_text (found_of matches.now))) }
    {
        let config = sizes_found(alloc, matches)?;
        let Some(tenant) = number_written(matches, "only") else {
            return Ok(MachineOptions { config, only: None });
        };
        if tenant >= config.tenants {
            return Err(Outcome::BadOnly);
        }
        let only = Some(tenant as u8);
        Ok(MachineOptions { config, only })
    }
}
