//! The settings that a command line of `partmem` requests, and what the program prints about itself.

ghost use Rattle.std.specs.Prelude.{◌≡◌, ◌<◌, true};
ghost use Rattle.std.specs.Option.{ForSome};
ghost use Rattle.model_core.specs.Booting.{is_bootable};

use crate::arguments::Program;
use crate::machine_options::MachineOptions;
use model_core::config::Config;

/// What `partmem` prints about itself.
pub const PROGRAM: Program<'static> = Program {
    name: "partmem",
    about: "Runs a trace on a machine that tenants share, and writes its replies",
    after_help: AFTER_HELP,
    unread: "trace could not be read",
    unwritten: "replies could not be written",
};

/// What `partmem` prints about itself if it writes a tenant's own list. Only the message for a failed write differs from
/// [`PROGRAM`].
pub const OWN_PROGRAM: Program<'static> = Program {
    unwritten: "own list could not be written",
    ..PROGRAM
};

/// What `--help` prints below the arguments.
const AFTER_HELP: &str = "\
Lines of a trace, and the replies:
  admin grant T           admin> granted T slot U superblock M
  admin takeback T SLOT   admin> taken superblock M
  admin reset T           admin> reset T superblocks R
  admin move T SLOT       admin> moved T slot U superblock M
  admin pool              admin> pool free F of N, then a line for each superblock
  T alloc K               T> frame F: the first of 2^K frames
  T free FRAME            T> freed K
  T read PLACE LEN        T> bytes HEX, 1 to 64 of them
  T write PLACE HEX       T> written L
  T cache SIZE ALIGN HEX  T> cache C chunk c order q objects n colours x
  T destroy C             T> destroyed F
  T take C                T> object P
  T give C PLACE          T> given
  T reap                  T> reaped F
  T report                T> frames .., then a line for each order and each cache
A refused command of tenant T gets T> refused NUMBER NAME, and one of the administrator gets
admin> refused NUMBER NAME. If there is no tenant T, a command of T gets !> refused 12
NoTenant. A faulty line gets !> fault NAME. A line of more than 255 bytes gets !> fault Long,
even if it is a comment. Other comments, which begin with #, and blank lines have no reply.

With --own T no replies are written. Instead, the lines of the trace that make up tenant T's own
list are copied: T's commands, grants and take-backs of T's slots that were not refused, and
resets of T. Replayed with the same sizes, they write the same replies to T.

Exit status:
  0  the trace is done; or --help or --version
  1  the trace could not be read, or the output or this help could not be written
  2  the command line is faulty
  3  there is not enough memory

Example:
  printf 'admin grant 0\\n0 alloc 1\\n0 report\\n' | partmem --order 3 --superblocks 2 --tenants 2";

/// The settings that a command line of `partmem` requests.
#[derive(Debug, Drop)]
pub struct Settings {
    /// The sizes of the machine, each in its range.
    pub config: Config,
    /// The only tenant whose replies are written, a number below the number of tenants. `None` means that all replies are
    /// written.
    pub only: Option<u8>,
    /// The tenant whose own list is written instead of replies, a number below the number of tenants. `None` means that replies
    /// are written.
    pub own: Option<u8>,
    /// True if the tally of the run is printed.
    pub tally: bool,
    /// The path of the trace, as given. `None` means standard input.
    pub file: Option<String>,
    ghost bootable: { is_bootable config ≡ true },
    ghost below: { ForSome only (λ tenant. tenant < config.tenants) },
}

impl Settings {
    ghost use Rattle.command_line.specs.Settings.{machine_of};

    /// Returns the sizes of the machine and the value of `only`.
    pub fn machine(&self) -> MachineOptions
        ensures { result ≡ machine_of self.now }
    {
        MachineOptions {
            config: self.config,
            only: self.only,
        }
    }
}
