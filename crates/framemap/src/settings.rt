//! The settings that a command line requests, and what the program prints about itself.

ghost use Rattle.std.specs.Prelude.{◌≡◌, IfErr, IfOk, map};
ghost use Rattle.clap.specs.Words.{app_of};
ghost use Rattle.framemap.specs.Settings.{IsMapInOrder, IsMapRefusedFor, IsMapRequestedBy, map_command_line};
ghost use Rattle.framemap.specs.declared.settings.Settings.{Settings};

use clap::{Arg, ArgAction, Command};
use command_line::{MachineOptions, Outcome, Program, number, parse, path_of, positional};
use frame_picture::history::MAX_COLUMNS;
use std::alloc::{AllocError, Global};

/// The largest number of columns of a picture, if the command line does not set it.
const DEFAULT_COLUMNS: u32 = 600;

/// What this program prints about itself.
pub const PROGRAM: Program<'static> = Program {
    name: "framemap",
    about: "Runs a trace on a machine that tenants share, and draws what became of its frames",
    after_help: AFTER_HELP,
    unread: "trace could not be read",
    unwritten: "picture could not be written",
};

/// What `--help` prints about `--only`.
const ONLY: &str = "Draws only this tenant, a number below --tenants";

/// What `--help` prints below the arguments.
const AFTER_HELP: &str = "\
The picture is one SVG on standard output. The lines of a trace are those of partmem --help.

The table of --figures has comma-separated values. A row is a tenant in a column: the lines run until then, the tenant, its
frames that are held and taken, the most that were taken in the column, its requests refused for want of frames, and its free
blocks of each order.

Exit status:
  0  the trace is done, and its picture or table written; or --help or --version
  1  the trace could not be read, or the picture, table or help could not be written
  2  the command line is faulty
  3  there is not enough memory

Example:
  printf 'admin grant 0\\n0 alloc 1\\n' | framemap --order 3 --superblocks 2 --tenants 2 > picture.svg";

/// The settings that a command line requests.
#[derive(Debug, Drop)]
pub struct Settings {
    /// The machine, and the tenant to draw if only one is drawn.
    pub machine: MachineOptions,
    /// The largest number of columns of the picture, 1 to 4096.
    pub columns: u32,
    /// Whether a table of the figures is written instead of a picture.
    pub figures: bool,
    /// The path of the trace, as it was written. `None` is standard input.
    pub file: Option<String>,
}

/// Returns the settings that the words of a command line request. The words do not include the program's name.
///
/// Fails with `Help` or `Version` if the words request one of them, with `BadLine` if they are faulty, with `BadOnly` if `--only`
/// names no tenant, or with `NoMemory`.
pub fn read_words<'a>(alloc: Global, words: &'a [&'a str]) -> Result<Settings, Outcome>
    // Clap's model says which word is the value of which argument.
    ensures asked { IfOk result (IsMapRequestedBy (map (λ word. word.now) words.entry.now)) }
    ensures refused { IfErr result (IsMapRefusedFor (map (λ word. word.now) words.entry.now)) }
    // Words that request settings are refused only if memory runs out.
    ensures given { IfErr result (λ outcome. IsMapInOrder (map (λ word. word.now) words.entry.now)
        → (settings : Settings) → IsMapRequestedBy (map (λ word. word.now) words.entry.now) settings → outcome ≡ Outcome.NoMemory) }
{
    let matches = parse(alloc, command(alloc)?, words)?;
    let columns = matches.get_one::<u32>("columns").unwrap_or(DEFAULT_COLUMNS);
    Ok(Settings {
        machine: MachineOptions::found(alloc, &matches)?,
        columns: columns.clamp(1, MAX_COLUMNS),
        figures: matches.get_flag("figures"),
        file: path_of(alloc, &matches, "FILE")?,
    })
}

/// Returns the command that the program parses: the options of the machine, `--columns` with its range, `--figures` and FILE.
fn command<'a>(alloc: Global) -> Result<Command<'a>, AllocError>
    ensures { IfOk result (λ command. app_of command ≡ map_command_line) }
{
    command_line::command(alloc, PROGRAM, ONLY)?
        .arg(
            number(alloc, "columns", "C", 1, MAX_COLUMNS)
                .help("Largest number of columns: 1 to 4096 [default: 600]")
                .required(false),
        )?
        .arg(
            Arg::new(alloc, "figures")
                .long("figures")
                .help("Writes a table of the figures in each column, in place of the picture")
                .action(ArgAction::SetTrue),
        )?
        .arg(positional(alloc, "FILE", "The trace [default: standard input]"))
}
