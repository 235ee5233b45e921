//! The settings that a command line requests, and what the program prints about itself.

ghost use Rattle.std.specs.Prelude.{◌≡◌, true};
ghost use Rattle.model_core.specs.Booting.{is_bootable};

use command_line::Program;
use model_core::config::Config;
use trace_check::Unchecked;

/// What this program prints about itself.
pub const PROGRAM: Program<'static> = Program {
    name: "partcheck",
    about: "Checks replies to a trace against what a partitioning kernel owes its tenants",
    after_help: AFTER_HELP,
    unread: "trace could not be read",
    unwritten: "finding could not be written",
};

/// [`PROGRAM`], with the message for replies that could not be read.
pub const REPLIES_PROGRAM: Program<'static> = Program {
    unread: "replies could not be read",
    ..PROGRAM
};

/// What `--help` prints below the arguments.
const AFTER_HELP: &str = "\
Give the sizes of the machine that ran the trace. Both files have the lines that partmem --help
describes; any choice of frames, objects and superblocks is allowed. The finding is one line on
standard output:
  kept: 218508 lines, 6 tenants
  line 391, reply 402: 0 alloc 0, answered 0> frame 12: Blocks: frame 12 lies in the block of order 1 at frame 12
The second form is for the first reply that breaks a promise. It has the number of the line in
TRACE and of the reply in REPLIES, both texts, the promise, and why it is broken, such as which
refusal was due; or else what the promise requires. Later replies are not judged.

Exit status:
  0  every reply keeps every promise; or --help or --version
  1  the trace or the replies could not be read, or the finding or this help could not be written
  2  the command line is faulty
  3  there is not enough memory
  4  a reply breaks a promise

Example:
  partmem --order 3 --superblocks 2 --tenants 2 trace > replies
  partcheck --order 3 --superblocks 2 --tenants 2 trace replies";

/// The path that means standard input.
const STANDARD_INPUT: &str = "-";

/// The settings that a command line requests.
#[derive(Debug, Drop)]
pub struct Settings {
    /// The sizes of the machine, each in its range.
    pub config: Config,
    /// The path of the trace, as it was written.
    pub trace: String,
    /// The path of the replies, as it was written.
    pub replies: String,
    ghost bootable: { is_bootable config ≡ true },
}

impl Settings {
    ghost use Rattle.std.specs.Prelude.{option_copied};
    ghost use Rattle.partcheck.specs.Settings.{file_without, trace_file};

    /// Returns the path of the trace, or `None` for standard input.
    pub fn trace_path(&self) -> Option<&str>
        ensures { option_copied result ≡ trace_file self.now }
    {
        match self.trace.as_str() {
            STANDARD_INPUT => None,
            path => Some(path),
        }
    }

    /// Returns the name of the file that could not be read, if a check ended for this reason. For `Memory` it is the name of the
    /// trace.
    pub fn name_of(&self, why: Unchecked) -> &str
        ensures { result.now ≡ file_without self.now why }
    {
        match why {
            Unchecked::Replies => self.replies.as_str(),
            _ => self.trace_path().unwrap_or("standard input"),
        }
    }
}
