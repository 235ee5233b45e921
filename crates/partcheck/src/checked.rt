//! How a check ends.

ghost use Rattle.std.specs.Prelude.{◌≡◌};
ghost use Rattle.std.specs.Process.{exit_status};
ghost use Rattle.partcheck.specs.Checked.{status_of_check};

use crate::settings::{PROGRAM, REPLIES_PROGRAM, Settings};
use command_line::{FileError, Outcome, tell, tell_file};
use std::process::ExitCode;
use trace_check::{Finding, Unchecked};

/// How a check ended.
#[derive(Clone, Copy, Debug)]
pub enum Checked {
    /// There is a finding, and it was written to the output.
    Found(Finding),
    /// There is no finding. If a file could not be opened or read, the error says why.
    Failed(Unchecked, Option<FileError>),
    /// There is a finding, but it could not be written.
    Unwritten,
}

/// The exit status if a reply breaks a promise.
const BROKEN: u8 = 4;

/// If no finding was written, prints the reason on standard error, and the name of a file that could not be opened or read.
/// Returns the exit status: 0 if a finding was written and every reply is allowed, 4 if one was written and a reply is not
/// allowed, or else the status of the error.
pub fn tell_checked(rt: &impl Eprint, settings: &Settings, checked: Checked) -> ExitCode
    ensures { exit_status result ≡ status_of_check checked }
{
    let code = tell_status(rt, checked);
    if let Checked::Failed(why, Some(error)) = checked {
        tell_file(rt, PROGRAM, settings.name_of(why), &error);
    }
    code
}

/// If no finding was written, prints the reason on standard error. Returns the exit status.
fn tell_status(rt: &impl Eprint, checked: Checked) -> ExitCode
    ensures { exit_status result ≡ status_of_check checked }
{
    match checked {
        Checked::Found(Finding::Kept(_)) => tell(rt, PROGRAM, &Outcome::Done),
        Checked::Found(Finding::Broken(_)) => ExitCode::from(BROKEN),
        Checked::Failed(Unchecked::Trace, _) => tell(rt, PROGRAM, &Outcome::Unreadable),
        Checked::Failed(Unchecked::Replies, _) => tell(rt, REPLIES_PROGRAM, &Outcome::Unreadable),
        Checked::Failed(Unchecked::Memory, _) => tell(rt, PROGRAM, &Outcome::NoMemory),
        Checked::Unwritten => tell(rt, PROGRAM, &Outcome::Unwritable),
    }
}
