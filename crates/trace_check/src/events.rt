//! Converts quick requests, which `quick_core` reads from frequent lines, to events.

ghost use Rattle.std.specs.Prelude.{◌≡◌, ◌≤◌, length};
ghost use Rattle.words_core.specs.Requests.{command_of, IsAskable};
ghost use Rattle.words_core.specs.declared.event.Event.TheVariants.{Tenant};

use arrayvec::ArrayVec;
use quick_core::RequestLine;
use words_core::{Command, Event, Request};

/// Returns the event of a line that `quick_core` has read.
pub(crate) fn event_of(line: RequestLine<'_>) -> Event
    requires { IsAskable line.request }
    ensures { result ≡ Tenant line.entry.tenant (command_of line.entry.request) }
{
    Event::Tenant(line.tenant, command_of(line.request))
}

/// Returns the request as a command.
fn command_of(request: Request<'_>) -> Command
    requires { IsAskable request }
    ensures { result ≡ command_of request.entry }
{
    match request {
        Request::Alloc { order } => Command::Alloc { order },
        Request::Free { frame } => Command::Free { frame },
        Request::Read { place, len } => Command::Read { place, len },
        Request::Write { place, bytes } => Command::Write {
            place,
            bytes: copy_of(bytes),
        },
        Request::Cache {
            size,
            align,
            pattern,
        } => Command::Cache {
            size,
            align,
            pattern: copy_of(pattern),
        },
        Request::Destroy { cache } => Command::Destroy { cache },
        Request::Take { cache } => Command::Take { cache },
        Request::Give { cache, place } => Command::Give { cache, place },
        Request::Reap => Command::Reap,
    }
}

/// Returns a copy of the bytes.
fn copy_of<const N: usize>(bytes: &[u8]) -> ArrayVec<u8, N>
    requires { length bytes.now ≤ N }
    ensures { result.items ≡ bytes.now }
{
    let mut copy = ArrayVec::new();
    let taken = copy.try_extend_from_slice(bytes);
    prove!(taken.is_ok());
    copy
}
