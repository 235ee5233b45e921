//! Runs any line and passes it to the sink with its answer.

ghost use Rattle.std.specs.Prelude.{◌≡◌, ℕ, ◌+◌, ◌<◌, ◌≤◌, false, List, Some, Ok, is_err};
ghost use Rattle.words_core.specs.Grammar.{reading_of};
ghost use Rattle.words_core.specs.Requests.{command_of, IsAskable};
ghost use Rattle.words_core.specs.declared.event.Event.TheVariants.{Tenant};
ghost use Rattle.kernel_core.specs.Steps.{HasPattern};
ghost use Rattle.replay_core.specs.Doing.{HasDone};
ghost use Rattle.replay_core.specs.Pending.{IsFrontOf};
ghost use Rattle.replay_core.specs.Standing.{IsRunnable};

use crate::sink::Sink;
use kernel_core::Kernel;
use streams::{Drain, Stopped};
use words_core::{Addressee, Answer, Event, LineFault, Refusal, Request};

/// Runs a line that was read as `reading`, and passes it with its answer to the sink. `front` is the line, or its beginning if it
/// is too long.
pub fn answer<S: Sink, D: Drain>(
    reading: Result<Option<Event>, LineFault>,
    front: &[u8],
    kernel: &mut Kernel,
    sink: &mut S,
    drain: &mut D,
) -> Result<(), Stopped>
    requires runnable { IsRunnable reading }
    requires more { 0 < S.lines_left sink.old }
    requires fine { D.has_failed drain.old ≡ false }
    ensures done { (line : List ℕ) → reading ≡ reading_of line → IsFrontOf line front.now
        → HasDone S.does (sink.old, kernel.old) line (D.contents drain.old) (D.contents drain.new) result (sink.new, kernel.new) }
    ensures left { S.lines_left sink.old ≤ S.lines_left sink.new + 1 }
    ensures failed { D.has_failed drain.new ≡ is_err result }
{
    let done = match reading {
        Ok(Some(event)) => run_event(&event, front, kernel, sink, drain),
        Ok(None) => {
            sink.blank();
            Ok(())
        }
        Err(fault) => sink.faulty(fault, front, drain),
    };
    sink.ran(kernel);
    done
}

/// Runs the event of a line, and passes the line with its answer to the sink.
fn run_event<S: Sink, D: Drain>(
    event: &Event,
    line: &[u8],
    kernel: &mut Kernel,
    sink: &mut S,
    drain: &mut D,
) -> Result<(), Stopped>
    requires pattern { HasPattern event.now }
    requires more { 0 < S.lines_left sink.old }
    requires fine { D.has_failed drain.old ≡ false }
    ensures done { reading_of line.now ≡ Ok (Some event.now)
        → HasDone S.does_first (sink.old, kernel.old) line.now
        (D.contents drain.old) (D.contents drain.new) result (sink.new, kernel.new) }
    ensures left { S.lines_left sink.old ≤ S.lines_left sink.new + 1 }
    ensures failed { D.has_failed drain.new ≡ is_err result }
{
    match event {
        Event::Tenant(tenant, command) => match command.request() {
            Some(request) => ask(event, *tenant, request, line, kernel, sink, drain),
            None => sink.replied(line, event, kernel, drain),
        },
        Event::Admin(command) => match kernel.administer(command) {
            Some(answer) => sink.answered(line, event, Addressee::Admin, answer, drain),
            None => sink.replied(line, event, kernel, drain),
        },
    }
}

/// Runs the request of a line's event, and passes the line with its answer to the sink.
fn ask<S: Sink, D: Drain>(
    event: &Event,
    tenant: u32,
    request: Request<'_>,
    line: &[u8],
    kernel: &mut Kernel,
    sink: &mut S,
    drain: &mut D,
) -> Result<(), Stopped>
    requires event { event.now ≡ Tenant tenant (command_of request) }
    requires askable { IsAskable request }
    requires more { 0 < S.lines_left sink.old }
    requires fine { D.has_failed drain.old ≡ false }
    ensures done { reading_of line.now ≡ Ok (Some event.now)
        → HasDone S.does_first (sink.old, kernel.old) line.now
        (D.contents drain.old) (D.contents drain.new) result (sink.new, kernel.new) }
    ensures left { S.lines_left sink.old ≤ S.lines_left sink.new + 1 }
    ensures failed { D.has_failed drain.new ≡ is_err result }
{
    match kernel.ask(tenant, request) {
        Some((t, answer)) => { sink.answered(line, event, Addressee::Tenant(t), answer, drain) }
        None => {
            let answer = Answer::Refused(Refusal::NoTenant);
            sink.answered(line, event, Addressee::Nobody, answer, drain)
        }
    }
}
