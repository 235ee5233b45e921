//! Runs quick requests, and pushes the lines of the tenant's own requests.

ghost use Rattle.std.specs.Prelude.{◌≡◌, ◌≤◌, false, Some, Ok, length, is_err, IfOk, MatchResult};
ghost use Rattle.words_core.specs.Grammar.{reading_of};
ghost use Rattle.words_core.specs.Requests.{command_of, IsAskable};
ghost use Rattle.words_core.specs.declared.event.Event.TheVariants.{Tenant};
ghost use Rattle.kernel_core.specs.Content.{SameSizes};
ghost use Rattle.kernel_core.specs.Shows.{Shows};
ghost use Rattle.world_core.specs.Limits.{cache_limit};
ghost use Rattle.world_core.specs.World.{World, history, world_after};
ghost use Rattle.world_core.specs.OwnList.{own_list};
ghost use Rattle.world_core.specs.Output.{event_in};
ghost use Rattle.replay_core.specs.Doing.{HasDone, HasGone, HasStopped};
ghost use Rattle.own_trace.specs.declared.keeping.OwnLines.{OwnLines};
ghost use Rattle.own_trace.specs.Kept.{has_entry};
ghost use Rattle.own_trace.specs.Keeping.{keeps};

use crate::keeping::push_line;
use kernel_core::Kernel;
use model_core::limits::MAX_BYTES;
use quick_core::read_ended_request;
use replay_core::{Drain, Stopped};
use words_core::Request;

/// Runs the quick requests at the front of a piece, pushes the lines of the tenant's own requests, and returns the rest of the
/// piece. The lines end in LF, or in CR LF if `CRLF`.
pub(crate) fn keep_ended_lines<'a, const CRLF: bool, D: Drain>(
    piece: &'a [u8],
    kernel: &mut Kernel,
    drain: &mut D,
    tenant: u8,
) -> Result<&'a [u8], Stopped>
    requires { D.has_failed drain.old ≡ false }
    ensures done { (own : OwnLines) → own.tenant ≡ tenant → MatchResult result
        (λ rest. HasGone keeps (own, kernel.old) piece.now rest.now
        (D.contents drain.old) (D.contents drain.new) (own, kernel.new))
        (λ _. HasStopped keeps (own, kernel.old) piece.now (D.contents drain.old) (D.contents drain.new) (own, kernel.new)) }
    ensures left { IfOk result (λ rest. length rest.now ≤ length piece.now) }
    ensures failed { D.has_failed drain.new ≡ is_err result }
{
    // The bytes of a write: one buffer for all lines.
    let mut bytes = [0; MAX_BYTES];
    let mut rest = piece;
    'lines: while let Some(line) = read_ended_request::<CRLF>(rest, &mut bytes) {
        let len = line.len;
        keep_request::<CRLF, D>(
            &rest[..len - 1],
            line.tenant,
            line.request,
            kernel,
            drain,
            tenant,
        )?;
        rest = &rest[len..];
    }
    Ok(rest)
}

/// Runs the request of a line. If the line is the tenant's own, pushes it and a line feed.
///
/// This function and [`run_request`] take `CRLF`, which they do not use, so that each instance has one caller and is inlined.
fn keep_request<const CRLF: bool, D: Drain>(
    line: &[u8],
    asked: u32,
    request: Request<'_>,
    kernel: &mut Kernel,
    drain: &mut D,
    tenant: u8,
) -> Result<(), Stopped>
    requires askable { IsAskable request }
    requires fine { D.has_failed drain.old ≡ false }
    ensures done { (own : OwnLines) → own.tenant ≡ tenant
        → reading_of line.now ≡ Ok (Some (Tenant asked (command_of request.entry)))
        → HasDone keeps (own, kernel.old) line.now (D.contents drain.old) (D.contents drain.new) result (own, kernel.new) }
    ensures failed { D.has_failed drain.new ≡ is_err result }
{
    if !run_request::<CRLF>(asked, request, kernel, tenant) {
        return Ok(());
    }
    push_line(line, drain)
}

/// Runs a request, and returns whether it is in the tenant's own list. Every request of the tenant is in the list, whatever the
/// answer was.
fn run_request<const CRLF: bool>(
    asked: u32,
    request: Request<'_>,
    kernel: &mut Kernel,
    tenant: u8,
) -> bool
    requires { IsAskable request }
    ensures sizes { SameSizes kernel.old kernel.new }
    ensures shows { (w : World) → Shows kernel.old w
        → Shows kernel.new (world_after cache_limit kernel.old.order w (event_in (Ok (Some (Tenant asked (command_of request.entry)))))) }
    ensures own { (w : World) → Shows kernel.old w → result
        ≡ has_entry (own_list tenant (history cache_limit kernel.old.order w (event_in (Ok (Some (Tenant asked (command_of request.entry))))))) }
{
    let _answered = kernel.ask(asked, request);
    asked == u32::from(tenant)
}
