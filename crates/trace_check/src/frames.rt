//! What the number of frames in a reply has to be, and which page block a free names.

ghost use Rattle.std.specs.Prelude.{◌≡◌, option_map};
ghost use Rattle.std.specs.Option.{option_or};
ghost use Rattle.words_core.specs.Requests.{body_of_answer};
ghost use Rattle.promise_core.specs.State.{Known};
ghost use Rattle.reply_judge.specs.KnownMachine.{ShowsKnown};
ghost use Rattle.trace_check.specs.Reasons.{frames_given, frames_still, frames_wrong, page_freed, still_wrong};
ghost use Rattle.trace_check.specs.declared.reason.Reason.TheVariants as Why;

use crate::figure::Figure;
use crate::reason::Reason;
use reply_judge::{Bound, KnownMachine};
use words_core::{Answer, Command, Event};

/// Returns the page block that the event frees, or what the number of frames in the answer has to be.
pub(crate) fn gives_reason(
    machine: &KnownMachine,
    event: &Event,
    answer: &Answer<'_>,
) -> Option<Reason>
    ensures { (w : Known) → ShowsKnown machine.now w → result
        ≡ option_or (option_map (λ page. Why.Freed page) (page_freed w event.now)) (frames_given w event.now (body_of_answer answer.now)) }
{
    match freed_reason(machine, event) {
        Some(reason) => Some(reason),
        None => frames_given(machine, event, answer),
    }
}

/// Returns the live page block that the event frees, if there is one.
fn freed_reason(machine: &KnownMachine, event: &Event) -> Option<Reason>
    ensures { (w : Known) → ShowsKnown machine.now w
        → result ≡ option_map (λ page. Why.Freed page) (page_freed w event.now) }
{
    match event {
        Event::Tenant(tenant, Command::Free { frame }) => {
            Some(Reason::Freed(machine.page_at(*tenant, *frame)?))
        }
        _ => None,
    }
}

/// Returns what the number of frames has to be that come back from empty slabs, if the answer has another one.
fn frames_given(machine: &KnownMachine, event: &Event, answer: &Answer<'_>) -> Option<Reason>
    ensures { (w : Known) → ShowsKnown machine.now w → result ≡ frames_given w event.now (body_of_answer answer.now) }
{
    match (event, answer) {
        (Event::Tenant(tenant, Command::Destroy { cache }), Answer::Destroyed(frames)) => {
            frames_wrong(machine, *tenant, Some(*cache), *frames)
        }
        (Event::Tenant(tenant, Command::Reap), Answer::Reaped(frames)) => {
            frames_wrong(machine, *tenant, None, *frames)
        }
        _ => None,
    }
}

/// Returns what the number of frames from empty slabs of the tenant's cache `only`, or of all its caches if `only` is `None`, has
/// to be.
fn frames_wrong(
    machine: &KnownMachine,
    tenant: u32,
    only: Option<u32>,
    frames: u32,
) -> Option<Reason>
    ensures { (w : Known) → ShowsKnown machine.now w → result ≡ frames_wrong w tenant only frames }
{
    match machine.frames_due(tenant, only, frames) {
        Some(bound) => Some(Reason::Figure {
            figure: Figure::Frames,
            bound,
        }),
        None => None,
    }
}

/// Returns how many frames the last report counts in the empty slabs that the event empties.
pub(crate) fn still_reason(
    machine: &KnownMachine,
    event: &Event,
    answer: &Answer<'_>,
) -> Option<Reason>
    ensures { (w : Known) → ShowsKnown machine.now w → result ≡ frames_still w event.now (body_of_answer answer.now) }
{
    match (event, answer) {
        (Event::Tenant(tenant, Command::Destroy { cache }), Answer::Destroyed(_)) => {
            still_wrong(machine, *tenant, Some(*cache))
        }
        (Event::Tenant(tenant, Command::Reap), Answer::Reaped(_)) => {
            still_wrong(machine, *tenant, None)
        }
        _ => None,
    }
}

/// Returns how many frames the last report counts in empty slabs of the tenant's cache `only`, or of all its caches if `only` is
/// `None`.
fn still_wrong(machine: &KnownMachine, tenant: u32, only: Option<u32>) -> Option<Reason>
    ensures { (w : Known) → ShowsKnown machine.now w → result ≡ still_wrong w tenant only }
{
    match machine.frames_told(tenant, only) {
        Some(frames) => Some(Reason::Figure {
            figure: Figure::Frames,
            bound: Bound::Exactly(frames),
        }),
        None => None,
    }
}
