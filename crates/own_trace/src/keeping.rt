//! Copies the lines of a tenant's own list from a feed into a drain.

ghost use Rattle.std.specs.Prelude.{◌≡◌, ℕ, ◌+◌, true, false, List, [], ◌∷◌, ◌++◌, Ok, Some, OnOk, length, is_err};
ghost use Rattle.std.specs.Io.KnownBytes.{Consumes, Appends, IsAtEnd};
ghost use Rattle.words_core.specs.Grammar.{reading_of};
ghost use Rattle.words_core.specs.Requests.{body_of_answer};
ghost use Rattle.words_core.specs.declared.reply.Body.{Body};
ghost use Rattle.words_core.specs.declared.reply.Reply.{Reply};
ghost use Rattle.world_core.specs.OwnList.{is_refused, own_entries};
ghost use Rattle.world_core.specs.Output.{line_feed};
ghost use Rattle.kernel_core.specs.Content.{KernelContent};
ghost use Rattle.kernel_core.specs.Steps.{Steps};
ghost use Rattle.replay_core.specs.Doing.{HasDone};
ghost use Rattle.replay_core.specs.Pushes.{HasPushed};
ghost use Rattle.own_trace.specs.Kept.{has_entry};
ghost use Rattle.own_trace.specs.Keeping.{KeepsOwn, NamesEnd, keeps};

use crate::quick::keep_ended_lines;
use kernel_core::Kernel;
use quick_core::{CR_LF, LF};
use replay_core::{Drain, EndFailed, Feed, Sink, Stopped, do_lines, push_all};
use thiserror::Error;
use words_core::{Addressee, AdminCommand, Answer, Body, Event, LineFault, Reply};

/// The end that failed.
#[derive(Clone, Copy, Debug, PartialEq, Eq, Drop, Error)]
pub enum KeepError {
    /// The feed. All lines that ended in LF were run; the unfinished line was not.
    #[error("the trace could not be read")]
    Feed,
    /// The drain. A prefix of the own list was pushed, and the kernel has run the line that was cut.
    #[error("the own list could not be written")]
    Drain,
}

/// Runs the trace from the feed on the kernel, and pushes the lines of the tenant's own list into the drain, unchanged and each
/// with an LF. Pushes no reply.
///
/// Lines are cut and run as in `replay_core::replay`: they end at LF, the last line needs no LF, and before each pull the drain
/// sends what was pushed. Allocates nothing.
pub fn keep<F: Feed, D: Drain>(
    kernel: &mut Kernel,
    feed: &mut F,
    drain: &mut D,
    tenant: u8,
) -> Result<(), KeepError>
    requires feed_fine { F.has_failed feed.old ≡ false }
    requires drain_fine { D.has_failed drain.old ≡ false }
    // There are bytes that the feed gave and bytes that the drain took during the call, and `KeepsOwn` relates them, for any
    // world that the kernel showed. Even if the bytes of the feed are not known, the number of bytes given is known.
    ensures kept { (given : List ℕ) × (taken : List ℕ)
        × Consumes (F.remaining feed.old) (F.remaining feed.new) given
        × Appends (D.contents drain.old) (D.contents drain.new) taken
        × KeepsOwn (F.has_ended feed.new) tenant kernel.old kernel.new given taken result
        × (F.room_left feed.new + length given ≡ F.room_left feed.old) }
    ensures ended { OnOk result (F.has_ended feed.new ≡ true) }
    // If the feed has ended, the bytes given are all that it had.
    ensures whole { F.has_ended feed.new ≡ true → IsAtEnd (F.remaining feed.new) }
    ensures failed { NamesEnd result (F.has_failed feed.new) (D.has_failed drain.new) }
{
    // There are at most as many lines as bytes.
    let _most = feed.room();
    let mut own = OwnLines { tenant };
    match do_lines(kernel, &mut own, feed, drain) {
        Ok(()) => Ok(()),
        Err(EndFailed::Feed) => Err(KeepError::Feed),
        Err(EndFailed::Drain) => Err(KeepError::Drain),
    }
}

/// A sink that pushes the lines of one tenant's own list.
#[derive(Debug, Drop)]
pub struct OwnLines {
    pub tenant: u8,
}

impl OwnLines {
    /// Pushes a line and a line feed if the line's event is in the tenant's own list. `refused` says whether the event was
    /// refused.
    fn keep_event<D: Drain>(
        &self,
        line: &[u8],
        event: &Event,
        refused: bool,
        drain: &mut D,
    ) -> Result<(), Stopped>
        requires { D.has_failed drain.old ≡ false }
        ensures done { (before : KernelContent) (after : KernelContent) (reply : Reply) → refused ≡ is_refused reply.body
            → reading_of line.now ≡ Ok (Some event.now) → Steps before event.now after reply
            → HasDone keeps (self.now, before) line.now (D.contents drain.old) (D.contents drain.new) result (self.now, after) }
        ensures failed { D.has_failed drain.new ≡ is_err result }
    {
        if !is_own(self.tenant, event, refused) {
            return Ok(());
        }
        push_line(line, drain)
    }
}

impl Sink for OwnLines {
    ghost use Rattle.std.specs.Prelude.{◌^◌};

    ghost does = { keeps };

    ghost does_first = { keeps };

    ghost leaves = { λ own line own'. own' ≡ own };

    ghost lines_left = { λ _. 2 ^ 64 };

    #[inline(always)]
    fn quick_lines<'a, D: Drain>(
        &mut self,
        piece: &'a [u8],
        returns: bool,
        kernel: &mut Kernel,
        drain: &mut D,
    ) -> Result<&'a [u8], Stopped> {
        if returns {
            keep_ended_lines::<CR_LF, D>(piece, kernel, drain, self.tenant)
        } else {
            keep_ended_lines::<LF, D>(piece, kernel, drain, self.tenant)
        }
    }

    fn answered<D: Drain>(
        &mut self,
        line: &[u8],
        event: &Event,
        _addressee: Addressee,
        answer: Answer<'_>,
        drain: &mut D,
    ) -> Result<(), Stopped> {
        self.keep_event(line, event, is_refusal(answer), drain)
    }

    // Not inlined: only a reply of several lines needs 1.5 KB of stack, and a function clears its whole stack frame on entry.
    #[cold]
    #[inline(never)]
    fn replied<D: Drain>(
        &mut self,
        line: &[u8],
        event: &Event,
        kernel: &Kernel,
        drain: &mut D,
    ) -> Result<(), Stopped> {
        let refused = match event {
            Event::Tenant(tenant, _) => is_refused_by(&kernel.report(*tenant)),
            Event::Admin(_) => {
                // For the proof: the reply is the table of owners.
                let _owners = kernel.owners();
                false
            }
        };
        self.keep_event(line, event, refused, drain)
    }

    fn faulty<D: Drain>(
        &mut self,
        _fault: LineFault,
        _front: &[u8],
        _drain: &mut D,
    ) -> Result<(), Stopped> {
        Ok(())
    }

    fn blank(&mut self) {}

    #[inline(always)]
    fn ran(&mut self, _kernel: &Kernel) {}

    fn unended(&mut self, _reading: Result<Option<Event>, LineFault>, _front: &[u8]) {}
}

fn is_refusal(answer: Answer<'_>) -> bool
    ensures { result ≡ is_refused (body_of_answer answer.entry) }
{
    matches!(answer, Answer::Refused(_))
}

fn is_refused_by(reply: &Reply) -> bool
    ensures { result ≡ is_refused reply.now.body }
{
    matches!(reply.body, Body::Refused(_))
}

/// Returns true if an event is in the tenant's own list. `refused` says whether the event was refused. A reset of an existing
/// tenant is never refused.
fn is_own(tenant: u8, event: &Event, refused: bool) -> bool
    ensures { (body : Body) → refused ≡ is_refused body → result ≡ has_entry (own_entries tenant event.now body) }
{
    match event {
        Event::Tenant(named, _) | Event::Admin(AdminCommand::Reset { tenant: named }) => {
            *named == u32::from(tenant)
        }
        Event::Admin(
            AdminCommand::Grant { tenant: named } | AdminCommand::TakeBack { tenant: named, .. },
        ) => *named == u32::from(tenant) && !refused,
        Event::Admin(AdminCommand::Move { .. } | AdminCommand::Pool) => false,
    }
}

/// Pushes a line and a line feed.
pub(crate) fn push_line<D: Drain>(line: &[u8], drain: &mut D) -> Result<(), Stopped>
    requires { D.has_failed drain.old ≡ false }
    ensures { (written : ℕ) × HasPushed (D.contents drain.old) (D.contents drain.new) (D.has_failed drain.new)
        (line.now ++ line_feed ∷ []) 0 written result }
{
    let mut written = 0;
    push_all(line, drain, &mut written)?;
    push_all(b"\n", drain, &mut written)
}
