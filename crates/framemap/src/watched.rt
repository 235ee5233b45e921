//! Runs the lines of a trace for a picture.

ghost use Rattle.std.specs.Prelude.{◌≡◌, ◌≢◌, ℕ, ◌+◌, ◌^◌, ◌<◌, ◌≤◌, false, List, Option, Some, length};
ghost use Rattle.world_core.specs.Locks.{is_named};
ghost use Rattle.frame_picture.specs.Histories.{line_count};
ghost use Rattle.replay_core.specs.Doing.{HasGone};
ghost use Rattle.framemap.specs.Watching.{watches};

use crate::peaks::Peaks;
use frame_picture::history::History;
use kernel_core::Kernel;
use model_core::limits::MAX_BYTES;
use quick_core::{CR_LF, LF, read_ended_request};
use replay_core::{Drain, Sink, Stopped};
use words_core::{Addressee, AdminCommand, Answer, Event, LineFault, Refusal};

/// Keeps the history of the machine's states over the lines of a trace, and counts the events. No reply is written.
#[derive(Debug, Drop)]
pub struct Watched {
    pub history: History,
    /// The peaks of the tenants in the columns of the history, or of no tenant if they are not wanted.
    pub peaks: Peaks,
    /// The tenant that the line names, if it names one.
    pub named: Option<u32>,
    /// The number of events in the lines.
    pub events: u64,
}

impl Watched {
    /// Runs the quick requests at the front of a piece, and returns the rest of the piece. A quick request is a request that
    /// `quick_core` reads. Its line ends in LF, or in CR LF if `CRLF` is true.
    fn watch_requests<'a, const CRLF: bool>(
        &mut self,
        piece: &'a [u8],
        kernel: &mut Kernel,
    ) -> &'a [u8]
        requires { self.old.events + length piece.now < 2 ^ 64 }
        ensures gone { (known : Option (List ℕ))
            → HasGone watches (self.old, kernel.old) piece.now result.now known known (self.new, kernel.new) }
        ensures left { self.new.events + length result.now ≤ self.old.events + length piece.now }
    {
        // One buffer for the bytes of a write, for all lines.
        let mut buffer = [0; MAX_BYTES];
        let mut rest = piece;
        'lines: while let Some(line) = read_ended_request::<CRLF>(rest, &mut buffer) {
            let len = line.len;
            if let Some((t, answer)) = kernel.ask(line.tenant, line.request) {
                self.note_refusal(Addressee::Tenant(t), answer);
            }
            self.peaks
                .add_line(&mut self.history, kernel, Some(line.tenant));
            self.events += 1;
            rest = &rest[len..];
        }
        rest
    }

    /// Counts the request if it was refused for lack of frames.
    fn note_refusal(&mut self, addressee: Addressee, answer: Answer<'_>)
        ensures events { self.new.events ≡ self.old.events }
        ensures lines { line_count self.new.history ≡ line_count self.old.history }
    {
        if let (Addressee::Tenant(t), Answer::Refused(Refusal::NoFrames)) = (addressee, answer) {
            self.history.add_refusal(t);
        }
    }
}

impl Sink for Watched {
    ghost use Rattle.std.specs.Prelude.{◌-◌};
    ghost use Rattle.framemap.specs.Watching.{watches_first};

    ghost does = { watches };

    ghost does_first = { watches_first };

    ghost leaves = { λ watched line watched'. watched' ≡ watched };

    ghost lines_left = { λ watched. 2 ^ 64 - 1 - watched.events };

    #[inline(always)]
    fn quick_lines<'a, D: Drain>(
        &mut self,
        piece: &'a [u8],
        returns: bool,
        kernel: &mut Kernel,
        _drain: &mut D,
    ) -> Result<&'a [u8], Stopped> {
        // Only for the proof: the number of events fits its type.
        let _events = self.events;
        if returns {
            Ok(self.watch_requests::<CR_LF>(piece, kernel))
        } else {
            Ok(self.watch_requests::<LF>(piece, kernel))
        }
    }

    fn answered<D: Drain>(
        &mut self,
        _line: &[u8],
        event: &Event,
        addressee: Addressee,
        answer: Answer<'_>,
        _drain: &mut D,
    ) -> Result<(), Stopped> {
        self.events += 1;
        self.named = tenant_named_by(event);
        self.note_refusal(addressee, answer);
        Ok(())
    }

    fn replied<D: Drain>(
        &mut self,
        _line: &[u8],
        _event: &Event,
        _kernel: &Kernel,
        _drain: &mut D,
    ) -> Result<(), Stopped> {
        self.events += 1;
        Ok(())
    }

    fn faulty<D: Drain>(
        &mut self,
        _fault: LineFault,
        _front: &[u8],
        _drain: &mut D,
    ) -> Result<(), Stopped> {
        Ok(())
    }

    fn blank(&mut self) {}

    fn ran(&mut self, kernel: &Kernel) {
        self.peaks.add_line(&mut self.history, kernel, self.named);
        self.named = None;
    }

    fn unended(&mut self, _reading: Result<Option<Event>, LineFault>, _front: &[u8]) {}
}

/// Returns the number of the tenant that an event names, which need not exist, or `None` if it names no tenant.
fn tenant_named_by(event: &Event) -> Option<u32>
    ensures { (t : ℕ) → result ≢ Some t → is_named t event.now ≡ false }
{
    match event {
        Event::Tenant(tenant, _)
        | Event::Admin(
            AdminCommand::Grant { tenant }
            | AdminCommand::TakeBack { tenant, .. }
            | AdminCommand::Reset { tenant }
            | AdminCommand::Move { tenant, .. },
        ) => Some(*tenant),
        Event::Admin(AdminCommand::Pool) => None,
    }
}
