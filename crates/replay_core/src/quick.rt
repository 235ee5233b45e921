//! Runs quick lines one after another, whether or not they are answered in the drain's buffer. A quick line is a line that
//! `quick_core` reads.

ghost use Rattle.std.specs.Prelude.{◌≡◌, ◌+◌, ◌^◌, ◌<◌, ◌≤◌, [], Some, Ok, length, is_err, IfOk, IfSome, MatchResult};
ghost use Rattle.quick_core.specs.Lines.{ReadsAs};
ghost use Rattle.words_core.specs.Grammar.{reading_of};
ghost use Rattle.words_core.specs.Requests.{command_of, IsAskable};
ghost use Rattle.words_core.specs.declared.event.Event.TheVariants.{Tenant};
ghost use Rattle.replay_core.specs.Doing.{HasDone, HasGone, HasStopped};
ghost use Rattle.replay_core.specs.Standing.{IsReady, AnswersRead, answers};

use crate::notes::Notes;
use crate::run::Run;
use kernel_core::Kernel;
use model_core::limits::MAX_BYTES;
use quick_core::{
    CR_LF, LF, RequestLine, WINDOW, read_ended_request, read_known_request, read_tenant,
};
use streams::{Drain, Stopped, line_end};
use words_core::{Addressee, Answer, Refusal, Request};

impl<N: Notes> Run<N> {
    /// Runs the quick lines at the front of a piece, both those that are answered in the drain's buffer and those between them
    /// that are not. Returns the rest of the piece.
    pub fn run_ended_lines<'a, const CRLF: bool, D: Drain>(
        &mut self,
        piece: &'a [u8],
        kernel: &mut Kernel,
        drain: &mut D,
    ) -> Result<&'a [u8], Stopped>
        requires { IsReady (D.has_failed drain.old) self.old (length piece.now) }
        ensures done { MatchResult result
            (λ rest. HasGone (answers N.noting) (self.old, kernel.old) piece.now rest.now
            (D.contents drain.old) (D.contents drain.new) (self.new, kernel.new))
            (λ _. HasStopped (answers N.noting) (self.old, kernel.old) piece.now
            (D.contents drain.old) (D.contents drain.new) (self.new, kernel.new)) }
        ensures left { IfOk result (λ rest. self.new.lines + length rest.now ≤ self.old.lines + length piece.now) }
        ensures failed { D.has_failed drain.new ≡ is_err result }
    {
        // The bytes of a write: one buffer for all lines.
        let mut buffer = [0; MAX_BYTES];
        let mut rest = self.run_in_place::<CRLF, D>(piece, kernel, drain);
        'lines: while let Some(line) = self.read_left::<CRLF, D>(rest, &mut buffer, kernel, drain) {
            let len = line.len;
            self.answer_apart(line.tenant, line.request, kernel, drain)?;
            rest = self.run_in_place::<CRLF, D>(&rest[len..], kernel, drain);
        }
        if rest.len() < WINDOW {
            return self.run_last_lines(rest, kernel, drain);
        }
        Ok(rest)
    }

    /// Reads the first line that [`Run::run_in_place`] left, if it is a quick line. A line that `run_in_place` has tried to read
    /// is not read again.
    #[inline(always)]
    fn read_left<'a, const CRLF: bool, D: Drain>(
        &self,
        bytes: &[u8],
        buffer: &'a mut [u8; MAX_BYTES],
        kernel: &Kernel,
        drain: &D,
    ) -> Option<RequestLine<'a>>
        ensures reads { IfSome result (λ line. ReadsAs bytes.now line.tenant (command_of line.request) line.len) }
        ensures askable { IfSome result (λ line. IsAskable line.request) }
    {
        let number = read_tenant(bytes)?;
        match kernel.tenant(number.value) {
            Some(t) if self.replies.is_shown(Addressee::Tenant(t)) && drain.has_space() => None,
            _ => read_known_request::<CRLF>(bytes, number, buffer),
        }
    }

    /// Runs the quick lines at the front of the last bytes of a piece and returns the rest of these bytes. No beginning of a line
    /// may be pending.
    #[cold]
    #[inline(never)]
    pub fn run_last_lines<'a, D: Drain>(
        &mut self,
        piece: &'a [u8],
        kernel: &mut Kernel,
        drain: &mut D,
    ) -> Result<&'a [u8], Stopped>
        requires { IsReady (D.has_failed drain.old) self.old (length piece.now) }
        ensures done { MatchResult result
            (λ rest. HasGone (answers N.noting) (self.old, kernel.old) piece.now rest.now
            (D.contents drain.old) (D.contents drain.new) (self.new, kernel.new))
            (λ _. HasStopped (answers N.noting) (self.old, kernel.old) piece.now
            (D.contents drain.old) (D.contents drain.new) (self.new, kernel.new)) }
        ensures left { IfOk result (λ rest. self.new.lines + length rest.now ≤ self.old.lines + length piece.now) }
        ensures failed { D.has_failed drain.new ≡ is_err result }
    {
        let mut buffer = [0; MAX_BYTES];
        let mut rest = piece;
        'lines: while let Some(end) = line_end(rest) {
            let Some(read) = read_alone(&rest[..end], &mut buffer) else {
                return Ok(rest);
            };
            self.answer_apart(read.tenant, read.request, kernel, drain)?;
            rest = &rest[end + 1..];
        }
        Ok(rest)
    }

    /// Runs the request of a line, counts the line, and pushes the answer if it is shown.
    #[inline(never)]
    pub fn answer_apart<D: Drain>(
        &mut self,
        tenant: u32,
        request: Request<'_>,
        kernel: &mut Kernel,
        drain: &mut D,
    ) -> Result<(), Stopped>
        requires askable { IsAskable request }
        requires ready { IsReady (D.has_failed drain.old) self.old 1 }
        ensures done { HasDone (AnswersRead N.noting []) (self.old, kernel.old) (Ok (Some (Tenant tenant (command_of request.entry))))
            (D.contents drain.old) (D.contents drain.new) result (self.new, kernel.new) }
        ensures failed { D.has_failed drain.new ≡ is_err result }
    {
        self.lines += 1;
        self.events += 1;
        match kernel.ask(tenant, request) {
            Some((t, answer)) => {
                self.replies
                    .show_to(Addressee::Tenant(t), answer, drain, &mut self.notes)
            }
            None => {
                let answer = Answer::Refused(Refusal::NoTenant);
                self.replies
                    .show_to(Addressee::Nobody, answer, drain, &mut self.notes)
            }
        }
    }
}

/// Reads a single line, without its line feed, as a quick request. Returns `None` if the line has `WINDOW` bytes or more, or is
/// not recognized as a quick request.
fn read_alone<'a>(line: &[u8], buffer: &'a mut [u8; MAX_BYTES]) -> Option<RequestLine<'a>>
    ensures reads { IfSome result (λ read. reading_of line.now ≡ Ok (Some (Tenant read.tenant (command_of read.request)))) }
    ensures askable { IfSome result (λ read. IsAskable read.request) }
{
    if line.ends_with(b"\r") {
        read_in_window::<CR_LF>(line, buffer)
    } else {
        read_in_window::<LF>(line, buffer)
    }
}

/// Does what [`read_alone`] does, for a line that ends in LF, or in CR LF if `CRLF`. Copies the line and an LF to the front of
/// `WINDOW` bytes and reads it there.
fn read_in_window<'a, const CRLF: bool>(
    line: &[u8],
    buffer: &'a mut [u8; MAX_BYTES],
) -> Option<RequestLine<'a>>
    ensures reads { IfSome result (λ read. reading_of line.now ≡ Ok (Some (Tenant read.tenant (command_of read.request)))) }
    ensures askable { IfSome result (λ read. IsAskable read.request) }
{
    if line.len() >= WINDOW {
        return None;
    }
    let mut window = [0; WINDOW];
    window[..line.len()].copy_from_slice(line);
    window[line.len()] = b'\n';
    let read = read_ended_request::<CRLF>(&window, buffer)?;
    if read.len != line.len() + 1 {
        return None;
    }
    Some(read)
}
