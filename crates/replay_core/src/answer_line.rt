//! Runs frequent lines and writes their answers straight into the drain's buffer. Each command has its own copy of the code.

ghost use Rattle.std.specs.Prelude.{◌≡◌, ◌+◌, ◌^◌, ◌<◌, ◌≤◌, false, true, [], Some, Ok, length};
ghost use Rattle.words_core.specs.Requests.{command_of, IsAskable};
ghost use Rattle.words_core.specs.declared.event.Event.TheVariants.{Tenant};
ghost use Rattle.words_core.specs.declared.reply.Addressee.TheVariants as To;
ghost use Rattle.world_core.specs.Output.{is_shown};
ghost use Rattle.replay_core.specs.Doing.{HasDone, HasGone};
ghost use Rattle.replay_core.specs.Front.{HasAnsweredLine};
ghost use Rattle.replay_core.specs.Standing.{IsReady, AnswersRead, answers};

use crate::notes::{Notes, note_answer};
use crate::run::Run;
use kernel_core::Kernel;
use model_core::limits::MAX_BYTES;
use quick_core::{LF, read_known_request, read_tenant};
use streams::Drain;
use words_core::{Addressee, Request};

/// The numbers of the frequent commands, and `RARE` for all others.
const ALLOC: usize = 0;

const FREE: usize = 1;

const TAKE: usize = 2;

const GIVE: usize = 3;

const READ: usize = 4;

const WRITE: usize = 5;

const RARE: usize = 6;

impl<N: Notes> Run<N> {
    /// Runs the quick requests of existing, shown tenants at the front of a piece, while the drain has space for an answer.
    /// Returns the rest of the piece. The lines end in LF, or in CR LF if `CRLF` is true.
    // Kept out of line, which gives its loop all registers.
    #[inline(never)]
    pub fn run_in_place<'a, const CRLF: bool, D: Drain>(
        &mut self,
        piece: &'a [u8],
        kernel: &mut Kernel,
        drain: &mut D,
    ) -> &'a [u8]
        requires { IsReady (D.has_failed drain.old) self.old (length piece.now) }
        ensures done { HasGone (answers N.noting) (self.old, kernel.old) piece.now result.now
            (D.contents drain.old) (D.contents drain.new) (self.new, kernel.new) }
        ensures left { self.new.lines + length result.now ≤ self.old.lines + length piece.now }
        ensures within { length result.now ≤ length piece.now }
        ensures failed { D.has_failed drain.new ≡ false }
    {
        // The bytes of a write: one buffer for all lines.
        let mut buffer = [0; MAX_BYTES];
        let mut rest = piece;
        'lines: while drain.has_space() {
            let Some(len) = self.answer_line::<CRLF, D>(rest, &mut buffer, kernel, drain) else {
                return rest;
            };
            rest = &rest[len..];
        }
        rest
    }

    /// Runs and answers the line at the front of these bytes and returns its length, including the line end. Returns `None` and
    /// does nothing if the line is not a quick request of an existing, shown tenant.
    #[inline(always)]
    fn answer_line<const CRLF: bool, D: Drain>(
        &mut self,
        bytes: &[u8],
        buffer: &mut [u8; MAX_BYTES],
        kernel: &mut Kernel,
        drain: &mut D,
    ) -> Option<usize>
        requires ready { IsReady (D.has_failed drain.old) self.old (length bytes.now) }
        requires space { D.is_roomy drain.old ≡ true }
        ensures { HasAnsweredLine N.noting bytes.now kernel.old kernel.new (D.contents drain.old) (D.contents drain.new)
            (D.has_failed drain.new) self.old self.new result }
    {
        let number = read_tenant(bytes)?;
        let tenant = kernel.tenant(number.value)?;
        if !self.replies.is_shown(Addressee::Tenant(tenant)) {
            return None;
        }
        let line = read_known_request::<CRLF>(bytes, number, buffer)?;
        self.answer_request::<CRLF, D>(tenant, line.request, kernel, drain);
        Some(line.len)
    }

    /// Runs a request of an existing, shown tenant, counts its line, and writes the answer straight into the drain's buffer.
    #[inline(always)]
    fn answer_request<const CRLF: bool, D: Drain>(
        &mut self,
        tenant: u8,
        request: Request<'_>,
        kernel: &mut Kernel,
        drain: &mut D,
    )
        requires askable { IsAskable request }
        requires tenant { tenant < kernel.old.tenants }
        requires shown { is_shown self.old.replies.only (To.Tenant tenant) ≡ true }
        requires ready { IsReady (D.has_failed drain.old) self.old 1 }
        requires space { D.is_roomy drain.old ≡ true }
        ensures done { HasDone (AnswersRead N.noting []) (self.old, kernel.old) (Ok (Some (Tenant tenant (command_of request.entry))))
            (D.contents drain.old) (D.contents drain.new) (Ok tt) (self.new, kernel.new) }
        ensures failed { D.has_failed drain.new ≡ false }
    {
        match request {
            Request::Alloc { order } => {
                self.answer_as::<ALLOC, CRLF, D>(tenant, Request::Alloc { order }, kernel, drain)
            }
            Request::Free { frame } => {
                self.answer_as::<FREE, CRLF, D>(tenant, Request::Free { frame }, kernel, drain)
            }
            Request::Take { cache } => {
                self.answer_as::<TAKE, CRLF, D>(tenant, Request::Take { cache }, kernel, drain)
            }
            Request::Give { cache, place } => {
                self.answer_as::<GIVE, CRLF, D>(
                    tenant,
                    Request::Give { cache, place },
                    kernel,
                    drain,
                )
            }
            Request::Read { place, len } => {
                self.answer_as::<READ, CRLF, D>(tenant, Request::Read { place, len }, kernel, drain)
            }
            Request::Write { place, bytes } => {
                self.answer_as::<WRITE, CRLF, D>(
                    tenant,
                    Request::Write { place, bytes },
                    kernel,
                    drain,
                )
            }
            rare => self.answer_rare(tenant, rare, kernel, drain),
        }
    }

    /// Does what [`Run::answer_request`] does, for the command with the number `COMMAND`. Each pair of a command and a line end
    /// has its own instance, with one caller. A function with one caller is always inlined, so the code that writes the answer
    /// knows which answers are possible.
    #[inline]
    fn answer_as<const COMMAND: usize, const CRLF: bool, D: Drain>(
        &mut self,
        tenant: u8,
        request: Request<'_>,
        kernel: &mut Kernel,
        drain: &mut D,
    )
        requires askable { IsAskable request }
        requires tenant { tenant < kernel.old.tenants }
        requires shown { is_shown self.old.replies.only (To.Tenant tenant) ≡ true }
        requires ready { IsReady (D.has_failed drain.old) self.old 1 }
        requires space { D.is_roomy drain.old ≡ true }
        ensures done { HasDone (AnswersRead N.noting []) (self.old, kernel.old) (Ok (Some (Tenant tenant (command_of request.entry))))
            (D.contents drain.old) (D.contents drain.new) (Ok tt) (self.new, kernel.new) }
        ensures failed { D.has_failed drain.new ≡ false }
    {
        self.lines += 1;
        self.events += 1;
        let answer = kernel.ask_known(tenant, request);
        note_answer(answer, &mut self.notes);
        self.replies.show_in_place(tenant, answer, drain);
    }

    /// Does what [`Run::answer_as`] does, for a rare command.
    #[cold]
    #[inline(never)]
    fn answer_rare<D: Drain>(
        &mut self,
        tenant: u8,
        request: Request<'_>,
        kernel: &mut Kernel,
        drain: &mut D,
    )
        requires askable { IsAskable request }
        requires tenant { tenant < kernel.old.tenants }
        requires shown { is_shown self.old.replies.only (To.Tenant tenant) ≡ true }
        requires ready { IsReady (D.has_failed drain.old) self.old 1 }
        requires space { D.is_roomy drain.old ≡ true }
        ensures done { HasDone (AnswersRead N.noting []) (self.old, kernel.old) (Ok (Some (Tenant tenant (command_of request.entry))))
            (D.contents drain.old) (D.contents drain.new) (Ok tt) (self.new, kernel.new) }
        ensures failed { D.has_failed drain.new ≡ false }
    {
        self.answer_as::<RARE, LF, D>(tenant, request, kernel, drain);
    }
}
