//! The sink of a replay: counts lines and shows their answers.

ghost use Rattle.std.specs.Prelude.{◌≡◌, ◌<◌, List, false, is_err, Some, Ok};
ghost use Rattle.replay_core.specs.Bounds.{IsWithinLines};

use crate::notes::Notes;
use crate::replies::Replies;
use crate::sink::Sink;
use kernel_core::Kernel;
use quick_core::{CR_LF, LF};
use streams::{Drain, Stopped, Tally};
use words_core::{Addressee, Answer, Event, LineFault, Refusal, Table};

/// The state of a replay between two lines: the counts of a [`Tally`], the replies, and the notes.
#[derive(Debug, Drop)]
pub struct Run<N> {
    pub lines: u64,
    pub events: u64,
    pub faults: u64,
    pub replies: Replies,
    pub notes: N,
    ghost bounded: { IsWithinLines lines events faults replies.written },
}

impl<N: Notes> Run<N> {
    ghost use Rattle.replay_core.specs.Standing.{tally_of_run};

    /// Returns the state before the first line.
    pub fn new(only: Option<u8>, notes: N) -> Self
        ensures only { result.replies.only ≡ only }
        ensures notes { result.notes ≡ notes }
        ensures none { tally_of_run result ≡ record { lines = 0; events = 0; faults = 0; written = 0 } }
    {
        Run {
            lines: 0,
            events: 0,
            faults: 0,
            replies: Replies::new(only),
            notes,
        }
    }

    /// Returns the counts, and stores the notes in `notes`.
    pub fn end(self, notes: &mut N) -> Tally
        ensures tally { result ≡ tally_of_run self }
        ensures notes { notes.new ≡ self.notes }
    {
        *notes = self.notes;
        Tally {
            lines: self.lines,
            events: self.events,
            faults: self.faults,
            written: self.replies.written,
        }
    }
}

impl<N: Notes> Sink for Run<N> {
    ghost use Rattle.std.specs.Prelude.{◌-◌, ◌^◌};
    ghost use Rattle.replay_core.specs.Standing.{answers, IsUnended};

    ghost does = { answers N.noting };

    ghost does_first = { answers N.noting };

    ghost leaves = { IsUnended N.noting };

    ghost lines_left = { λ run. 2 ^ 64 - 1 - run.lines };

    #[inline(always)]
    fn quick_lines<'a, D: Drain>(
        &mut self,
        piece: &'a [u8],
        returns: bool,
        kernel: &mut Kernel,
        drain: &mut D,
    ) -> Result<&'a [u8], Stopped> {
        // For the proof: the count of lines fits its type.
        let _lines = self.lines;
        if returns {
            self.run_ended_lines::<CR_LF, D>(piece, kernel, drain)
        } else {
            self.run_ended_lines::<LF, D>(piece, kernel, drain)
        }
    }

    fn answered<D: Drain>(
        &mut self,
        _line: &[u8],
        _event: &Event,
        addressee: Addressee,
        answer: Answer<'_>,
        drain: &mut D,
    ) -> Result<(), Stopped> {
        self.lines += 1;
        self.events += 1;
        self.replies
            .show_to(addressee, answer, drain, &mut self.notes)
    }

    // Not inlined: only a report needs this much stack, and a function clears its whole stack frame on entry.
    #[cold]
    #[inline(never)]
    fn replied<D: Drain>(
        &mut self,
        _line: &[u8],
        event: &Event,
        kernel: &Kernel,
        drain: &mut D,
    ) -> Result<(), Stopped> {
        self.lines += 1;
        self.events += 1;
        let Event::Tenant(tenant, _) = event else {
            return self
                .replies
                .show_table(Table::Owners(kernel.owners()), drain);
        };
        match kernel.tenant(*tenant) {
            Some(t) => self
                .replies
                .show_table(Table::Report(t, &kernel.figures(t)), drain),
            None => self.replies.show_to(
                Addressee::Nobody,
                Answer::Refused(Refusal::NoTenant),
                drain,
                &mut self.notes,
            ),
        }
    }

    fn faulty<D: Drain>(
        &mut self,
        fault: LineFault,
        front: &[u8],
        drain: &mut D,
    ) -> Result<(), Stopped> {
        self.lines += 1;
        self.faults += 1;
        self.notes.faulty(self.lines, fault, front);
        self.replies.show_to(
            Addressee::Nobody,
            Answer::Fault(fault),
            drain,
            &mut self.notes,
        )
    }

    fn blank(&mut self) {
        self.lines += 1;
    }

    #[inline(always)]
    fn ran(&mut self, _kernel: &Kernel) {}

    fn unended(&mut self, reading: Result<Option<Event>, LineFault>, front: &[u8]) {
        if let Err(fault) = reading {
            self.notes.faulty(self.lines + 1, fault, front);
        }
    }
}
