//! Receivers of the lines of a trace.

ghost use Rattle.std.specs.Prelude.{◌≡◌, ℕ, ◌+◌, ◌<◌, ◌≤◌, false, List, length, is_err, Option, Some, None, Ok, Err, IfOk, MatchResult};
ghost use Rattle.words_core.specs.Grammar.{reading_of};
ghost use Rattle.words_core.specs.Requests.{reply_to, HasFewBytes};
ghost use Rattle.kernel_core.specs.Content.{KernelContent};
ghost use Rattle.kernel_core.specs.Steps.{Steps};
ghost use Rattle.replay_core.specs.Doing.{HasDone, HasGone, HasStopped};
ghost use Rattle.replay_core.specs.Pending.{IsFrontOf};
ghost use Rattle.replay_core.specs.Rows.{HasRows};

use kernel_core::Kernel;
use streams::{Drain, Stopped};
use words_core::{Addressee, Answer, Event, LineFault};

/// A receiver of the lines of a trace, each with its answer, in order.
pub trait Sink {
    // The effect of a line: a step from one state of the sink and the kernel to the next. The arguments between the states are
    // the line, the bytes of its output that the drain took, and the bytes that it did not take.
    ghost does: { Self × KernelContent → List ℕ → List ℕ → List ℕ → Self × KernelContent → Type 0 };

    // The effect of a line before `ran` is called.
    ghost does_first: { Self × KernelContent → List ℕ → List ℕ → List ℕ → Self × KernelContent → Type 0 };
    // The effect of the beginning of a line whose end could not be read.
    ghost leaves: { Self → List ℕ → Self → Type 0 };

    // At least `lines_left` more lines can be processed.
    ghost lines_left: { Self → ℕ };

    /// Runs and processes the quick lines at the front of a piece and returns the rest of it. The lines end in LF, or in CR LF if
    /// `returns`.
    fn quick_lines<'a, D: Drain>(
        &mut self,
        piece: &'a [u8],
        returns: bool,
        kernel: &mut Kernel,
        drain: &mut D,
    ) -> Result<&'a [u8], Stopped>
        requires more { length piece.now ≤ lines_left self.old }
        requires fine { D.has_failed drain.old ≡ false }
        ensures done { MatchResult result
            (λ rest. HasGone does (self.old, kernel.old) piece.now rest.now
            (D.contents drain.old) (D.contents drain.new) (self.new, kernel.new))
            (λ _. HasStopped does (self.old, kernel.old) piece.now
            (D.contents drain.old) (D.contents drain.new) (self.new, kernel.new)) }
        ensures left { IfOk result (λ rest. lines_left self.old + length rest.now ≤ lines_left self.new + length piece.now) }
        ensures failed { D.has_failed drain.new ≡ is_err result };

    /// Processes a line whose event got this answer.
    fn answered<D: Drain>(
        &mut self,
        line: &[u8],
        event: &Event,
        addressee: Addressee,
        answer: Answer<'_>,
        drain: &mut D,
    ) -> Result<(), Stopped>
        requires few { HasFewBytes answer }
        requires more { 0 < lines_left self.old }
        requires fine { D.has_failed drain.old ≡ false }
        ensures done { (before : KernelContent) (after : KernelContent) → reading_of line.now ≡ Ok (Some event.now)
            → Steps before event.now after (reply_to addressee answer.entry)
            → HasDone does_first (self.old, before) line.now (D.contents drain.old) (D.contents drain.new) result (self.new, after) }
        ensures left { lines_left self.old ≤ lines_left self.new + 1 }
        ensures failed { D.has_failed drain.new ≡ is_err result };

    /// Processes a line whose event changes nothing and has a reply of several lines: a report, or the table of owners.
    fn replied<D: Drain>(
        &mut self,
        line: &[u8],
        event: &Event,
        kernel: &Kernel,
        drain: &mut D,
    ) -> Result<(), Stopped>
        requires rows { HasRows event.now }
        requires more { 0 < lines_left self.old }
        requires fine { D.has_failed drain.old ≡ false }
        ensures done { reading_of line.now ≡ Ok (Some event.now)
            → HasDone does_first (self.old, kernel.now) line.now
            (D.contents drain.old) (D.contents drain.new) result (self.new, kernel.now) }
        ensures left { lines_left self.old ≤ lines_left self.new + 1 }
        ensures failed { D.has_failed drain.new ≡ is_err result };

    /// Processes a faulty line. `front` is the line, or its beginning if it is too long.
    fn faulty<D: Drain>(
        &mut self,
        fault: LineFault,
        front: &[u8],
        drain: &mut D,
    ) -> Result<(), Stopped>
        requires more { 0 < lines_left self.old }
        requires fine { D.has_failed drain.old ≡ false }
        ensures done { (line : List ℕ) (kernel : KernelContent) → reading_of line ≡ Err fault → IsFrontOf line front.now
            → HasDone does_first (self.old, kernel) line (D.contents drain.old) (D.contents drain.new) result (self.new, kernel) }
        ensures left { lines_left self.old ≤ lines_left self.new + 1 }
        ensures failed { D.has_failed drain.new ≡ is_err result };

    /// Processes a blank line or a comment.
    fn blank(&mut self)
        requires more { 0 < lines_left self.old }
        ensures done { (line : List ℕ) (kernel : KernelContent) (known : Option (List ℕ)) → reading_of line ≡ Ok None
            → HasDone does_first (self.old, kernel) line known known (Ok tt) (self.new, kernel) }
        ensures left { lines_left self.old ≤ lines_left self.new + 1 };

    /// Called after each line has been run and processed, with the kernel as the line left it. Not called for the lines of
    /// [`Sink::quick_lines`].
    fn ran(&mut self, kernel: &Kernel)
        ensures done { (before : Self × KernelContent) (line : List ℕ) (taken : List ℕ) (rest : List ℕ)
            → does_first before line taken rest (self.old, kernel.now) → does before line taken rest (self.new, kernel.now) }
        ensures left { lines_left self.old ≤ lines_left self.new };

    /// Called with the beginning of a line whose end could not be read, and with the reading of that beginning. The line is not
    /// run.
    fn unended(&mut self, reading: Result<Option<Event>, LineFault>, front: &[u8])
        requires more { 0 < lines_left self.old }
        ensures { (line : List ℕ) → reading ≡ reading_of line → IsFrontOf line front.now → leaves self.old line self.new };
}
