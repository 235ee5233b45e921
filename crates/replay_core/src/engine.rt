//! Cuts the pieces that a feed gives into the lines of a trace, and runs them.

ghost use Rattle.std.specs.Prelude.{◌≡◌, ℕ, ◌+◌, ◌<◌, ◌≤◌, true, false, List, [], ◌++◌, length, IfOk, MatchResult, is_err};
ghost use Rattle.std.specs.Io.KnownBytes.{Consumes, Appends, IsAtEnd};
ghost use Rattle.replay_core.specs.Pending.{HoldsLine};
ghost use Rattle.streams.specs.Lines.{IsOneLine};
ghost use Rattle.replay_core.specs.Doing.{HasDone, HasGone, HasStopped};
ghost use Rattle.replay_core.specs.Ending.{HasLeft, RunsAs, IsRunToEnd, NamesEndFailed};

use crate::answering::answer;
use crate::pending::{Pending, split_line};
use crate::sink::Sink;
use kernel_core::Kernel;
use quick_core::{CR_LF, LF, may_begin_request};
use streams::{Drain, Feed, Stopped};

/// The largest number of bytes in one pull.
const PIECE_BYTES: usize = 65_536;

/// The end that failed: the feed or the drain.
#[derive(Clone, Copy, Debug, PartialEq, Eq)]
pub enum EndFailed {
    /// The feed. All lines that ended in LF were processed; the unfinished line was not.
    Feed,
    /// The drain. It took a prefix of the output of the last line that was processed.
    Drain,
}

/// Runs the lines from the feed on the kernel, and passes each line with its answer to the sink.
///
/// Lines end at LF; the ends of pieces have no effect, and the last line needs no LF. Each line is processed as soon as it is
/// complete, and before each pull the drain sends what was pushed. Allocates nothing.
pub fn do_lines<S: Sink, F: Feed, D: Drain>(
    kernel: &mut Kernel,
    sink: &mut S,
    feed: &mut F,
    drain: &mut D,
) -> Result<(), EndFailed>
    // Each line takes at least one byte of the feed.
    requires more { F.room_left feed.old ≤ S.lines_left sink.old }
    requires feed_fine { F.has_failed feed.old ≡ false }
    requires drain_fine { D.has_failed drain.old ≡ false }
    // The feed gives the bytes `given`, and the drain takes the bytes `taken`. The number of bytes given is known even if the
    // bytes of the feed are not.
    ensures ran { (given : List ℕ) × (taken : List ℕ)
        × Consumes (F.remaining feed.old) (F.remaining feed.new) given
        × Appends (D.contents drain.old) (D.contents drain.new) taken
        × RunsAs S.does S.leaves (F.has_ended feed.new) (sink.old, kernel.old) given taken result (sink.new, kernel.new)
        × (F.room_left feed.new + length given ≡ F.room_left feed.old) }
    ensures ended { IsRunToEnd result (F.has_ended feed.new) }
    // If the feed has ended, it has given all its bytes.
    ensures whole { F.has_ended feed.new ≡ true → IsAtEnd (F.remaining feed.new) }
    ensures failed { NamesEndFailed result (F.has_failed feed.new) (D.has_failed drain.new) }
{
    let mut pending = Pending::new();
    let mut piece = [0; PIECE_BYTES];
    'pulls: loop {
        drain.send();
        let Ok(count) = feed.pull(&mut piece) else {
            see_unended(&pending, sink);
            return Err(EndFailed::Feed);
        };
        if count == 0 {
            break;
        }
        let done = do_piece(&piece[..count], &mut pending, kernel, sink, drain);
        if done.is_err() {
            return Err(EndFailed::Drain);
        }
    }
    if pending.is_empty() {
        return Ok(());
    }
    let front = pending.held.as_slice();
    if answer(pending.reading(), front, kernel, sink, drain).is_err() {
        return Err(EndFailed::Drain);
    }
    Ok(())
}

/// If the end of a line could not be read, passes the beginning of this line to the sink.
#[cold]
fn see_unended<S: Sink>(pending: &Pending, sink: &mut S)
    requires more { (tail : List ℕ) × HoldsLine tail pending.now × (length tail ≤ S.lines_left sink.old) }
    ensures { (tail : List ℕ) → HoldsLine tail pending.now → HasLeft S.leaves sink.old tail sink.new }
{
    if !pending.is_empty() {
        sink.unended(pending.reading(), pending.held.as_slice());
    }
}

/// Processes the lines that end in a piece. The bytes after the last of them become pending.
fn do_piece<S: Sink, D: Drain>(
    piece: &[u8],
    pending: &mut Pending,
    kernel: &mut Kernel,
    sink: &mut S,
    drain: &mut D,
) -> Result<(), Stopped>
    requires more { length piece.now ≤ S.lines_left sink.old }
    requires fine { D.has_failed drain.old ≡ false }
    ensures done { (tail : List ℕ) → HoldsLine tail pending.old → IsOneLine tail → MatchResult result
        (λ _. (left : List ℕ) × HoldsLine left pending.new × IsOneLine left
        × (S.lines_left sink.old + length left ≤ S.lines_left sink.new + length piece.now + length tail)
        × HasGone S.does (sink.old, kernel.old) (tail ++ piece.now) left
        (D.contents drain.old) (D.contents drain.new) (sink.new, kernel.new))
        (λ _. HasStopped S.does (sink.old, kernel.old) (tail ++ piece.now)
        (D.contents drain.old) (D.contents drain.new) (sink.new, kernel.new)) }
    ensures failed { D.has_failed drain.new ≡ is_err result }
{
    let mut rest = begin_piece(piece, pending, kernel, sink, drain)?;
    'lines: while let Some((end, after)) = split_line(rest) {
        end_line(end, pending, kernel, sink, drain)?;
        let returned = end.ends_with(b"\r");
        rest = do_quick_lines(after, returned, kernel, sink, drain)?;
    }
    pending.add(rest);
    Ok(())
}

/// Processes the quick lines at the front of a piece if no beginning of a line is pending. Returns the rest of the piece.
fn begin_piece<'a, S: Sink, D: Drain>(
    piece: &'a [u8],
    pending: &Pending,
    kernel: &mut Kernel,
    sink: &mut S,
    drain: &mut D,
) -> Result<&'a [u8], Stopped>
    requires more { length piece.now ≤ S.lines_left sink.old }
    requires fine { D.has_failed drain.old ≡ false }
    ensures done { (tail : List ℕ) → HoldsLine tail pending.now → MatchResult result
        (λ rest. HasGone S.does (sink.old, kernel.old) (tail ++ piece.now) (tail ++ rest.now)
        (D.contents drain.old) (D.contents drain.new) (sink.new, kernel.new))
        (λ _. HasStopped S.does (sink.old, kernel.old) (tail ++ piece.now)
        (D.contents drain.old) (D.contents drain.new) (sink.new, kernel.new)) }
    ensures left { IfOk result (λ rest. S.lines_left sink.old + length rest.now ≤ S.lines_left sink.new + length piece.now) }
    ensures failed { D.has_failed drain.new ≡ is_err result }
{
    if pending.is_empty() {
        do_quick_lines(piece, false, kernel, sink, drain)
    } else {
        Ok(piece)
    }
}

/// Processes the quick lines at the front of a piece and returns the rest of it. No beginning of a line may be pending.
///
/// First, lines that end in LF are processed. Then, if the line before the piece ended in CR LF (`returned`), lines that end in
/// CR LF are processed.
#[inline(always)]
fn do_quick_lines<'a, S: Sink, D: Drain>(
    piece: &'a [u8],
    returned: bool,
    kernel: &mut Kernel,
    sink: &mut S,
    drain: &mut D,
) -> Result<&'a [u8], Stopped>
    requires more { length piece.now ≤ S.lines_left sink.old }
    requires fine { D.has_failed drain.old ≡ false }
    ensures done { MatchResult result
        (λ rest. HasGone S.does (sink.old, kernel.old) piece.now rest.now
        (D.contents drain.old) (D.contents drain.new) (sink.new, kernel.new))
        (λ _. HasStopped S.does (sink.old, kernel.old) piece.now
        (D.contents drain.old) (D.contents drain.new) (sink.new, kernel.new)) }
    ensures left { IfOk result (λ rest. S.lines_left sink.old + length rest.now ≤ S.lines_left sink.new + length piece.now) }
    ensures failed { D.has_failed drain.new ≡ is_err result }
{
    if !may_begin_request(piece) {
        return Ok(piece);
    }
    let rest = sink.quick_lines(piece, LF, kernel, drain)?;
    if !returned {
        return Ok(rest);
    }
    sink.quick_lines(rest, CR_LF, kernel, drain)
}

/// Processes the line that ends with these bytes. Afterwards no line is pending.
fn end_line<S: Sink, D: Drain>(
    bytes: &[u8],
    pending: &mut Pending,
    kernel: &mut Kernel,
    sink: &mut S,
    drain: &mut D,
) -> Result<(), Stopped>
    requires more { 0 < S.lines_left sink.old }
    requires fine { D.has_failed drain.old ≡ false }
    ensures done { (tail : List ℕ) → HoldsLine tail pending.old
        → HasDone S.does (sink.old, kernel.old) (tail ++ bytes.now)
        (D.contents drain.old) (D.contents drain.new) result (sink.new, kernel.new) }
    ensures cleared { (tail : List ℕ) → HoldsLine tail pending.old → HoldsLine [] pending.new }
    ensures left { S.lines_left sink.old ≤ S.lines_left sink.new + 1 }
    ensures failed { D.has_failed drain.new ≡ is_err result }
{
    if pending.is_empty() {
        return answer(pending.end_with(bytes), bytes, kernel, sink, drain);
    }
    pending.add(bytes);
    let front = pending.held.as_slice();
    let done = answer(pending.reading(), front, kernel, sink, drain);
    pending.clear();
    done
}
