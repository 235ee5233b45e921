//! Runs a trace on a new machine.

ghost use Rattle.std.specs.Prelude.{◌≡◌, ◌≤◌, ℕ, true, false, not, List, [], length, IfSome};
ghost use Rattle.std.specs.Io.KnownBytes.{Appends, Consumes, Keeps};
ghost use Rattle.partmem.specs.Promised.{WritesAllowed};
ghost use Rattle.partmem.specs.Notes.{HasNoted};
ghost use Rattle.partmem.specs.Run.{Answers, EndsAs, HasReached, IsOfTrace, Tallies, shown_replies};
ghost use Rattle.words_core.specs.Cutting.{lines_of_trace};

use crate::outcome::{Ended, tally_of};
use command_line::{MachineOptions, Outcome, outcome_of};
use kernel_core::{BootError, Kernel, laws};
use replay_core::{Drain, Feed, Notes, WriterDrain, replay_noted};
use std::alloc::Global;
use std::io::Write;
use std::mem;

/// Boots a new machine of these sizes, replays the trace and flushes. It also flushes if the feed failed, but not if the drain
/// failed. The first failure decides the outcome. It takes the same notes as [`replay_noted`].
pub fn run<F: Feed, W: Write, N: Notes>(
    alloc: Global,
    machine: &MachineOptions,
    feed: &mut F,
    drain: &mut WriterDrain<W>,
    notes: &mut N,
) -> Ended
    requires feed_fine { F.has_failed feed.old ≡ false }
    requires drain_fine { ⟦<WriterDrain<W> as Drain>⟧.has_failed drain.old ≡ false }
    // The feed gave the bytes `given`, and the drain took the bytes `written`. The writer took `sent`, a prefix of `written`. The
    // outcome, the tally and the notes are those for these bytes.
    ensures ran { (given : List ℕ) × (written : List ℕ) × (sent : List ℕ)
        × Consumes (F.remaining feed.old) (F.remaining feed.new) given
        × Appends (⟦<WriterDrain<W> as Drain>⟧.contents drain.old) (⟦<WriterDrain<W> as Drain>⟧.contents drain.new) written
        × HasReached result.outcome (⟦<WriterDrain<W> as Drain>⟧.has_failed drain.new) (⟦<WriterDrain<W> as Drain>⟧.contents drain.old)
        (W.contents drain.new.writer) (⟦<WriterDrain<W> as Drain>⟧.held_back drain.new) written sent
        × Answers machine.now result.outcome given written
        × Tallies machine.now result.outcome result.tally (F.has_ended feed.new) (F.has_failed feed.new) given written sent
        × (length given ≤ F.room_left feed.old)
        × IfSome (F.remaining feed.old) (λ trace.
        IsOfTrace result.outcome trace given (shown_replies machine.now (lines_of_trace trace)) written)
        × HasNoted N.noting machine.now result.outcome result.tally.lines (F.has_ended feed.new) given notes.old notes.new }
    // Every reply keeps the promises, even if it is not shown.
    ensures promises { (given : List ℕ) × (written : List ℕ) × (sent : List ℕ)
        × Consumes (F.remaining feed.old) (F.remaining feed.new) given
        × Appends (⟦<WriterDrain<W> as Drain>⟧.contents drain.old) (⟦<WriterDrain<W> as Drain>⟧.contents drain.new) written
        × HasReached result.outcome (⟦<WriterDrain<W> as Drain>⟧.has_failed drain.new) (⟦<WriterDrain<W> as Drain>⟧.contents drain.old)
        (W.contents drain.new.writer) (⟦<WriterDrain<W> as Drain>⟧.held_back drain.new) written sent
        × WritesAllowed machine.now result.outcome given written
        × Tallies machine.now result.outcome result.tally (F.has_ended feed.new) (F.has_failed feed.new) given written sent }
    ensures ended { EndsAs result.outcome (F.has_ended feed.new) (F.has_failed feed.new)
        (⟦<WriterDrain<W> as Drain>⟧.has_failed drain.new) (⟦<WriterDrain<W> as Drain>⟧.has_failed_to_send drain.new) }
{
    laws::shown_stays();
    let mut kernel = match Kernel::boot(alloc, machine.config) {
        Ok(kernel) => kernel,
        Err(BootError::Memory) => return Ended::at_once(Outcome::NoMemory),
        Err(BootError::BadConfig) => unreachable!(),
    };
    let replayed = replay_noted(&mut kernel, feed, drain, machine.only, notes);
    // When the process ends, the system frees all memory at once. That is faster than freeing it piece by piece.
    mem::forget(kernel);
    let flushed = flush(drain);
    Ended {
        outcome: outcome_of(&replayed).after_flush(drain.send_failed(), flushed),
        tally: tally_of(&replayed, drain.unwritten()),
    }
}

/// Flushes the drain, unless it has failed. Returns true if it was flushed and the writer has received everything.
pub(crate) fn flush<W: Write>(drain: &mut WriterDrain<W>) -> bool
    ensures bytes { Keeps (⟦<WriterDrain<W> as Drain>⟧.contents drain.old) (⟦<WriterDrain<W> as Drain>⟧.contents drain.new) }
    ensures empty { result ≡ true → ⟦<WriterDrain<W> as Drain>⟧.held_back drain.new ≡ [] }
    ensures failed { ⟦<WriterDrain<W> as Drain>⟧.has_failed drain.new ≡ not result }
    ensures stopped { ⟦<WriterDrain<W> as Drain>⟧.has_failed_to_send drain.old ≡ true → result ≡ false }
    ensures sends { ⟦<WriterDrain<W> as Drain>⟧.has_failed_to_send drain.new ≡ ⟦<WriterDrain<W> as Drain>⟧.has_failed_to_send drain.old }
    // A drain that had failed is not flushed, and the result is false.
    ensures fine { ⟦<WriterDrain<W> as Drain>⟧.has_failed drain.old ≡ true → result ≡ false }
{
    !drain.failed() && drain.flush().is_ok()
}
