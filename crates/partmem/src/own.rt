//! Runs a trace on a new machine and writes a tenant's own list of the trace.

ghost use Rattle.std.specs.Prelude.{◌≡◌, ◌≤◌, ℕ, false, List, length, IfSome};
ghost use Rattle.std.specs.Io.KnownBytes.{Appends, Consumes};
ghost use Rattle.partmem.specs.Own.{WritesOwn, own_of};
ghost use Rattle.partmem.specs.Run.{EndsAs, HasReached, IsOfTrace};
ghost use Rattle.words_core.specs.Cutting.{lines_of_trace};

use crate::outcome::outcome_of_kept;
use crate::run::flush;
use command_line::{MachineOptions, Outcome};
use kernel_core::{BootError, Kernel, laws};
use own_trace::keep;
use replay_core::{Drain, Feed, WriterDrain};
use std::alloc::Global;
use std::io::Write;
use std::mem;

/// Boots a new machine of these sizes, runs the trace on it, and writes the lines of the tenant's own list. Writes no reply.
/// Flushes, and chooses the outcome, as [`run`](crate::run::run) does.
pub fn run_own<F: Feed, W: Write>(
    alloc: Global,
    machine: &MachineOptions,
    tenant: u8,
    feed: &mut F,
    drain: &mut WriterDrain<W>,
) -> Outcome
    requires feed_fine { F.has_failed feed.old ≡ false }
    requires drain_fine { ⟦<WriterDrain<W> as Drain>⟧.has_failed drain.old ≡ false }
    // The feed gave the bytes `given`, and the drain took the bytes `written`. The writer took `sent`, a prefix of `written`.
    ensures kept { (given : List ℕ) × (written : List ℕ) × (sent : List ℕ)
        × Consumes (F.remaining feed.old) (F.remaining feed.new) given
        × Appends (⟦<WriterDrain<W> as Drain>⟧.contents drain.old) (⟦<WriterDrain<W> as Drain>⟧.contents drain.new) written
        × HasReached result (⟦<WriterDrain<W> as Drain>⟧.has_failed drain.new) (⟦<WriterDrain<W> as Drain>⟧.contents drain.old)
        (W.contents drain.new.writer) (⟦<WriterDrain<W> as Drain>⟧.held_back drain.new) written sent
        × WritesOwn machine.now.config tenant result given written
        × (length given ≤ F.room_left feed.old)
        × IfSome (F.remaining feed.old) (λ trace.
        IsOfTrace result trace given (own_of machine.now.config tenant (lines_of_trace trace)) written) }
    ensures ended { EndsAs result (F.has_ended feed.new) (F.has_failed feed.new)
        (⟦<WriterDrain<W> as Drain>⟧.has_failed drain.new) (⟦<WriterDrain<W> as Drain>⟧.has_failed_to_send drain.new) }
{
    laws::shown_stays();
    let mut kernel = match Kernel::boot(alloc, machine.config) {
        Ok(kernel) => kernel,
        Err(BootError::Memory) => return Outcome::NoMemory,
        Err(BootError::BadConfig) => unreachable!(),
    };
    let kept = keep(&mut kernel, feed, drain, tenant);
    // When the process ends, the system frees all memory at once. That is faster than freeing it piece by piece.
    mem::forget(kernel);
    let flushed = flush(drain);
    outcome_of_kept(&kept).after_flush(drain.send_failed(), flushed)
}
