//! Runs the trace from a feed on a kernel, and pushes the replies into a drain.

ghost use Rattle.std.specs.Prelude.{◌≡◌, ℕ, ◌+◌, true, false, List, length, OnOk};
ghost use Rattle.std.specs.Io.KnownBytes.{Consumes, Appends, IsAtEnd};
ghost use Rattle.replay_core.specs.Runs.{Noted, Replays, HasOwnLines, IsDone, NamesFailed};
ghost use Rattle.replay_core.specs.Promised.{TakesAllowed};

use crate::engine::{EndFailed, do_lines};
use crate::notes::{NoNotes, Notes};
use crate::run::Run;
use kernel_core::{Kernel, laws};
use std::mem;
use streams::{Drain, Feed, ReplayError, Tally};

/// Runs the trace from the feed on the kernel, and pushes the replies into the drain: all replies, or only those to tenant
/// `only`.
///
/// Lines end at LF; the ends of pieces have no effect, and the last line needs no LF. Each line is answered as soon as it is
/// complete, and before each pull the drain sends what was pushed. Allocates nothing.
pub fn replay<F: Feed, D: Drain>(
    kernel: &mut Kernel,
    feed: &mut F,
    drain: &mut D,
    only: Option<u8>,
) -> Result<Tally, ReplayError>
    requires feed_fine { F.has_failed feed.old ≡ false }
    requires drain_fine { D.has_failed drain.old ≡ false }
    // The feed gives the bytes `given`, and the drain takes the bytes `taken`. Their relation holds for any world that the kernel
    // showed. The number of bytes given is known even if the bytes of the feed are not.
    ensures ran { (given : List ℕ) × (taken : List ℕ)
        × Consumes (F.remaining feed.old) (F.remaining feed.new) given
        × Appends (D.contents drain.old) (D.contents drain.new) taken
        × Replays (F.has_ended feed.new) only kernel.old kernel.new given taken result
        × OnOk result (HasOwnLines only kernel.old given taken)
        × (F.room_left feed.new + length given ≡ F.room_left feed.old) }
    // From an opening world, each reply to a line that was run keeps the promises, even if it is not shown.
    ensures promises { (given : List ℕ) × (taken : List ℕ)
        × Consumes (F.remaining feed.old) (F.remaining feed.new) given
        × Appends (D.contents drain.old) (D.contents drain.new) taken
        × TakesAllowed (F.has_ended feed.new) only kernel.old given taken result }
    ensures ended { IsDone result (F.has_ended feed.new) }
    // If the feed has ended, it has given all its bytes.
    ensures whole { F.has_ended feed.new ≡ true → IsAtEnd (F.remaining feed.new) }
    ensures failed { NamesFailed result (F.has_failed feed.new) (D.has_failed drain.new) }
{
    replay_noted(kernel, feed, drain, only, &mut NoNotes)
}

/// Does what [`replay`] does, and notes the refusals that are shown and the faulty lines.
pub fn replay_noted<F: Feed, D: Drain, N: Notes>(
    kernel: &mut Kernel,
    feed: &mut F,
    drain: &mut D,
    only: Option<u8>,
    notes: &mut N,
) -> Result<Tally, ReplayError>
    requires feed_fine { F.has_failed feed.old ≡ false }
    requires drain_fine { D.has_failed drain.old ≡ false }
    // The feed gives the bytes `given`, and the drain takes the bytes `taken`. Their relation holds for any world that the kernel
    // showed. The number of bytes given is known even if the bytes of the feed are not.
    ensures ran { (given : List ℕ) × (taken : List ℕ)
        × Consumes (F.remaining feed.old) (F.remaining feed.new) given
        × Appends (D.contents drain.old) (D.contents drain.new) taken
        × Replays (F.has_ended feed.new) only kernel.old kernel.new given taken result
        × OnOk result (HasOwnLines only kernel.old given taken)
        × (F.room_left feed.new + length given ≡ F.room_left feed.old)
        × Noted N.noting (F.has_ended feed.new) only kernel.old given result notes.old notes.new }
    // From an opening world, each reply to a line that was run keeps the promises, even if it is not shown.
    ensures promises { (given : List ℕ) × (taken : List ℕ)
        × Consumes (F.remaining feed.old) (F.remaining feed.new) given
        × Appends (D.contents drain.old) (D.contents drain.new) taken
        × TakesAllowed (F.has_ended feed.new) only kernel.old given taken result }
    ensures ended { IsDone result (F.has_ended feed.new) }
    // If the feed has ended, it has given all its bytes.
    ensures whole { F.has_ended feed.new ≡ true → IsAtEnd (F.remaining feed.new) }
    ensures failed { NamesFailed result (F.has_failed feed.new) (D.has_failed drain.new) }
{
    laws::own_lines();
    laws::own_shown();
    // For the proof: there are few enough tenants that the texts of their numbers differ, and few enough bytes that the lines can
    // be counted.
    let _tenants = kernel.tenants();
    let _room = feed.room();
    let mut run = Run::new(only, mem::take(notes));
    match do_lines(kernel, &mut run, feed, drain) {
        Ok(()) => Ok(run.end(notes)),
        Err(EndFailed::Feed) => Err(ReplayError::Feed(run.end(notes))),
        Err(EndFailed::Drain) => Err(ReplayError::Drain(run.end(notes))),
    }
}
