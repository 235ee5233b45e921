//! The outcome and the counts of a run.

ghost use Rattle.std.specs.Prelude.{◌≡◌};
ghost use Rattle.partmem.specs.Outcome.{ended_at_once, outcome_of_kept, tally_of, without_unwritten};

use command_line::Outcome;
use own_trace::KeepError;
use replay_core::{ReplayError, Tally};

/// A run that has ended.
#[derive(Debug, Drop)]
pub struct Ended {
    /// How the run ended.
    pub outcome: Outcome,
    /// What the run counted until it ended.
    pub tally: Tally,
}

impl Ended {
    /// Returns a run that ended with this outcome before its first line. All its counts are 0.
    pub fn at_once(outcome: Outcome) -> Ended
        ensures { result ≡ ended_at_once outcome }
    {
        Ended {
            outcome,
            tally: Tally::default(),
        }
    }
}

/// Returns the outcome that a run has before its last flush, if [`own_trace::keep`] returned this result.
pub fn outcome_of_kept(kept: &Result<(), KeepError>) -> Outcome
    ensures { result ≡ outcome_of_kept kept.now }
{
    match kept {
        Ok(()) => Outcome::Done,
        Err(KeepError::Feed) => Outcome::Unreadable,
        Err(KeepError::Drain) => Outcome::Unwritable,
    }
}

/// Returns the tally in the result of a replay, with `unwritten` subtracted from the number of bytes written.
pub fn tally_of(replayed: &Result<Tally, ReplayError>, unwritten: usize) -> Tally
    ensures { result ≡ without_unwritten (tally_of replayed.now) unwritten }
{
    let tally = match replayed {
        Ok(tally) | Err(ReplayError::Feed(tally) | ReplayError::Drain(tally)) => tally,
    };
    Tally {
        written: tally.written.saturating_sub(unwritten as u128),
        ..*tally
    }
}
