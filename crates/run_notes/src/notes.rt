//! The notes of a run.

ghost use Rattle.std.specs.Prelude.{◌≡◌, MatchOption};
ghost use Rattle.words_core.specs.Texts.{number_of_refusal};
ghost use Rattle.run_notes.specs.Notes.{no_notes, times_of, with_refusal};

use crate::faults::{FaultyLine, MAX_FAULTS};
use crate::refusals::Refused;
use arrayvec::ArrayVec;
use replay_core::Notes;
use words_core::{LineFault, REFUSALS, Refusal};

/// The first faulty lines of a trace, and the number of times that each refusal was shown.
#[derive(Debug, Drop)]
pub struct RunNotes {
    first: ArrayVec<FaultyLine, MAX_FAULTS>,
    times: [u64; REFUSALS.len()],
}

impl Default for RunNotes {
    fn default() -> RunNotes {
        RunNotes::new()
    }
}

impl RunNotes {
    /// Returns empty notes.
    pub fn new() -> RunNotes
        ensures { result ≡ no_notes }
    {
        RunNotes {
            first: ArrayVec::new(),
            times: [0; REFUSALS.len()],
        }
    }

    /// Returns the first faulty lines, at most ten, in the order of the trace.
    pub fn first(&self) -> &[FaultyLine]
        ensures { result.now ≡ self.now.first.items }
    {
        self.first.as_slice()
    }

    /// Returns the refusal with this number, counted from 1, and the number of times that it was shown. Returns `None` if it was
    /// never shown, or if no refusal has this number.
    pub fn told(&self, number: u8) -> Option<Refused>
        ensures { MatchOption result (times_of self.now number ≡ 0)
            (λ refused. (number_of_refusal refused.refusal ≡ number) × (refused.times ≡ times_of self.now number)) }
    {
        let place = usize::from(number).checked_sub(1)?;
        let times = *self.times.get(place)?;
        if times == 0 {
            return None;
        }
        Some(Refused {
            refusal: REFUSALS[place],
            times,
        })
    }

    /// Counts a refusal that is shown. A count stops at the largest `u64`.
    fn count(&mut self, refusal: Refusal)
        ensures { self.new ≡ with_refusal self.old refusal }
    {
        let place = usize::from(refusal.number()).saturating_sub(1);
        if place < self.times.len() {
            self.times[place] = self.times[place].saturating_add(1);
        }
    }
}

impl Notes for RunNotes {
    ghost use Rattle.run_notes.specs.Notes.{with_fault, with_refusal};

    ghost noting = { record { refused = with_refusal; faulty = with_fault } };

    #[inline(always)]
    fn refused(&mut self, refusal: Refusal) {
        self.count(refusal);
    }

    #[cold]
    #[inline(never)]
    fn faulty(&mut self, number: u64, fault: LineFault, begin: &[u8]) {
        if !self.first.is_full() {
            self.first.push(FaultyLine::new(number, fault, begin));
        }
    }
}
