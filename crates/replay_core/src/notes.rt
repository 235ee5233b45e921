//! Notes that a replay takes in addition to its replies.

ghost use Rattle.std.specs.Prelude.{◌≡◌, take};
ghost use Rattle.words_core.specs.Requests.{body_of_answer};
ghost use Rattle.replay_core.specs.Noting.{Noting, noted_body};

use words_core::{Answer, LineFault, Refusal};

/// Notes of a replay: the refusals that are shown, and the faulty lines. They have no effect on the replies.
pub trait Notes: Default + Drop {
    // How a refusal and a faulty line change the notes.
    ghost noting: { Noting Self };

    /// Notes a refusal that is shown, before its reply is pushed.
    fn refused(&mut self, refusal: Refusal)
        ensures { self.new ≡ noting.refused self.old refusal };

    /// Notes a faulty line: its number, counted from 1, its fault, and the line or at least its first 256 bytes.
    ///
    /// If a line could not be read to its end, and the bytes that were read are a faulty line, they are noted too.
    fn faulty(&mut self, number: u64, fault: LineFault, begin: &[u8])
        ensures { self.new ≡ noting.faulty self.old number fault (take 256 begin.now) };
}

/// Notes a shown answer if it is a refusal.
#[inline(always)]
pub(crate) fn note_answer<N: Notes>(answer: Answer<'_>, notes: &mut N)
    ensures { notes.new ≡ noted_body N.noting (body_of_answer answer.entry) notes.old }
{
    if let Answer::Refused(refusal) = answer {
        notes.refused(refusal);
    }
}

/// Notes that record nothing.
#[derive(Debug, Default, Drop)]
pub struct NoNotes;

impl Notes for NoNotes {
    ghost noting = { record { refused = λ notes refusal. notes; faulty = λ notes number fault front. notes } };

    #[inline(always)]
    fn refused(&mut self, _refusal: Refusal) {}

    #[inline(always)]
    fn faulty(&mut self, _number: u64, _fault: LineFault, _begin: &[u8]) {}
}
