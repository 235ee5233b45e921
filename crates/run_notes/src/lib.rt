//! The notes of `partmem --tally`, to find out what went wrong in a trace: its first faulty lines, and the number of times that
//! each refusal was shown. No call allocates.
#![tactic(auto)]

mod faults;
mod notes;
mod refusals;

pub use faults::FaultyLine;
pub use notes::RunNotes;
pub use refusals::{MAX_NUMBER, Refused};
