//! Checks the replies to a trace. `specs/` defines the finding for the texts of a trace and of its replies. `check` reads one
//! line of the trace at a time, and then its reply, and returns the finding.
//!
//! Reading is the inverse of writing: the text that is written for a reply is read as the same reply. Any other text is not read
//! as a reply.
#![tactic(auto)]

mod answer;
mod answers;
mod checking;
mod events;
mod figure;
mod figures;
mod finding;
mod form;
mod frames;
mod gathered;
mod gathering;
mod hexed;
mod kinds;
pub mod laws;
mod lines;
mod new_cache;
mod owners;
mod reader;
mod reason;
mod rows;
mod shown;
mod table;
mod taken;
mod verdicts;

pub use answer::read_answer;
pub use checking::check;
pub use figure::Figure;
pub use finding::{Breach, Finding, Unchecked};
pub use gathered::Gathered;
pub use kinds::AnswerKind;
pub use reader::LineReader;
pub use reason::Reason;
pub use shown::{MAX_PART_BYTES, MAX_TEXT_BYTES, Shown};
pub use table::read_table;
pub use taken::{TakenFrame, taken_frame};
