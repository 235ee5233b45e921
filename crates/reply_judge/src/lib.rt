//! Judges the replies of any page and object allocator of a partitioning kernel, one event after the other.
//!
//! The state and the verdicts are those that the definitions of [`promise_core`] give. A reply that keeps every promise is
//! followed: it updates the state.
#![tactic(auto)]

mod addressing;
mod administrator;
mod bound;
mod bytes;
mod caches;
mod counts;
mod emptied;
mod faults;
mod figures;
mod idle;
mod judging;
mod known_machine;
mod marks;
mod objects;
mod owners;
mod pages;
mod refusing;
mod repeated;
mod report;
mod rows;
mod taken;
mod tenant;
mod vacancy;
mod verdict;
mod wrong_bytes;
mod wrong_reports;

pub use bound::Bound;
pub use faults::{BlockFault, ObjectFault};
pub use figures::{ReportFigure, WrongFigure};
pub use known_machine::KnownMachine;
pub use vacancy::Vacancy;
pub use verdict::Verdict;
pub use wrong_bytes::WrongByte;
