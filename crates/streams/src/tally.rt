//! The counts of a replay, and the error of a replay that failed.

use thiserror::Error;

/// The counts of a replay.
#[derive(Clone, Copy, Debug, Default, PartialEq, Eq)]
pub struct Tally {
    /// The number of lines run, including blank lines and comments.
    pub lines: u64,
    /// The number of these lines that are events.
    pub events: u64,
    /// The number of these lines that are faulty.
    pub faults: u64,
    /// The number of bytes that the drain took.
    pub written: u128,
}

/// The failure of the feed or of the drain, with the counts up to the failure.
#[derive(Clone, Copy, Debug, PartialEq, Eq, Drop, Error)]
pub enum ReplayError {
    /// The feed failed. All lines that ended in LF were run, and all their replies were pushed. An unfinished line was not run.
    #[error("the trace could not be read")]
    Feed(Tally),
    /// The drain failed. A prefix of the replies was pushed. The reply that was cut is the reply to the last line that was run.
    #[error("the replies could not be written")]
    Drain(Tally),
}
