//! The result of checking the replies to a trace.

ghost use Rattle.std.specs.Prelude.{◌≡◌};

use promise_core::promise::Promise;
use std::alloc::AllocError;

/// The result of checking the replies to a trace.
#[derive(Clone, Copy, Debug, PartialEq, Eq)]
pub enum Finding {
    /// Every reply is allowed, and none is missing or left over. The value is the number of lines of the trace.
    Kept(u128),
    /// One reply is not allowed, is missing or is left over.
    Broken(Breach),
}

/// The first reply that is not allowed, is missing or is left over.
#[derive(Clone, Copy, Debug, PartialEq, Eq)]
pub struct Breach {
    /// The number of the trace line that the reply answers, counted from 1. If the reply is left over, this is the number of the
    /// last line of the trace, or 0 if the trace has no lines.
    pub line: u128,
    /// The number of the reply's first line among all lines of the replies, counted from 1.
    pub reply: u128,
    /// The first promise that the reply breaks.
    pub promise: Promise,
}

/// Why no finding was made.
#[derive(Clone, Copy, Debug, PartialEq, Eq)]
pub enum Unchecked {
    /// The trace could not be read to its end.
    Trace,
    /// The replies could not be read to their end.
    Replies,
    /// There was not enough memory.
    Memory,
}

impl From<AllocError> for Unchecked {
    ghost use Rattle.trace_check.specs.declared.finding.Unchecked.TheVariants.{Memory};

    ghost from_gives = { λ _ unchecked. unchecked ≡ Memory };

    fn from(_error: AllocError) -> Unchecked {
        Unchecked::Memory
    }
}
