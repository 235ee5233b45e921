//! The line that is being checked, and its reply.

ghost use Rattle.std.specs.Prelude.{◌≡◌, ℕ, List, [], None};
ghost use Rattle.trace_check.specs.Gathered.{Gathers};

use crate::gathered::Gathered;
use crate::lines::reading;
use crate::reason::{Reason, reason_for};
use promise_core::promise::Promise;
use reply_judge::KnownMachine;

/// The largest number of bytes that a line of a trace may have: 255, plus a carriage return and a line feed.
pub const MAX_PART_BYTES: usize = 257;

/// The largest number of bytes in a reply: 257 lines of 256 bytes.
pub const MAX_TEXT_BYTES: usize = 65_792;

/// The last line that was read, and the lines that were read as its reply.
#[derive(Debug, Drop)]
pub struct Shown {
    pub line: Gathered<MAX_PART_BYTES>,
    pub reply: Gathered<MAX_TEXT_BYTES>,
    /// Why the reply breaks its promise. `None` until [`Shown::look_for_reason`] finds it.
    pub reason: Option<Reason>,
}

impl Shown {
    ghost use Rattle.promise_core.specs.State.{Known};
    ghost use Rattle.reply_judge.specs.KnownMachine.{ShowsKnown};
    ghost use Rattle.trace_check.specs.Reasons.{IsNoted};

    /// Returns a value with no line and no reply.
    pub fn new() -> Self
        ensures line { Gathers MAX_PART_BYTES [] result.line }
        ensures reply { Gathers MAX_TEXT_BYTES [] result.reply }
        ensures reason { result.reason ≡ None }
    {
        Shown {
            line: Gathered::new(),
            reply: Gathered::new(),
            reason: None,
        }
    }

    /// Looks for the reason why the reply breaks this promise, and stores it in `reason`. `machine` must be the one that judged
    /// the line. Does nothing if the line has no event.
    pub fn look_for_reason(&mut self, machine: &KnownMachine, promise: Promise)
        ensures line { self.new.line ≡ self.old.line }
        ensures reply { self.new.reply ≡ self.old.reply }
        ensures reason { (trace_text reply_text : List ℕ) (w : Known) → Gathers MAX_PART_BYTES trace_text self.old.line
            → Gathers MAX_TEXT_BYTES reply_text self.old.reply → ShowsKnown machine.now w
            → IsNoted promise trace_text reply_text w self.old.reason self.new.reason }
    {
        let Ok(Some(event)) = reading(&self.line) else {
            return;
        };
        self.reason = reason_for(machine, promise, &event, &self.reply);
    }
}
