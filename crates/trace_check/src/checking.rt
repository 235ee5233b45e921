//! Checks a trace and the replies to it.

ghost use Rattle.std.specs.Prelude.{◌≡◌, ℕ, ◌+◌, ◌^◌, ◌<◌, ◌==◌, List, IfOk, true, false, length};
ghost use Rattle.promise_core.specs.State.{Known};
ghost use Rattle.reply_judge.specs.KnownMachine.{ShowsKnown};
ghost use Rattle.trace_check.specs.Checking.{ComesToAdd, IsEndedBy, IsKeptAtEnd, ShowsFinding};
ghost use Rattle.trace_check.specs.Finding.{finding_of};
ghost use Rattle.trace_check.specs.Gathered.{Gathers};
ghost use Rattle.trace_check.specs.Reading.{HasEnded, HasGiven, WhateverFollows, readings_of};

use crate::finding::{Breach, Finding, Unchecked};
use crate::gathered::Gathered;
use crate::lines::next_reading;
use crate::reader::LineReader;
use crate::shown::{MAX_TEXT_BYTES, Shown};
use crate::verdicts::judge_line;
use promise_core::promise::Promise;
use reply_judge::KnownMachine;
use streams::{Feed, Stopped};

/// Checks the replies to a trace, each against what earlier replies reported, up to the first that is not allowed. Returns `Err`
/// if the trace or the replies cannot be read, or if memory runs out.
///
/// If a reply is not allowed, `shown` holds the line of the trace and what was read as the reply to it. If replies are left over
/// after the reply to the last line, `shown` holds the first line of these replies, and no line of the trace. In both cases the
/// state of `machine` is the one after the earlier replies, and `shown.reason` is unchanged.
pub fn check<T: Feed, R: Feed>(
    machine: &mut KnownMachine,
    trace: &mut LineReader<T>,
    replies: &mut LineReader<R>,
    shown: &mut Shown,
) -> Result<Finding, Unchecked>
    requires trace_fine { trace.old.failed ≡ false }
    requires replies_fine { replies.old.failed ≡ false }
    // `trace_text` and `reply_text` are what was read of the trace and of the replies. All pairs of texts that begin with `trace_text` and `reply_text`
    // have the returned finding. If the finding is a breach, its line and its reply are shown, and the machine shows what is
    // known after the earlier lines and their replies.
    ensures found { (trace_text : List ℕ) × (reply_text : List ℕ) × HasGiven trace.old trace.new trace_text × HasGiven replies.old replies.new reply_text
        × ((w : Known) → ShowsKnown machine.old w → IfOk result (λ finding. WhateverFollows trace.new replies.new trace_text reply_text
        (λ trace replies. finding ≡ finding_of w trace replies)))
        × ((w : Known) → ShowsKnown machine.old w → IfOk result (λ finding. ShowsFinding w finding trace_text reply_text shown.new
        (λ breach line reply now. ShowsKnown machine.new now))) }
    ensures reason { shown.new.reason ≡ shown.old.reason }
    ensures kept { IfOk result (λ finding. IsKeptAtEnd finding trace.new replies.new) }
    // Memory runs out only if an allowed reply adds something and no earlier reply broke a promise.
    ensures end { IsEndedBy result trace.new.failed replies.new.failed ((trace_text : List ℕ) × (reply_text : List ℕ)
        × HasGiven trace.old trace.new trace_text × HasGiven replies.old replies.new reply_text
        × ((w : Known) → ShowsKnown machine.old w → WhateverFollows trace.new replies.new trace_text reply_text
        (λ trace replies. ComesToAdd (readings_of trace) replies w))) }
{
    let _asked_at_most = trace.room();
    let _told_at_most = replies.room();
    let mut line = 0u128;
    let mut reply = 0u128;
    'lines: while let Some(reading) = next_reading(trace, &mut shown.line)? {
        line += 1;
        match judge_line(machine, &reading, replies, &mut shown.reply)? {
            Ok(lines) => reply += lines,
            Err(promise) => return Ok(broken(line, reply, promise)),
        }
    }
    if has_ended(replies, &mut shown.reply)? {
        Ok(Finding::Kept(line))
    } else {
        Ok(broken(line, reply, Promise::Form))
    }
}

/// Returns the finding that the promise is broken at this line, by the reply that begins after this number of reply lines.
fn broken(line: u128, replies: u128, promise: Promise) -> Finding
    requires { replies + 1 < 2 ^ 128 }
    ensures { result ≡ Finding.Broken (record { line = line; reply = replies + 1; promise = promise }) }
{
    Finding::Broken(Breach {
        line,
        reply: replies + 1,
        promise,
    })
}

/// Reads one more line of the replies. Returns true if there is none.
fn has_ended<R: Feed>(
    replies: &mut LineReader<R>,
    text: &mut Gathered<MAX_TEXT_BYTES>,
) -> Result<bool, Unchecked>
    requires fine { replies.old.failed ≡ false }
    ensures none { (part : List ℕ) × HasGiven replies.old replies.new part
        × IfOk result (λ ended. (ended ≡ (length part == 0)) × (ended ≡ true → HasEnded replies.new))
        × Gathers MAX_TEXT_BYTES part text.new }
    ensures end { IsEndedBy result false replies.new.failed ⊥ }
{
    text.clear();
    match replies.next(text) {
        Ok(_) => Ok(text.is_empty()),
        Err(Stopped) => Err(Unchecked::Replies),
    }
}
