//! Reads the lines of a trace.

ghost use Rattle.std.specs.Prelude.{◌≡◌, ℕ, ◌<◌, ◌≤◌, List, Some, IfOk, IfSome, false, is_err, is_ok};
ghost use Rattle.words_core.specs.Grammar.{reading_of};
ghost use Rattle.trace_check.specs.Checking.{IsEndedBy};
ghost use Rattle.trace_check.specs.Gathered.{Gathers};
ghost use Rattle.trace_check.specs.Reading.{HasGiven, IsNextReading, without_line_feed};

use crate::finding::Unchecked;
use crate::gathered::Gathered;
use crate::reader::LineReader;
use crate::shown::MAX_PART_BYTES;
use streams::Feed;
use words_core::{Event, LineFault, read_line};

/// Reads the next line of a trace into `line`. Returns `None` at the end of the trace. Otherwise returns the line's event or the
/// line's fault; a blank line or a comment has neither. Fails with `Unchecked::Trace` if the trace cannot be read.
pub fn next_reading<F: Feed>(
    trace: &mut LineReader<F>,
    line: &mut Gathered<MAX_PART_BYTES>,
) -> Result<Option<Result<Option<Event>, LineFault>>, Unchecked>
    requires fine { trace.old.failed ≡ false }
    ensures reading { (part : List ℕ) × HasGiven trace.old trace.new part
        × IfOk result (λ reading. IsNextReading reading part trace.new) × Gathers MAX_PART_BYTES part line.new }
    ensures less { IfOk result (λ reading. IfSome reading (λ _. trace.new.room < trace.old.room)) }
    ensures end { IsEndedBy result trace.new.failed false ⊥ }
{
    line.clear();
    if let Some(event) = trace.next_event(line) {
        return Ok(Some(Ok(Some(event))));
    }
    if trace.next(line).is_err() {
        return Err(Unchecked::Trace);
    }
    if line.is_empty() {
        return Ok(None);
    }
    Ok(Some(reading(line)))
}

/// Returns the event of a line, or `None` if the line is blank or a comment. Fails with the line's fault if it has one. An LF at
/// the end of the line is ignored.
pub(crate) fn reading(line: &Gathered<MAX_PART_BYTES>) -> Result<Option<Event>, LineFault>
    ensures { (part : List ℕ) → Gathers MAX_PART_BYTES part line.now → result ≡ reading_of (without_line_feed part) }
{
    match line.whole() {
        None => Err(LineFault::Long),
        Some(part) => read_line(without_line_feed(part)),
    }
}

fn without_line_feed(line: &[u8]) -> &[u8]
    ensures { result.now ≡ without_line_feed line.now }
{
    match line {
        [rest @ .., b'\n'] => rest,
        _ => line,
    }
}
