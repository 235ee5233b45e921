//! Judges the reply to one line.

ghost use Rattle.std.specs.Prelude.{◌≡◌, ℕ, ◌+◌, ◌<◌, ◌≤◌, ◌^◌, List, [], ◌++◌, Option, Some, None, Ok, IfOk, OnOk, false};
ghost use Rattle.words_core.specs.declared.reply.Reply.{Reply};
ghost use Rattle.promise_core.specs.State.{Known};
ghost use Rattle.reply_judge.specs.Adding.{IsAllowedAddition};
ghost use Rattle.reply_judge.specs.KnownMachine.{SeenMachine, ShowsKnown};
ghost use Rattle.trace_check.specs.Checking.{AddsAt, HasGathered, IsEndedBy, IsLineVerdict, IsTextVerdict};
ghost use Rattle.trace_check.specs.Finding.{broken_by, lines_to, more_lines, refusal_read, reply_in, text_read};
ghost use Rattle.trace_check.specs.Gathered.{Gathers, HasAdded};
ghost use Rattle.trace_check.specs.Reading.{HasGiven, Source};
ghost use Rattle.trace_check.specs.Tables.{table_of};

use crate::answer::read_answer;
use crate::finding::Unchecked;
use crate::gathered::Gathered;
use crate::gathering::{gather, is_text};
use crate::reader::LineReader;
use crate::shown::MAX_TEXT_BYTES;
use crate::table::read_table;
use model_core::limits::MAX_BYTES;
use promise_core::promise::Promise;
use reply_judge::{KnownMachine, Verdict};
use streams::Feed;
use words_core::{
    Addressee, AdminCommand, Answer, Command, Event, LineFault, Refusal, SHORT_ANSWER_BYTES,
    write_answer_to,
};

/// The number of lines of the reply if it is allowed, or else the first promise that it breaks.
pub(crate) type LineVerdict = Result<u128, Promise>;

/// Reads the reply to a line into `text`, and judges it. A blank line or a comment has no reply.
pub(crate) fn judge_line<R: Feed>(
    machine: &mut KnownMachine,
    reading: &Result<Option<Event>, LineFault>,
    replies: &mut LineReader<R>,
    text: &mut Gathered<MAX_TEXT_BYTES>,
) -> Result<LineVerdict, Unchecked>
    requires fine { replies.old.failed ≡ false }
    ensures judged { (part : List ℕ) × HasGiven replies.old replies.new part × ((w : Known) → ShowsKnown machine.old w
        → IfOk result (λ verdict. IsLineVerdict verdict reading.now part w machine.new replies.new))
        × Gathers MAX_TEXT_BYTES part text.new }
    ensures room { IfOk result (λ verdict. IfOk verdict (λ lines. replies.new.room + lines ≤ replies.old.room)) }
    ensures end { IsEndedBy result false replies.new.failed ((part : List ℕ) × HasGiven replies.old replies.new part
        × ((w : Known) (more : List ℕ) → ShowsKnown machine.old w → AddsAt reading.now (part ++ more) w)) }
{
    text.clear();
    match reading {
        Err(fault) => judge_fault(*fault, replies, text),
        Ok(read) => match read {
            None => Ok(Ok(0)),
            Some(event) => judge_event(machine, event, replies, text),
        },
    }
}

/// Reads the reply to a faulty line, and judges it.
#[inline(never)]
fn judge_fault<R: Feed>(
    fault: LineFault,
    replies: &mut LineReader<R>,
    text: &mut Gathered<MAX_TEXT_BYTES>,
) -> Result<LineVerdict, Unchecked>
    requires fine { replies.old.failed ≡ false }
    ensures judged { (part : List ℕ) × HasGiven replies.old replies.new part
        × ((w : Known) (kept : SeenMachine) → ShowsKnown kept w → Gathers MAX_TEXT_BYTES [] text.old
        → IfOk result (λ verdict. IsLineVerdict verdict (Err fault) part w kept replies.new))
        × HasAdded MAX_TEXT_BYTES part text.old text.new }
    ensures room { IfOk result (λ verdict. IfOk verdict (λ lines. replies.new.room + lines ≤ replies.old.room)) }
    ensures end { IsEndedBy result false replies.new.failed ⊥ }
{
    if !gather(replies, 1, text)? {
        return Ok(Err(Promise::Form));
    }
    let mut due = [0; SHORT_ANSWER_BYTES];
    let len = write_answer_to(Addressee::Nobody, Answer::Fault(fault), &mut due);
    if is_text(text, &due[..len]) {
        Ok(Ok(1))
    } else {
        Ok(Err(Promise::Form))
    }
}

/// Reads the reply to an event, and judges it.
fn judge_event<R: Feed>(
    machine: &mut KnownMachine,
    event: &Event,
    replies: &mut LineReader<R>,
    text: &mut Gathered<MAX_TEXT_BYTES>,
) -> Result<LineVerdict, Unchecked>
    requires fine { replies.old.failed ≡ false }
    ensures judged { (part : List ℕ) × HasGiven replies.old replies.new part
        × ((w : Known) → ShowsKnown machine.old w → Gathers MAX_TEXT_BYTES [] text.old
        → IfOk result (λ verdict. IsLineVerdict verdict (Ok (Some event.now)) part w machine.new replies.new))
        × HasAdded MAX_TEXT_BYTES part text.old text.new }
    ensures room { IfOk result (λ verdict. IfOk verdict (λ lines. replies.new.room + lines ≤ replies.old.room)) }
    ensures end { IsEndedBy result false replies.new.failed ((part : List ℕ) × HasGiven replies.old replies.new part
        × ((w : Known) (more : List ℕ) → ShowsKnown machine.old w → Gathers MAX_TEXT_BYTES [] text.old
        → AddsAt (Ok (Some event.now)) (part ++ more) w)) }
{
    if !gather(replies, 1, text)? {
        return Ok(Err(Promise::Form));
    }
    let more = more_lines(machine, event);
    if more == 0 {
        judge_gathered(machine, event, 1, None, text)
    } else {
        judge_lines(machine, event, more, replies, text)
    }
}

/// Reads the `more` lines that follow the first line of the reply to an event, and judges the reply.
#[inline(never)]
fn judge_lines<R: Feed>(
    machine: &mut KnownMachine,
    event: &Event,
    more: u128,
    replies: &mut LineReader<R>,
    text: &mut Gathered<MAX_TEXT_BYTES>,
) -> Result<LineVerdict, Unchecked>
    requires fine { replies.old.failed ≡ false }
    requires some { more + 1 < 2 ^ 128 }
    ensures judged { (part : List ℕ) × HasGiven replies.old replies.new part
        × ((w : Known) (came : List ℕ) → ShowsKnown machine.old w → more_lines event.now w ≡ more → HasGathered 1 came text.old
        → IfOk result (λ verdict. IsLineVerdict verdict (Ok (Some event.now)) (came ++ part) w machine.new replies.new))
        × HasAdded MAX_TEXT_BYTES part text.old text.new }
    ensures room { IfOk result (λ verdict. IfOk verdict (λ lines. replies.new.room + lines ≤ replies.old.room + 1)) }
    ensures end { IsEndedBy result false replies.new.failed ((part : List ℕ) × HasGiven replies.old replies.new part
        × ((w : Known) (came later : List ℕ) → ShowsKnown machine.old w → more_lines event.now w ≡ more
        → HasGathered 1 came text.old → AddsAt (Ok (Some event.now)) ((came ++ part) ++ later) w)) }
{
    let refused = refusal_in(text);
    if !gather(replies, more, text)? {
        return Ok(Err(broken_by(machine, event, refused)?));
    }
    judge_gathered(machine, event, more + 1, refused, text)
}

/// Judges the lines that were gathered as the reply to an event. If they do not form a reply, `refused` must be the refusal in
/// the first line, or `None` if that line is not a refusal. If they form a reply, `refused` is not used.
#[inline(always)]
fn judge_gathered(
    machine: &mut KnownMachine,
    event: &Event,
    lines: u128,
    refused: Option<(Addressee, Refusal)>,
    text: &Gathered<MAX_TEXT_BYTES>,
) -> Result<LineVerdict, Unchecked>
    ensures judged { (w : Known) (came : List ℕ) (replies : Source) → ShowsKnown machine.old w
        → lines ≡ lines_to (Ok (Some event.now)) w → HasGathered lines came text.now
        → ((more : List ℕ) → reply_in lines (came ++ more) ≡ None → refused ≡ refusal_read (reply_in 1 (came ++ more)))
        → IfOk result (λ verdict. IsLineVerdict verdict (Ok (Some event.now)) came w machine.new replies) }
    ensures lines { IfOk result (λ verdict. IfOk verdict (λ count. count ≡ lines)) }
    ensures end { IsEndedBy result false false ((w : Known) (came more : List ℕ) → ShowsKnown machine.old w
        → lines ≡ lines_to (Ok (Some event.now)) w → HasGathered lines came text.now
        → AddsAt (Ok (Some event.now)) (came ++ more) w) }
{
    match judge_text(machine, event, text)? {
        Some(Ok(())) => Ok(Ok(lines)),
        Some(Err(promise)) => Ok(Err(promise)),
        None => Ok(Err(broken_by(machine, event, refused)?)),
    }
}

/// Judges the gathered text as the reply to an event. Returns `None` if the text is not a reply.
#[inline(always)]
fn judge_text(
    machine: &mut KnownMachine,
    event: &Event,
    text: &Gathered<MAX_TEXT_BYTES>,
) -> Result<Option<Verdict>, Unchecked>
    ensures judged { (w : Known) (came : List ℕ) → ShowsKnown machine.old w → Gathers MAX_TEXT_BYTES came text.now
        → IfOk result (λ verdict. IsTextVerdict verdict event.now (text_read came) w machine.new) }
    ensures end { IsEndedBy result false false ((came : List ℕ) → Gathers MAX_TEXT_BYTES came text.now
        → (reply : Reply) × (text_read came ≡ Some reply) × IsAllowedAddition event.now reply machine.old) }
{
    let Some(bytes) = text.whole() else {
        return Ok(None);
    };
    let mut buffer = [0; MAX_BYTES];
    match read_answer(bytes, &mut buffer) {
        Some((addressee, answer)) => Ok(Some(machine.judge(event, addressee, &answer)?)),
        None => Ok(judge_table(machine, event, bytes)),
    }
}

/// Judges a table as the reply to an event. Returns `None` if the text is not a table. A table needs a large buffer, which is
/// cleared when this function is entered, so the function is not inlined.
#[cold]
#[inline(never)]
fn judge_table(machine: &mut KnownMachine, event: &Event, text: &[u8]) -> Option<Verdict>
    ensures { (w : Known) → ShowsKnown machine.old w → IsTextVerdict result event.now (table_of text.now) w machine.new }
{
    let table = read_table(text)?;
    Some(machine.judge_table(event, &table))
}

/// Returns the refusal and its addressee if the gathered text is a refusal, and `None` otherwise.
fn refusal_in(text: &Gathered<MAX_TEXT_BYTES>) -> Option<(Addressee, Refusal)>
    ensures { (came : List ℕ) → Gathers MAX_TEXT_BYTES came text.now → result ≡ refusal_read (text_read came) }
{
    let bytes = text.whole()?;
    let mut buffer = [0; MAX_BYTES];
    let (addressee, answer) = read_answer(bytes, &mut buffer)?;
    match answer {
        Answer::Refused(refusal) => Some((addressee, refusal)),
        _ => None,
    }
}

/// Returns the promise that is broken if the lines do not form a reply. `refused` is the refusal in the first line, if there is
/// one.
fn broken_by(
    machine: &mut KnownMachine,
    event: &Event,
    refused: Option<(Addressee, Refusal)>,
) -> Result<Promise, Unchecked>
    ensures broken { (w : Known) → ShowsKnown machine.old w → IfOk result (λ promise. promise ≡ broken_by event.now refused w) }
    // What is known stays the same, since even an allowed refusal changes nothing.
    ensures still { (w : Known) → ShowsKnown machine.old w → OnOk result (ShowsKnown machine.new w) }
    ensures end { IsEndedBy result false false ⊥ }
{
    let Some((addressee, refusal)) = refused else {
        return Ok(Promise::Form);
    };
    match machine.judge(event, addressee, &Answer::Refused(refusal))? {
        Ok(()) => Ok(Promise::Form),
        Err(promise) => Ok(promise),
    }
}

/// Returns the number of lines that follow the first line of a reply to this event, if the reply is not a refusal.
fn more_lines(machine: &KnownMachine, event: &Event) -> u128
    ensures lines { (w : Known) → ShowsKnown machine.now w → result ≡ more_lines event.now w }
    ensures most { result + 1 < 2 ^ 128 }
{
    match event {
        Event::Admin(AdminCommand::Pool) => machine.superblocks() as u128,
        Event::Tenant(tenant, Command::Report) => match machine.caches_of(*tenant) {
            None => 0,
            Some(caches) => 1 + u128::from(machine.order()) + caches as u128,
        },
        _ => 0,
    }
}
