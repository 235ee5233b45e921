//! Reads the part of a one-line reply that follows its addressee.

ghost use Rattle.std.specs.Prelude.{◌≡◌, ◌≤◌, ◌==◌, length, not, take_while};
ghost use Rattle.words_core.specs.Requests.{body_of_answer};
ghost use Rattle.trace_check.specs.Forms.{Gives};
ghost use Rattle.trace_check.specs.Replies.{frame_at, freed_at, written_at, cache_at, destroyed_at, object_at, given_at, reaped_at, refused_at, refusal_of, bytes_at, granted_at, taken_at, reset_at, moved_at, fault_at, some_fault_at, notice_at, rare_at, any_answer_at};

use crate::form::{behind_word, form_at, number_between};
use crate::hexed::bytes_of;
use model_core::limits::MAX_BYTES;
use words_core::{Answer, LineFault, REFUSALS, Refusal};

/// Returns the answer at the front of the text, and the text that follows it. The bytes in an answer to a `read` are stored in
/// `buffer`.
#[tactic(auto, unfolding(crate::specs::Replies::any_answer_at))]
pub fn any_answer_at<'a>(
    text: &'a [u8],
    buffer: &'a mut [u8; MAX_BYTES],
) -> Option<(Answer<'a>, &'a [u8])>
    ensures { Gives (λ found. (body_of_answer found.0, found.1.now)) result (any_answer_at text.now) }
{
    if let Some(found) = bytes_at(text, buffer) {
        return Some(found);
    }
    written_at(text)
        .or_else(|| frame_at(text))
        .or_else(|| freed_at(text))
        .or_else(|| object_at(text))
        .or_else(|| given_at(text))
        .or_else(|| rare_at(text))
}

/// Returns the answer at the front of the text, and the text that follows it, if the answer is of a rare kind.
#[tactic(auto, unfolding(crate::specs::Replies::rare_at))]
#[inline(never)]
fn rare_at(text: &[u8]) -> Option<(Answer<'_>, &[u8])>
    ensures { Gives (λ found. (body_of_answer found.0, found.1.now)) result (rare_at text.now) }
{
    refused_at(text)
        .or_else(|| cache_at(text))
        .or_else(|| destroyed_at(text))
        .or_else(|| reaped_at(text))
        .or_else(|| notice_at(text))
}

/// Returns the answer at the front of the text, and the text that follows it, if it answers the administrator or a faulty line.
#[tactic(auto, unfolding(crate::specs::Replies::notice_at))]
fn notice_at(text: &[u8]) -> Option<(Answer<'_>, &[u8])>
    ensures { Gives (λ found. (body_of_answer found.0, found.1.now)) result (notice_at text.now) }
{
    granted_at(text)
        .or_else(|| taken_at(text))
        .or_else(|| reset_at(text))
        .or_else(|| moved_at(text))
        .or_else(|| some_fault_at(text))
}

#[tactic(auto, unfolding(crate::specs::Replies::frame_at))]
fn frame_at(text: &[u8]) -> Option<(Answer<'_>, &[u8])>
    ensures { Gives (λ found. (body_of_answer found.0, found.1.now)) result (frame_at text.now) }
{
    let (frame, rest) = number_between(b"frame ", b"\n", text)?;
    Some((Answer::Frame(frame), rest))
}

#[tactic(auto, unfolding(crate::specs::Replies::freed_at))]
fn freed_at(text: &[u8]) -> Option<(Answer<'_>, &[u8])>
    ensures { Gives (λ found. (body_of_answer found.0, found.1.now)) result (freed_at text.now) }
{
    let (order, rest) = number_between(b"freed ", b"\n", text)?;
    Some((Answer::Freed(u8::try_from(order).ok()?), rest))
}

#[tactic(auto, unfolding(crate::specs::Replies::written_at))]
fn written_at(text: &[u8]) -> Option<(Answer<'_>, &[u8])>
    ensures { Gives (λ found. (body_of_answer found.0, found.1.now)) result (written_at text.now) }
{
    let (count, rest) = number_between(b"written ", b"\n", text)?;
    Some((Answer::Written(count), rest))
}

#[tactic(auto, unfolding(crate::specs::Replies::cache_at))]
fn cache_at(text: &[u8]) -> Option<(Answer<'_>, &[u8])>
    ensures { Gives (λ found. (body_of_answer found.0, found.1.now)) result (cache_at text.now) }
{
    let ([cache, chunk, order, objects, colours], rest) = form_at::<5>(
        b"cache # chunk # order # objects # colours #\n",
        text,
    )?;
    let answer = Answer::Cache {
        cache: u8::try_from(cache).ok()?,
        chunk,
        order: u8::try_from(order).ok()?,
        objects,
        colours,
    };
    Some((answer, rest))
}

#[tactic(auto, unfolding(crate::specs::Replies::destroyed_at))]
fn destroyed_at(text: &[u8]) -> Option<(Answer<'_>, &[u8])>
    ensures { Gives (λ found. (body_of_answer found.0, found.1.now)) result (destroyed_at text.now) }
{
    let (frames, rest) = number_between(b"destroyed ", b"\n", text)?;
    Some((Answer::Destroyed(frames), rest))
}

#[tactic(auto, unfolding(crate::specs::Replies::object_at))]
fn object_at(text: &[u8]) -> Option<(Answer<'_>, &[u8])>
    ensures { Gives (λ found. (body_of_answer found.0, found.1.now)) result (object_at text.now) }
{
    let (place, rest) = number_between(b"object ", b"\n", text)?;
    Some((Answer::Object(place), rest))
}

#[tactic(auto, unfolding(crate::specs::Replies::given_at))]
fn given_at(text: &[u8]) -> Option<(Answer<'_>, &[u8])>
    ensures { Gives (λ found. (body_of_answer found.0, found.1.now)) result (given_at text.now) }
{
    let rest = behind_word(b"given\n", text)?;
    Some((Answer::Given, rest))
}

#[tactic(auto, unfolding(crate::specs::Replies::reaped_at))]
fn reaped_at(text: &[u8]) -> Option<(Answer<'_>, &[u8])>
    ensures { Gives (λ found. (body_of_answer found.0, found.1.now)) result (reaped_at text.now) }
{
    let (frames, rest) = number_between(b"reaped ", b"\n", text)?;
    Some((Answer::Reaped(frames), rest))
}

/// Returns the refusal with this number, if there is one.
fn refusal_of(number: u32) -> Option<Refusal>
    ensures { result ≡ refusal_of number }
{
    REFUSALS
        .iter()
        .copied()
        .find(|refusal| u32::from(refusal.number()) == number)
}

#[tactic(auto, unfolding(crate::specs::Replies::refused_at))]
fn refused_at(text: &[u8]) -> Option<(Answer<'_>, &[u8])>
    ensures { Gives (λ found. (body_of_answer found.0, found.1.now)) result (refused_at text.now) }
{
    let (number, rest) = number_between(b"refused ", b" ", text)?;
    let refusal = refusal_of(number)?;
    let rest = behind_word(refusal.name().as_bytes(), rest)?;
    let rest = behind_word(b"\n", rest)?;
    Some((Answer::Refused(refusal), rest))
}

/// Returns the length in bytes of the first line, without its line feed.
fn line_len(text: &[u8]) -> usize
    ensures value { result ≡ length (take_while (λ b. not (b == 10)) text.now) }
    ensures fits { result ≤ length text.now }
{
    text.iter().take_while(|byte| **byte != b'\n').count()
}

#[tactic(auto, unfolding(crate::specs::Replies::bytes_at))]
fn bytes_at<'a>(text: &'a [u8], buffer: &'a mut [u8; MAX_BYTES]) -> Option<(Answer<'a>, &'a [u8])>
    ensures { Gives (λ found. (body_of_answer found.0, found.1.now)) result (bytes_at text.now) }
{
    let rest = behind_word(b"bytes ", text)?;
    let (word, rest) = rest.split_at(line_len(rest));
    let bytes = bytes_of(word, buffer)?;
    let rest = behind_word(b"\n", rest)?;
    Some((Answer::Bytes(bytes), rest))
}

#[tactic(auto, unfolding(crate::specs::Replies::granted_at))]
fn granted_at(text: &[u8]) -> Option<(Answer<'_>, &[u8])>
    ensures { Gives (λ found. (body_of_answer found.0, found.1.now)) result (granted_at text.now) }
{
    let ([tenant, slot, superblock], rest) = form_at::<3>(
        b"granted # slot # superblock #\n",
        text,
    )?;
    let answer = Answer::Granted {
        tenant: u8::try_from(tenant).ok()?,
        slot: u16::try_from(slot).ok()?,
        superblock: u16::try_from(superblock).ok()?,
    };
    Some((answer, rest))
}

#[tactic(auto, unfolding(crate::specs::Replies::taken_at))]
fn taken_at(text: &[u8]) -> Option<(Answer<'_>, &[u8])>
    ensures { Gives (λ found. (body_of_answer found.0, found.1.now)) result (taken_at text.now) }
{
    let (superblock, rest) = number_between(b"taken superblock ", b"\n", text)?;
    Some((Answer::TakenBack(u16::try_from(superblock).ok()?), rest))
}

#[tactic(auto, unfolding(crate::specs::Replies::reset_at))]
fn reset_at(text: &[u8]) -> Option<(Answer<'_>, &[u8])>
    ensures { Gives (λ found. (body_of_answer found.0, found.1.now)) result (reset_at text.now) }
{
    let ([tenant, superblocks], rest) = form_at::<2>(b"reset # superblocks #\n", text)?;
    let answer = Answer::WasReset {
        tenant: u8::try_from(tenant).ok()?,
        superblocks: u16::try_from(superblocks).ok()?,
    };
    Some((answer, rest))
}

#[tactic(auto, unfolding(crate::specs::Replies::moved_at))]
fn moved_at(text: &[u8]) -> Option<(Answer<'_>, &[u8])>
    ensures { Gives (λ found. (body_of_answer found.0, found.1.now)) result (moved_at text.now) }
{
    let ([tenant, slot, superblock], rest) = form_at::<3>(b"moved # slot # superblock #\n", text)?;
    let answer = Answer::Moved {
        tenant: u8::try_from(tenant).ok()?,
        slot: u16::try_from(slot).ok()?,
        superblock: u16::try_from(superblock).ok()?,
    };
    Some((answer, rest))
}

/// Returns an answer with this fault, and the text that follows it, if the text begins with this answer.
#[tactic(auto, unfolding(crate::specs::Replies::fault_at))]
fn fault_at(fault: LineFault, text: &[u8]) -> Option<(Answer<'_>, &[u8])>
    ensures { Gives (λ found. (body_of_answer found.0, found.1.now)) result (fault_at fault text.now) }
{
    let rest = behind_word(b"fault ", text)?;
    let rest = behind_word(fault.name().as_bytes(), rest)?;
    let rest = behind_word(b"\n", rest)?;
    Some((Answer::Fault(fault), rest))
}

#[tactic(auto, unfolding(crate::specs::Replies::some_fault_at))]
fn some_fault_at(text: &[u8]) -> Option<(Answer<'_>, &[u8])>
    ensures { Gives (λ found. (body_of_answer found.0, found.1.now)) result (some_fault_at text.now) }
{
    fault_at(LineFault::Long, text)
        .or_else(|| fault_at(LineFault::Unknown, text))
        .or_else(|| fault_at(LineFault::Words, text))
        .or_else(|| fault_at(LineFault::Number, text))
        .or_else(|| fault_at(LineFault::Hex, text))
}
