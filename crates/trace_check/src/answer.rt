//! Answers, which are the replies of one line.

ghost use Rattle.std.specs.Prelude.{◌≡◌, true, IfSome, MatchOption};
ghost use Rattle.words_core.specs.Requests.{is_table, reply_to};
ghost use Rattle.words_core.specs.Texts.{text_of};
ghost use Rattle.words_core.specs.declared.reply.Reply.{Reply};
ghost use Rattle.trace_check.specs.Forms.{Gives};
ghost use Rattle.trace_check.specs.Ranges.{Fits};
ghost use Rattle.trace_check.specs.Replies.{addressee_at, tenant_at, admin_at, nobody_at, answer_of};

use crate::answers::any_answer_at;
use crate::form::{behind_word, number_between};
use model_core::limits::MAX_BYTES;
use words_core::{Addressee, Answer};

/// Reads `text` as a whole reply of one line, with its line feed. Returns the addressee and the answer. If the answer is the
/// bytes of a read, they are stored in `buffer`. Returns `None` if `text` is not a reply of one line.
pub fn read_answer<'a>(
    text: &'a [u8],
    buffer: &'a mut [u8; MAX_BYTES],
) -> Option<(Addressee, Answer<'a>)>
    // The returned reply has this text.
    ensures found { IfSome result (λ found. text_of (reply_to found.0 found.1) ≡ text.now) }
    // If a reply has this text and is not a table, it is returned.
    ensures only { (due : Reply) → Fits due → text_of due ≡ text.now
        → MatchOption result (is_table due.body ≡ true) (λ found. reply_to found.0 found.1 ≡ due) }
    // The result is `answer_of` of the text.
    ensures exact { Gives (λ found. reply_to found.0 found.1) result (answer_of text.now) }
{
    answer_of(text, buffer)
}

#[tactic(auto, unfolding(crate::specs::Replies::answer_of))]
#[inline(always)]
fn answer_of<'a>(text: &'a [u8], buffer: &'a mut [u8; MAX_BYTES]) -> Option<(Addressee, Answer<'a>)>
    ensures { Gives (λ found. reply_to found.0 found.1) result (answer_of text.now) }
{
    let (addressee, rest) = addressee_at(text)?;
    let (answer, rest) = any_answer_at(rest, buffer)?;
    match rest {
        [] => Some((addressee, answer)),
        _ => None,
    }
}

/// Returns the addressee at the front of a line, and the text that follows it.
#[tactic(auto, unfolding(crate::specs::Replies::addressee_at))]
pub fn addressee_at(text: &[u8]) -> Option<(Addressee, &[u8])>
    ensures { Gives (λ found. (found.0, found.1.now)) result (addressee_at text.now) }
{
    tenant_at(text)
        .or_else(|| admin_at(text))
        .or_else(|| nobody_at(text))
}

#[tactic(auto, unfolding(crate::specs::Replies::tenant_at))]
fn tenant_at(text: &[u8]) -> Option<(Addressee, &[u8])>
    ensures { Gives (λ found. (found.0, found.1.now)) result (tenant_at text.now) }
{
    let (tenant, rest) = number_between(b"", b"> ", text)?;
    Some((Addressee::Tenant(u8::try_from(tenant).ok()?), rest))
}

#[tactic(auto, unfolding(crate::specs::Replies::admin_at))]
fn admin_at(text: &[u8]) -> Option<(Addressee, &[u8])>
    ensures { Gives (λ found. (found.0, found.1.now)) result (admin_at text.now) }
{
    let rest = behind_word(b"admin> ", text)?;
    Some((Addressee::Admin, rest))
}

#[tactic(auto, unfolding(crate::specs::Replies::nobody_at))]
fn nobody_at(text: &[u8]) -> Option<(Addressee, &[u8])>
    ensures { Gives (λ found. (found.0, found.1.now)) result (nobody_at text.now) }
{
    let rest = behind_word(b"!> ", text)?;
    Some((Addressee::Nobody, rest))
}
