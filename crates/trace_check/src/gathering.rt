//! Gathers the lines of a reply.

ghost use Rattle.std.specs.Prelude.{◌≡◌, ℕ, ◌+◌, ◌≤◌, List, ◌++◌, None, Ok, IfOk, MatchBool, length, true, false};
ghost use Rattle.std.specs.Str.{bytes_eq};
ghost use Rattle.trace_check.specs.Checking.{HasGathered, IsEndedBy};
ghost use Rattle.trace_check.specs.Finding.{lines_at};
ghost use Rattle.trace_check.specs.Gathered.{Gathers, HasAdded};
ghost use Rattle.trace_check.specs.Reading.{HasEnded, HasGiven};

use crate::finding::Unchecked;
use crate::gathered::Gathered;
use crate::reader::LineReader;
use crate::shown::MAX_TEXT_BYTES;
use streams::{Feed, Stopped};

/// Returns whether the gathered bytes are exactly `due`.
pub fn is_text(text: &Gathered<MAX_TEXT_BYTES>, due: &[u8]) -> bool
    requires { length due.now ≤ MAX_TEXT_BYTES }
    ensures { (came : List ℕ) → Gathers MAX_TEXT_BYTES came text.now → result ≡ bytes_eq came due.now }
{
    match text.whole() {
        Some(found) => *found == *due,
        None => false,
    }
}

/// Reads `lines` more lines of the replies and adds them to `text`. Returns false if the replies end before the line feed of the
/// last of these lines. Fails with `Unchecked::Replies` if the replies cannot be read.
pub fn gather<F: Feed>(
    replies: &mut LineReader<F>,
    lines: u128,
    text: &mut Gathered<MAX_TEXT_BYTES>,
) -> Result<bool, Unchecked>
    requires fine { replies.old.failed ≡ false }
    ensures come { (part : List ℕ) × HasGiven replies.old replies.new part
        × ((k n : ℕ) (came : List ℕ) → k + lines ≡ n → HasGathered k came text.old → IfOk result (λ all. MatchBool all
        (HasGathered n (came ++ part) text.new) (HasEnded replies.new × (lines_at n (came ++ part) ≡ None))))
        × HasAdded MAX_TEXT_BYTES part text.old text.new }
    ensures room { result ≡ Ok true → replies.new.room + lines ≤ replies.old.room }
    ensures end { IsEndedBy result false replies.new.failed ⊥ }
{
    let mut more = lines;
    'lines: while more > 0 {
        match replies.next(text) {
            Ok(true) => more -= 1,
            Ok(false) => return Ok(false),
            Err(Stopped) => return Err(Unchecked::Replies),
        }
    }
    Ok(true)
}
