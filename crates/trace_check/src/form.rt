//! Matches texts against forms. A form is a text with a `#` in place of each number.

ghost use Rattle.std.specs.Prelude.{◌≡◌, ◌<◌, ◌≤◌, ◌^◌, ◌==◌, [], ◌∷◌, ◌++◌, None, count_by, length, take_while};
ghost use Rattle.std.specs.Char.{is_ascii_digit};
ghost use Rattle.trace_check.specs.Forms.{Gives, plain_number, number_at, letter_at, mark_at, form_at};

use arrayvec::ArrayVec;

/// The number of decimal digits of the largest `u32`, `2^32 - 1`.
const MAX_DIGITS: usize = 10;

/// Returns the number that a word spells in decimal. Returns `None` if the word is not a number, has leading zeros, or spells a
/// number of `2^32` or more.
fn plain_number(word: &[u8]) -> Option<u32>
    ensures { result ≡ plain_number word.now }
{
    if word.is_empty() || word.len() > MAX_DIGITS || word.len() > 1 && word[0] == b'0' {
        return None;
    }
    let mut value = 0u64;
    for digit in word {
        if !digit.is_ascii_digit() {
            return None;
        }
        value = value * 10 + u64::from(*digit - b'0');
    }
    u32::try_from(value).ok()
}

/// Returns the number at the front of the text, and the text that follows it. Returns `None` if [`plain_number`] does not accept
/// the digits at the front.
#[tactic(auto, unfolding(crate::specs::Forms::number_at))]
fn number_at(text: &[u8]) -> Option<(u32, &[u8])>
    ensures { Gives (λ found. (found.0, found.1.now)) result (number_at text.now) }
{
    let size = digits_len(text);
    let (digits, rest) = text.split_at(size);
    Some((plain_number(digits)?, rest))
}

/// Returns how many digits are at the front of the text.
fn digits_len(text: &[u8]) -> usize
    ensures value { result ≡ length (take_while is_ascii_digit text.now) }
    ensures fits { result ≤ length text.now }
{
    text.iter().take_while(|byte| byte.is_ascii_digit()).count()
}

/// Matches one byte of a form with the front of the text. A `#` matches a number, and any other byte matches only itself. Returns
/// the number if the byte is a `#`, and the text that follows the match.
#[tactic(auto, unfolding(crate::specs::Forms::mark_at))]
fn mark_at(mark: u8, text: &[u8]) -> Option<(Option<u32>, &[u8])>
    ensures { Gives (λ found. (found.0, found.1.now)) result (mark_at mark text.now) }
{
    if mark == b'#' {
        let (number, rest) = number_at(text)?;
        return Some((Some(number), rest));
    }
    Some((None, letter_at(mark, text)?))
}

/// Returns the text that follows a letter, if the text begins with this letter.
#[inline(always)]
fn letter_at(letter: u8, text: &[u8]) -> Option<&[u8]>
    ensures { Gives (λ rest. (None, rest.now)) result (letter_at letter text.now) }
{
    match text {
        [first, rest @ ..] if *first == letter => Some(rest),
        _ => None,
    }
}

/// Matches the front of the text against the form. Returns the numbers in place of the `#`s, and the text that follows the match.
pub fn form_at<'a, const N: usize>(form: &[u8], text: &'a [u8]) -> Option<([u32; N], &'a [u8])>
    requires few { N < 2 ^ 32 }
    requires marks { count_by (λ b. b == 35) form.now ≡ N }
    ensures { Gives (λ found. (found.0, found.1.now)) result (form_at form.now text.now) }
{
    let mut numbers = ArrayVec::<u32, N>::new();
    let mut rest = text;
    for mark in form {
        let (number, after) = mark_at(*mark, rest)?;
        if let Some(number) = number {
            numbers.push(number);
        }
        rest = after;
    }
    let Ok(numbers) = numbers.into_inner() else {
        return None;
    };
    Some((numbers, rest))
}

/// Returns the text that follows a word, if the text begins with this word.
#[inline(always)]
pub fn behind_word<'a>(word: &[u8], text: &'a [u8]) -> Option<&'a [u8]>
    requires { count_by (λ b. b == 35) word.now ≡ 0 }
    ensures { Gives (λ rest. ([], rest.now)) result (form_at word.now text.now) }
{
    let mut rest = text;
    for letter in word {
        rest = letter_at(*letter, rest)?;
    }
    Some(rest)
}

/// Reads the word `before`, a number and the word `after` at the front of the text. Returns the number and the text that follows.
#[inline(always)]
pub fn number_between<'a>(before: &[u8], after: &[u8], text: &'a [u8]) -> Option<(u32, &'a [u8])>
    requires before { count_by (λ b. b == 35) before.now ≡ 0 }
    requires after { count_by (λ b. b == 35) after.now ≡ 0 }
    ensures { Gives (λ found. (found.0 ∷ [], found.1.now)) result (form_at (before.now ++ 35 ∷ after.now) text.now) }
{
    let (number, rest) = number_at(behind_word(before, text)?)?;
    Some((number, behind_word(after, rest)?))
}
