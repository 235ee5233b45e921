//! Bytes in hex, each as two lower-case digits.

ghost use Rattle.std.specs.Prelude.{◌≡◌, ℕ, ◌<◌, ◌≤◌, [], ◌∷◌, Some, IfSome, length, slice_index};
ghost use Rattle.hex.specs.Hex.{encode_lower, lower_digits};
ghost use Rattle.trace_check.specs.Forms.{Gives};
ghost use Rattle.trace_check.specs.Replies.{bytes_of};

use model_core::limits::MAX_BYTES;

/// Decodes a word of lower-case hex into `buffer`, and returns the decoded bytes. Returns `None` if the word spells more than 64
/// bytes, or is not made of pairs of lower-case hex digits.
#[tactic(auto, unfolding(crate::specs::Replies::bytes_of))]
pub fn bytes_of<'a>(word: &[u8], buffer: &'a mut [u8; MAX_BYTES]) -> Option<&'a [u8]>
    ensures value { Gives (λ bytes. bytes.now) result (bytes_of word.now) }
    ensures few { IfSome result (λ bytes. length bytes.now ≤ MAX_BYTES) }
{
    if word.len() > 2 * MAX_BYTES {
        return None;
    }
    let mut count = 0;
    let mut rest = word;
    'pairs: while let Some((pair, behind)) = rest.split_first_chunk::<2>() {
        buffer[count] = byte_of(pair)?;
        count += 1;
        rest = behind;
    }
    if rest.is_empty() {
        Some(&buffer[..count])
    } else {
        None
    }
}

/// Returns the byte that two characters spell in hex. Returns `None` if one of them is not a lower-case hex digit.
#[inline(always)]
fn byte_of(pair: &[u8; 2]) -> Option<u8>
    ensures found { IfSome result (λ byte. encode_lower (byte ∷ []) ≡ pair.now) }
    ensures only { (byte : ℕ) → byte < 256 → encode_lower (byte ∷ []) ≡ pair.now → result ≡ Some byte }
{
    Some(digit_of(pair[0])? * 16 + digit_of(pair[1])?)
}

/// Returns the value of a lower-case hex digit, or `None` for any other byte.
#[inline(always)]
fn digit_of(digit: u8) -> Option<u8>
    ensures found { IfSome result (λ value. (value < 16) × (slice_index lower_digits value ≡ digit)) }
    ensures only { (value : ℕ) → value < 16 → slice_index lower_digits value ≡ digit → result ≡ Some value }
{
    match digit {
        b'0'..=b'9' => Some(digit - b'0'),
        b'a'..=b'f' => Some(digit - b'a' + 10),
        _ => None,
    }
}
