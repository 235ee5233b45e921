//! Reads decimal numbers, and counts the digits of a number.

ghost use Rattle.std.specs.Prelude.{◌≡◌, ◌≤◌, decimal, length};
ghost use Rattle.words_core.specs.Numbers.{number_of};

/// The largest number of decimal digits in a number, including leading zeros. That is enough for every number below `2^32`.
pub const MAX_DIGITS: usize = 10;

/// Reads a word of 1 to 10 decimal digits as a number. Returns `None` for any other word, and for a value of `2^32` or more.
pub fn number(word: &[u8]) -> Option<u32>
    ensures { result ≡ number_of word.now }
{
    if word.is_empty() || word.len() > MAX_DIGITS {
        return None;
    }
    let mut value = 0u64;
    for digit in word {
        if !digit.is_ascii_digit() {
            return None;
        }
        value = value * 10 + u64::from(*digit - b'0');
    }
    u32::try_from(value).ok()
}

/// Returns the number of decimal digits of a number. 0 has one digit.
#[tactic(auto, using(crate::proofs::DigitLemmas::digits_counted))]
#[inline(always)]
pub fn digits_of(number: u32) -> usize
    ensures count { result ≡ length (decimal number) }
    ensures few { result ≤ MAX_DIGITS }
{
    number.checked_ilog10().unwrap_or(0) as usize + 1
}
