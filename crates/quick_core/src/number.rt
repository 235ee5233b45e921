//! Reads numbers of at most nine digits.

ghost use Rattle.std.specs.Prelude.{◌≡◌, true, ◌+◌, ◌-◌, ◌<◌, ◌≤◌, Some, IfSome, length, slice_range};
ghost use Rattle.std.specs.Char.{is_ascii_digit};
ghost use Rattle.words_core.specs.Numbers.{number_of};
ghost use Rattle.quick_core.specs.Lines.{IsLastNumber};

use crate::line_end::line_len;

/// The largest number of digits that are read. A number with that many digits always fits into a `u32`.
pub const MAX_READ_DIGITS: usize = 9;

/// The value of a number in some bytes, and the index after its last digit.
#[derive(Clone, Copy, Debug)]
pub struct Number {
    pub value: u32,
    pub end: usize,
}

/// Reads the digits from index `from` on as a number, but at most `most` digits. Returns `None` if there is no digit.
#[inline(always)]
pub fn number_at(bytes: &[u8], from: usize, most: usize) -> Option<Number>
    requires few { most ≤ MAX_READ_DIGITS }
    requires some { 0 < most }
    requires within { from + most ≤ length bytes.now }
    ensures value { IfSome result (λ number. number_of (slice_range bytes.now from number.end) ≡ Some number.value) }
    ensures some { IfSome result (λ number. from < number.end) }
    ensures within { IfSome result (λ number. number.end ≤ from + most) }
{
    let mut value = 0;
    for count in 0..most {
        let digit = digit_of(bytes[from + count]);
        if digit > 9 {
            if count == 0 {
                return None;
            }
            return Some(Number {
                value,
                end: from + count,
            });
        }
        value = value * 10 + digit;
    }
    Some(Number {
        value,
        end: from + most,
    })
}

/// The value of the last number in a line, and the length of the line, including its end.
#[derive(Clone, Copy, Debug)]
pub struct LastNumber {
    pub value: u32,
    pub len: usize,
}

/// Reads a number of at most [`MAX_READ_DIGITS`] digits from index `from` on, if the end of the line follows it: LF, or CR LF if
/// `CRLF`. Returns `None` otherwise.
#[inline(always)]
pub fn last_number<const CRLF: bool>(bytes: &[u8], from: usize) -> Option<LastNumber>
    requires { from + MAX_READ_DIGITS + 1 < length bytes.now }
    ensures { IfSome result (λ number. IsLastNumber bytes.now from number.value number.len) }
{
    let number = number_at(bytes, from, MAX_READ_DIGITS)?;
    let len = line_len::<CRLF>(bytes, number.end)?;
    Some(LastNumber {
        value: number.value,
        len,
    })
}

/// Returns the value of a digit, or more than 9 for a byte that is not a digit.
#[inline(always)]
fn digit_of(byte: u8) -> u32
    ensures digit { result ≤ 9 → is_ascii_digit byte ≡ true }
    ensures value { result ≤ 9 → result ≡ byte - 48 }
{
    u32::from(byte).wrapping_sub(48)
}
