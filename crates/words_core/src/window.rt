//! Writes texts and numbers, one after another, to the front of a buffer.

ghost use Rattle.std.specs.Prelude.{◌≡◌, ◌+◌, ◌<◌, ◌≤◌, [], ◌∷◌, ◌++◌, take, drop, decimal, length, slice_range};
ghost use Rattle.words_core.specs.Digits.{two_digits, five_digits};

use crate::numbers::{MAX_DIGITS, digits_of};

/// Writes the text after the first `at` bytes of the buffer and returns the index of its end. The other functions here that take
/// `at` also write after the first `at` bytes and return the end.
#[inline(always)]
pub fn put_text(text: &[u8], at: usize, out: &mut [u8]) -> usize
    requires { at + length text.now ≤ length out.old }
    ensures text { take result out.new ≡ take at out.old ++ text.now }
    ensures end { result ≡ at + length text.now }
{
    let end = at + text.len();
    out[at..end].copy_from_slice(text);
    end
}

/// Size in bytes of a stored front: the beginning of a line, padded if it is shorter.
const FRONT_BYTES: usize = 16;

/// Writes the number of a tenant, and then bytes 1 to `len - 1` of `front`. Returns the index of the end. Byte 0 of `front` is a
/// placeholder: for a number with one digit the whole front is written with one store, and the digit then replaces byte 0.
#[inline(always)]
pub fn put_front(tenant: u8, front: &[u8; FRONT_BYTES], len: usize, out: &mut [u8]) -> usize
    requires some { 0 < len }
    requires within { len ≤ FRONT_BYTES }
    requires space { FRONT_BYTES + 2 ≤ length out.old }
    ensures text { take result out.new ≡ decimal tenant ++ slice_range front.now 1 len }
    ensures short { result ≤ len + 2 }
{
    if tenant >= 10 {
        return put_long_front(tenant, front, len, out);
    }
    put_whole(front, out);
    out[0] = b'0' + tenant;
    len
}

/// Does what [`put_front`] does, for a tenant number of 10 or more.
#[inline(never)]
fn put_long_front(tenant: u8, front: &[u8; FRONT_BYTES], len: usize, out: &mut [u8]) -> usize
    requires some { 0 < len }
    requires within { len ≤ FRONT_BYTES }
    requires space { FRONT_BYTES + 2 ≤ length out.old }
    ensures text { take result out.new ≡ decimal tenant ++ slice_range front.now 1 len }
    ensures short { result ≤ len + 2 }
{
    let at = put_up_to_three(u32::from(tenant), 0, out);
    put_text(&front[1..len], at, out)
}

/// Writes the whole front over the first bytes of `out`.
#[inline(always)]
fn put_whole(front: &[u8; FRONT_BYTES], out: &mut [u8])
    requires { FRONT_BYTES ≤ length out.old }
    ensures { out.new ≡ front.now ++ drop FRONT_BYTES out.old }
{
    let Some(first) = out.first_chunk_mut::<FRONT_BYTES>() else {
        unreachable!()
    };
    *first = *front;
}

/// Writes one digit.
#[inline(always)]
fn put_digit(digit: u32, at: usize, out: &mut [u8]) -> usize
    requires digit { digit < 10 }
    requires space { at < length out.old }
    ensures text { take result out.new ≡ take at out.old ++ (48 + digit) ∷ [] }
    ensures end { result ≡ at + 1 }
{
    out[at] = b'0' + digit as u8;
    at + 1
}

/// Writes a number below 100 as two digits, with a leading zero if it is below 10.
#[inline(always)]
fn put_two(number: u32, at: usize, out: &mut [u8]) -> usize
    requires two { number < 100 }
    requires space { at + 2 ≤ length out.old }
    ensures text { take result out.new ≡ take at out.old ++ two_digits number }
    ensures end { result ≡ at + 2 }
{
    let from = 2 * number as usize;
    out[at] = PAIRS[from];
    out[at + 1] = PAIRS[from + 1];
    at + 2
}

/// The two digits of each number below 100, in ascending order of the numbers.
static PAIRS: [u8; 200] = *b"\
    00010203040506070809\
    10111213141516171819\
    20212223242526272829\
    30313233343536373839\
    40414243444546474849\
    50515253545556575859\
    60616263646566676869\
    70717273747576777879\
    80818283848586878889\
    90919293949596979899";

/// Writes a number with at most three digits.
#[tactic(auto, using(crate::proofs::DigitLemmas::digit_rules))]
#[inline(always)]
fn put_up_to_three(number: u32, at: usize, out: &mut [u8]) -> usize
    requires three { number < 1000 }
    requires space { at + 3 ≤ length out.old }
    ensures text { take result out.new ≡ take at out.old ++ decimal number }
    ensures short { result ≤ at + 3 }
{
    if number < 10 {
        return put_digit(number, at, out);
    }
    if number < 100 {
        return put_two(number, at, out);
    }
    let at = put_digit(number / 100, at, out);
    put_two(number % 100, at, out)
}

/// Writes a number with at most five digits.
#[tactic(auto, using(crate::proofs::DigitLemmas::digit_rules))]
#[inline(always)]
fn put_up_to_five(number: u32, at: usize, out: &mut [u8]) -> usize
    requires five { number < 100000 }
    requires space { at + 5 ≤ length out.old }
    ensures text { take result out.new ≡ take at out.old ++ decimal number }
    ensures short { result ≤ at + 5 }
{
    if number < 1000 {
        return put_up_to_three(number, at, out);
    }
    if number < 10000 {
        let at = put_two(number / 100, at, out);
        return put_two(number % 100, at, out);
    }
    put_five(number, at, out)
}

/// Writes a number below 100,000 as five digits, with leading zeros if it has fewer.
#[inline(always)]
fn put_five(number: u32, at: usize, out: &mut [u8]) -> usize
    requires five { number < 100000 }
    requires space { at + 5 ≤ length out.old }
    ensures text { take result out.new ≡ take at out.old ++ five_digits number }
    ensures end { result ≡ at + 5 }
{
    let at = put_digit(number / 10000, at, out);
    let rest = number % 10000;
    let at = put_two(rest / 100, at, out);
    put_two(rest % 100, at, out)
}

/// Writes a number in fewer instructions than [`put_number`], for the frequent lines. This function is always inlined, and is
/// called only once: with several calls, the function around them grows too large to be inlined.
#[tactic(auto, using(crate::proofs::DigitLemmas::digit_rules))]
#[inline(always)]
pub fn put_number_quickly(number: u32, at: usize, out: &mut [u8]) -> usize
    requires space { at + MAX_DIGITS ≤ length out.old }
    ensures text { take result out.new ≡ take at out.old ++ decimal number }
    ensures short { result ≤ at + MAX_DIGITS }
{
    if number < 100_000 {
        return put_up_to_five(number, at, out);
    }
    let at = put_up_to_five(number / 100_000, at, out);
    put_five(number % 100_000, at, out)
}

/// Writes a number with `itoa`, which writes backwards from the end of the digits. So the digits are counted first.
#[inline(always)]
pub fn put_number(number: u32, at: usize, out: &mut [u8]) -> usize
    requires space { at + MAX_DIGITS ≤ length out.old }
    ensures text { take result out.new ≡ take at out.old ++ decimal number }
    ensures end { result ≡ at + length (decimal number) }
    ensures short { result ≤ at + MAX_DIGITS }
{
    let end = at + digits_of(number);
    itoa::write_digits(u64::from(number), out, end);
    end
}

/// Writes a label, and then a number.
#[inline(always)]
pub fn put_labelled(label: &[u8], number: u32, at: usize, out: &mut [u8]) -> usize
    requires { at + length label.now + MAX_DIGITS ≤ length out.old }
    ensures text { take result out.new ≡ take at out.old ++ label.now ++ decimal number }
    ensures short { result ≤ at + length label.now + MAX_DIGITS }
{
    let at = put_text(label, at, out);
    put_number(number, at, out)
}
