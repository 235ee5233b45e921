//! Decodes bytes in hex.

ghost use Rattle.std.specs.Prelude.{◌≡◌, ◌+◌, ◌*◌, ◌<◌, ◌≤◌, [], ◌∷◌, ◌++◌, IfSome, length, take};
ghost use Rattle.quick_core.specs.Pairs.{Decodes};

use model_core::limits::MAX_BYTES;

/// Decodes the pairs of hex digits from index `from` on into the front of `out`, until two bytes are not a pair of digits,
/// `out` is full, or the bytes end. Returns the number of pairs decoded.
#[inline(always)]
pub fn decode_at(bytes: &[u8], from: usize, out: &mut [u8; MAX_BYTES]) -> usize
    requires { from ≤ length bytes.now }
    ensures decoded { Decodes bytes.now from (from + 2 * result) (take result out.new) }
    ensures few { result ≤ MAX_BYTES }
    ensures within { from + 2 * result ≤ length bytes.now }
{
    let most = MAX_BYTES.min((bytes.len() - from) / 2);
    let done = decode_fours(bytes, from, most, out);
    decode_singly(bytes, from, done, most, out)
}

/// Decodes at most `most` pairs, four at a time, and returns the number of pairs decoded.
#[inline(always)]
fn decode_fours(bytes: &[u8], from: usize, most: usize, out: &mut [u8; MAX_BYTES]) -> usize
    requires few { most ≤ MAX_BYTES }
    requires within { from + 2 * most ≤ length bytes.now }
    ensures decoded { Decodes bytes.now from (from + 2 * result) (take result out.new) }
    ensures few { result ≤ most }
{
    for fours in 0..most / 4 {
        let done = 4 * fours;
        let Some(four) = four_pairs_at(bytes, from + 2 * done) else {
            return done;
        };
        put_four(&four, done, out);
    }
    4 * (most / 4)
}

/// Writes four bytes after the first `at` bytes of `out`.
#[inline(always)]
fn put_four(four: &[u8; 4], at: usize, out: &mut [u8])
    requires { at + 4 ≤ length out.old }
    ensures { take (at + 4) out.new ≡ take at out.old ++ four.now }
{
    out[at..at + 4].copy_from_slice(four);
}

/// Decodes the pairs after the first `done` pairs, one at a time, and returns the number of all decoded pairs, including the first
/// `done`.
#[inline(always)]
fn decode_singly(
    bytes: &[u8],
    from: usize,
    done: usize,
    most: usize,
    out: &mut [u8; MAX_BYTES],
) -> usize
    requires few { most ≤ MAX_BYTES }
    requires within { from + 2 * most ≤ length bytes.now }
    requires some { done ≤ most }
    requires decoded { Decodes bytes.now from (from + 2 * done) (take done out.old) }
    ensures decoded { Decodes bytes.now from (from + 2 * result) (take result out.new) }
    ensures few { result ≤ most }
{
    for count in done..most {
        let pair = pair_at(bytes, from + 2 * count);
        if pair >= NO_DIGIT {
            return count;
        }
        out[count] = pair as u8;
    }
    most
}

/// Returns the four bytes that the eight bytes from index `at` on encode in hex, or `None` if one of these eight is not a hex
/// digit.
#[inline(always)]
fn four_pairs_at(bytes: &[u8], at: usize) -> Option<[u8; 4]>
    requires { at + 8 ≤ length bytes.now }
    ensures { IfSome result (λ four. Decodes bytes.now at (at + 8) four) }
{
    let first = pair_at(bytes, at);
    let second = pair_at(bytes, at + 2);
    let third = pair_at(bytes, at + 4);
    let fourth = pair_at(bytes, at + 6);
    // The sum of four decoded bytes is always less than `NO_DIGIT`.
    if first + second + third + fourth >= NO_DIGIT {
        return None;
    }
    Some([first as u8, second as u8, third as u8, fourth as u8])
}

/// Returns the byte that the two bytes from index `at` on encode in hex, or a value of at least `NO_DIGIT` if one of these two is
/// not a hex digit.
#[inline(always)]
fn pair_at(bytes: &[u8], at: usize) -> u16
    requires { at + 2 ≤ length bytes.now }
    ensures decoded { result < NO_DIGIT → Decodes bytes.now at (at + 2) (result ∷ []) }
    ensures byte { result < NO_DIGIT → result < 256 }
    ensures few { result ≤ 2 * NO_DIGIT }
{
    HIGH_VALUES[bytes[at] as usize] + LOW_VALUES[bytes[at + 1] as usize]
}

/// The entry of the tables for a byte that is not a hex digit. It is greater than the sum of any four bytes.
const NO_DIGIT: u16 = 1024;

/// Sixteen times the value of each byte as a hex digit, or `NO_DIGIT` if it is not a hex digit.
static HIGH_VALUES: [u16; 256] = [
    1024, 1024, 1024, 1024, 1024, 1024, 1024, 1024, 1024, 1024, 1024, 1024, 1024, 1024, 1024, 1024,
    1024, 1024, 1024, 1024, 1024, 1024, 1024, 1024, 1024, 1024, 1024, 1024, 1024, 1024, 1024, 1024,
    1024, 1024, 1024, 1024, 1024, 1024, 1024, 1024, 1024, 1024, 1024, 1024, 1024, 1024, 1024, 1024,
    0, 16, 32, 48, 64, 80, 96, 112, 128, 144, 1024, 1024, 1024, 1024, 1024, 1024, 1024, 160, 176,
    192, 208, 224, 240, 1024, 1024, 1024, 1024, 1024, 1024, 1024, 1024, 1024, 1024, 1024, 1024,
    1024, 1024, 1024, 1024, 1024, 1024, 1024, 1024, 1024, 1024, 1024, 1024, 1024, 1024, 160, 176,
    192, 208, 224, 240, 1024, 1024, 1024, 1024, 1024, 1024, 1024, 1024, 1024, 1024, 1024, 1024,
    1024, 1024, 1024, 1024, 1024, 1024, 1024, 1024, 1024, 1024, 1024, 1024, 1024, 1024, 1024, 1024,
    1024, 1024, 1024, 1024, 1024, 1024, 1024, 1024, 1024, 1024, 1024, 1024, 1024, 1024, 1024, 1024,
    1024, 1024, 1024, 1024, 1024, 1024, 1024, 1024, 1024, 1024, 1024, 1024, 1024, 1024, 1024, 1024,
    1024, 1024, 1024, 1024, 1024, 1024, 1024, 1024, 1024, 1024, 1024, 1024, 1024, 1024, 1024, 1024,
    1024, 1024, 1024, 1024, 1024, 1024, 1024, 1024, 1024, 1024, 1024, 1024, 1024, 1024, 1024, 1024,
    1024, 1024, 1024, 1024, 1024, 1024, 1024, 1024, 1024, 1024, 1024, 1024, 1024, 1024, 1024, 1024,
    1024, 1024, 1024, 1024, 1024, 1024, 1024, 1024, 1024, 1024, 1024, 1024, 1024, 1024, 1024, 1024,
    1024, 1024, 1024, 1024, 1024, 1024, 1024, 1024, 1024, 1024, 1024, 1024, 1024, 1024, 1024, 1024,
    1024, 1024, 1024, 1024, 1024, 1024, 1024, 1024, 1024, 1024, 1024, 1024, 1024,
];

/// The value of each byte as a hex digit, or `NO_DIGIT` if it is not a hex digit.
static LOW_VALUES: [u16; 256] = [
    1024, 1024, 1024, 1024, 1024, 1024, 1024, 1024, 1024, 1024, 1024, 1024, 1024, 1024, 1024, 1024,
    1024, 1024, 1024, 1024, 1024, 1024, 1024, 1024, 1024, 1024, 1024, 1024, 1024, 1024, 1024, 1024,
    1024, 1024, 1024, 1024, 1024, 1024, 1024, 1024, 1024, 1024, 1024, 1024, 1024, 1024, 1024, 1024,
    0, 1, 2, 3, 4, 5, 6, 7, 8, 9, 1024, 1024, 1024, 1024, 1024, 1024, 1024, 10, 11, 12, 13, 14, 15,
    1024, 1024, 1024, 1024, 1024, 1024, 1024, 1024, 1024, 1024, 1024, 1024, 1024, 1024, 1024, 1024,
    1024, 1024, 1024, 1024, 1024, 1024, 1024, 1024, 1024, 1024, 10, 11, 12, 13, 14, 15, 1024, 1024,
    1024, 1024, 1024, 1024, 1024, 1024, 1024, 1024, 1024, 1024, 1024, 1024, 1024, 1024, 1024, 1024,
    1024, 1024, 1024, 1024, 1024, 1024, 1024, 1024, 1024, 1024, 1024, 1024, 1024, 1024, 1024, 1024,
    1024, 1024, 1024, 1024, 1024, 1024, 1024, 1024, 1024, 1024, 1024, 1024, 1024, 1024, 1024, 1024,
    1024, 1024, 1024, 1024, 1024, 1024, 1024, 1024, 1024, 1024, 1024, 1024, 1024, 1024, 1024, 1024,
    1024, 1024, 1024, 1024, 1024, 1024, 1024, 1024, 1024, 1024, 1024, 1024, 1024, 1024, 1024, 1024,
    1024, 1024, 1024, 1024, 1024, 1024, 1024, 1024, 1024, 1024, 1024, 1024, 1024, 1024, 1024, 1024,
    1024, 1024, 1024, 1024, 1024, 1024, 1024, 1024, 1024, 1024, 1024, 1024, 1024, 1024, 1024, 1024,
    1024, 1024, 1024, 1024, 1024, 1024, 1024, 1024, 1024, 1024, 1024, 1024, 1024, 1024, 1024, 1024,
    1024, 1024, 1024, 1024, 1024, 1024, 1024, 1024, 1024, 1024, 1024, 1024, 1024, 1024, 1024, 1024,
    1024, 1024, 1024, 1024, 1024, 1024, 1024,
];
