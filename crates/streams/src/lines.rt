ghost use Rattle.std.specs.Prelude.{◌≡◌, ◌<◌, ◌==◌, length, position, IfSome};

use memchr::memchr;

/// Returns the index of the first LF, or `None` if there is none.
pub fn line_end(bytes: &[u8]) -> Option<usize>
    ensures at { result ≡ position (λ b. b == 10) bytes.now }
    ensures within { IfSome result (λ end. end < length bytes.now) }
{
    memchr(b'\n', bytes)
}
