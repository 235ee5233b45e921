//! The end of a line: LF (byte 10), or CR LF (bytes 13 and 10).

ghost use Rattle.std.specs.Prelude.{◌+◌, ◌<◌, IfSome, length, if◌then◌else◌};
ghost use Rattle.quick_core.specs.Lines.{EndsLine};

/// The value of `CRLF` for lines that end in LF alone.
pub const LF: bool = false;

/// The value of `CRLF` for lines that end in CR LF.
pub const CR_LF: bool = true;

/// Returns the length in bytes of the line whose end begins at index `end`. The length includes the end, which is CR LF if
/// `CRLF`, and LF otherwise. Returns `None` if other bytes are at index `end`.
#[inline(always)]
pub fn line_len<const CRLF: bool>(bytes: &[u8], end: usize) -> Option<usize>
    requires { end + (if CRLF then 1 else 0) < length bytes.now }
    ensures { IfSome result (λ len. EndsLine bytes.now end len) }
{
    if CRLF && bytes[end] != b'\r' {
        return None;
    }
    let line_feed = end + usize::from(CRLF);
    (bytes[line_feed] == b'\n').then_some(line_feed + 1)
}
