//! Reads a frequent line at the front of some bytes.

ghost use Rattle.std.specs.Prelude.{◌≡◌, ◌-◌, ◌+◌, ◌*◌, ◌<◌, ◌≤◌, ◌==◌, Some, Ok, IfSome, codes, length, take, slice_range, slice_index};
ghost use Rattle.std.specs.List.{position};
ghost use Rattle.std.specs.Int.{w32, to_le_bytes};
ghost use Rattle.words_core.specs.Grammar.{reading_of};
ghost use Rattle.words_core.specs.Numbers.{number_of};
ghost use Rattle.words_core.specs.Requests.{command_of, IsAskable};
ghost use Rattle.words_core.specs.declared.event.Event.TheVariants.{Tenant};
ghost use Rattle.quick_core.specs.Lines.{BeginsLine, NamesTenant, ReadsAs};

use crate::decode::decode_at;
use crate::line_end::{LF, line_len};
use crate::number::{MAX_READ_DIGITS, Number, last_number, number_at};
use model_core::limits::MAX_BYTES;
use words_core::{Request, one_case};

/// A line that was read: its tenant, its request, and its length in bytes, including the line end.
#[derive(Clone, Copy, Debug)]
pub struct RequestLine<'a> {
    pub tenant: u32,
    pub request: Request<'a>,
    pub len: usize,
}

/// The number of bytes that must be available from the beginning of a line on. If there are fewer, the line is not read here.
/// Every line that is read here ends within these bytes, except a `write`, whose hex digits and line end may lie beyond them.
pub const WINDOW: usize = 32;

/// The largest number of digits in a tenant's number that is read here.
pub const MAX_TENANT_DIGITS: usize = 3;

/// The bytes `allo` as a little-endian number. The next five constants are the first four letters of the other commands, in the
/// same form.
const ALLO: u32 = 0x6f6c_6c61;

const FREE: u32 = 0x6565_7266;

const TAKE: u32 = 0x656b_6174;

const GIVE: u32 = 0x6576_6967;

const READ: u32 = 0x6461_6572;

const WRIT: u32 = 0x7469_7277;

/// Reads the line at the front of these bytes, if it is an `alloc`, `free`, `take`, `give`, `read` or `write` with single spaces
/// between its words and LF alone at its end. The bytes of a `write` are decoded into `buffer`. Returns `None` for any other
/// line, for a tenant's number of more than [`MAX_TENANT_DIGITS`] digits, for another number of more than nine digits, and if
/// there are fewer than [`WINDOW`] bytes.
#[inline(always)]
pub fn read_request<'a>(bytes: &[u8], buffer: &'a mut [u8; MAX_BYTES]) -> Option<RequestLine<'a>>
    ensures reads { IfSome result (λ line. ReadsAs bytes.now line.tenant (command_of line.request) line.len) }
    ensures askable { IfSome result (λ line. IsAskable line.request) }
{
    read_ended_request::<LF>(bytes, buffer)
}

/// Reads a line as [`read_request`] does, but the line ends in CR LF if `CRLF`, and otherwise in LF.
#[inline(always)]
pub fn read_ended_request<'a, const CRLF: bool>(
    bytes: &[u8],
    buffer: &'a mut [u8; MAX_BYTES],
) -> Option<RequestLine<'a>>
    ensures reads { IfSome result (λ line. ReadsAs bytes.now line.tenant (command_of line.request) line.len) }
    ensures askable { IfSome result (λ line. IsAskable line.request) }
{
    let tenant = read_tenant(bytes)?;
    read_known_request::<CRLF>(bytes, tenant, buffer)
}

/// Returns false if the first byte shows that no request begins here. A request begins with the number of a tenant.
#[inline(always)]
pub fn may_begin_request(bytes: &[u8]) -> bool {
    matches!(bytes, [b'0'..=b'9', ..])
}

/// Reads the number of a tenant, followed by a space, at the front of these bytes. Returns `None` if they do not begin like that,
/// if the number has more than [`MAX_TENANT_DIGITS`] digits, or if there are fewer than [`WINDOW`] bytes.
#[inline(always)]
pub fn read_tenant(bytes: &[u8]) -> Option<Number>
    ensures size { IfSome result (λ tenant. WINDOW ≤ length bytes.now) }
    ensures names { IfSome result (λ tenant. NamesTenant bytes.now tenant) }
{
    if bytes.len() < WINDOW {
        return None;
    }
    let tenant = number_at(bytes, 0, MAX_TENANT_DIGITS)?;
    (bytes[tenant.end] == b' ').then_some(tenant)
}

/// Reads the rest of a line whose tenant was already read, as [`read_ended_request`] does.
#[inline(always)]
pub fn read_known_request<'a, const CRLF: bool>(
    bytes: &[u8],
    tenant: Number,
    buffer: &'a mut [u8; MAX_BYTES],
) -> Option<RequestLine<'a>>
    requires size { WINDOW ≤ length bytes.now }
    requires names { NamesTenant bytes.now tenant }
    ensures reads { IfSome result (λ line. ReadsAs bytes.now line.tenant (command_of line.request) line.len) }
    ensures tenant { IfSome result (λ line. line.tenant ≡ tenant.value) }
    ensures askable { IfSome result (λ line. IsAskable line.request) }
{
    match four_at(bytes, tenant.end + 1) {
        ALLO => alloc_line::<CRLF>(bytes, tenant),
        FREE => free_line::<CRLF>(bytes, tenant),
        TAKE => take_line::<CRLF>(bytes, tenant),
        GIVE => give_line::<CRLF>(bytes, tenant),
        READ => read_line::<CRLF>(bytes, tenant),
        WRIT => write_line::<CRLF>(bytes, tenant, buffer),
        _ => None,
    }
}

/// Returns the four bytes from index `at` on as one little-endian number.
#[inline(always)]
fn four_at(bytes: &[u8], at: usize) -> u32
    requires { at + 4 ≤ length bytes.now }
    ensures { to_le_bytes w32 result ≡ slice_range bytes.now at (at + 4) }
{
    u32::from_le_bytes([bytes[at], bytes[at + 1], bytes[at + 2], bytes[at + 3]])
}

#[inline(always)]
fn alloc_line<const CRLF: bool>(bytes: &[u8], tenant: Number) -> Option<RequestLine<'static>>
    requires size { WINDOW ≤ length bytes.now }
    requires begins { BeginsLine bytes.now tenant (codes "allo") }
    ensures reads { IfSome result (λ line. ReadsAs bytes.now line.tenant (command_of line.request) line.len) }
    ensures tenant { IfSome result (λ line. line.tenant ≡ tenant.value) }
    ensures askable { IfSome result (λ line. IsAskable line.request) }
{
    one_case();
    let at = tenant.end + 5;
    if bytes[at] != b'c' || bytes[at + 1] != b' ' {
        return None;
    }
    let order = last_number::<CRLF>(bytes, at + 2)?;
    Some(RequestLine {
        tenant: tenant.value,
        request: Request::Alloc { order: order.value },
        len: order.len,
    })
}

#[inline(always)]
fn free_line<const CRLF: bool>(bytes: &[u8], tenant: Number) -> Option<RequestLine<'static>>
    requires size { WINDOW ≤ length bytes.now }
    requires begins { BeginsLine bytes.now tenant (codes "free") }
    ensures reads { IfSome result (λ line. ReadsAs bytes.now line.tenant (command_of line.request) line.len) }
    ensures tenant { IfSome result (λ line. line.tenant ≡ tenant.value) }
    ensures askable { IfSome result (λ line. IsAskable line.request) }
{
    one_case();
    let at = tenant.end + 5;
    if bytes[at] != b' ' {
        return None;
    }
    let frame = last_number::<CRLF>(bytes, at + 1)?;
    Some(RequestLine {
        tenant: tenant.value,
        request: Request::Free { frame: frame.value },
        len: frame.len,
    })
}

#[inline(always)]
fn take_line<const CRLF: bool>(bytes: &[u8], tenant: Number) -> Option<RequestLine<'static>>
    requires size { WINDOW ≤ length bytes.now }
    requires begins { BeginsLine bytes.now tenant (codes "take") }
    ensures reads { IfSome result (λ line. ReadsAs bytes.now line.tenant (command_of line.request) line.len) }
    ensures tenant { IfSome result (λ line. line.tenant ≡ tenant.value) }
    ensures askable { IfSome result (λ line. IsAskable line.request) }
{
    one_case();
    let at = tenant.end + 5;
    if bytes[at] != b' ' {
        return None;
    }
    let cache = last_number::<CRLF>(bytes, at + 1)?;
    Some(RequestLine {
        tenant: tenant.value,
        request: Request::Take { cache: cache.value },
        len: cache.len,
    })
}

#[inline(always)]
fn give_line<const CRLF: bool>(bytes: &[u8], tenant: Number) -> Option<RequestLine<'static>>
    requires size { WINDOW ≤ length bytes.now }
    requires begins { BeginsLine bytes.now tenant (codes "give") }
    ensures reads { IfSome result (λ line. ReadsAs bytes.now line.tenant (command_of line.request) line.len) }
    ensures tenant { IfSome result (λ line. line.tenant ≡ tenant.value) }
    ensures askable { IfSome result (λ line. IsAskable line.request) }
{
    one_case();
    let at = tenant.end + 5;
    if bytes[at] != b' ' {
        return None;
    }
    let cache = number_at(bytes, at + 1, MAX_READ_DIGITS)?;
    if bytes[cache.end] != b' ' {
        return None;
    }
    let place = last_number::<CRLF>(bytes, cache.end + 1)?;
    Some(RequestLine {
        tenant: tenant.value,
        request: Request::Give {
            cache: cache.value,
            place: place.value,
        },
        len: place.len,
    })
}

#[inline(always)]
fn read_line<const CRLF: bool>(bytes: &[u8], tenant: Number) -> Option<RequestLine<'static>>
    requires size { WINDOW ≤ length bytes.now }
    requires begins { BeginsLine bytes.now tenant (codes "read") }
    ensures reads { IfSome result (λ line. ReadsAs bytes.now line.tenant (command_of line.request) line.len) }
    ensures tenant { IfSome result (λ line. line.tenant ≡ tenant.value) }
    ensures askable { IfSome result (λ line. IsAskable line.request) }
{
    one_case();
    let at = tenant.end + 5;
    if bytes[at] != b' ' {
        return None;
    }
    let place = number_at(bytes, at + 1, MAX_READ_DIGITS)?;
    if bytes[place.end] != b' ' {
        return None;
    }
    let len = last_number::<CRLF>(bytes, place.end + 1)?;
    Some(RequestLine {
        tenant: tenant.value,
        request: Request::Read {
            place: place.value,
            len: len.value,
        },
        len: len.len,
    })
}

/// Reads a `write` and decodes its bytes into `buffer`.
#[inline(always)]
fn write_line<'a, const CRLF: bool>(
    bytes: &[u8],
    tenant: Number,
    buffer: &'a mut [u8; MAX_BYTES],
) -> Option<RequestLine<'a>>
    requires size { WINDOW ≤ length bytes.now }
    requires begins { BeginsLine bytes.now tenant (codes "writ") }
    ensures reads { IfSome result (λ line. ReadsAs bytes.now line.tenant (command_of line.request) line.len) }
    ensures tenant { IfSome result (λ line. line.tenant ≡ tenant.value) }
    ensures askable { IfSome result (λ line. IsAskable line.request) }
{
    one_case();
    let at = tenant.end + 5;
    if bytes[at] != b'e' || bytes[at + 1] != b' ' {
        return None;
    }
    let place = number_at(bytes, at + 2, MAX_READ_DIGITS)?;
    if bytes[place.end] != b' ' {
        return None;
    }
    let from = place.end + 1;
    let count = decode_at(bytes, from, buffer);
    let end = from + 2 * count;
    if count == 0 || end + usize::from(CRLF) >= bytes.len() {
        return None;
    }
    let len = line_len::<CRLF>(bytes, end)?;
    Some(RequestLine {
        tenant: tenant.value,
        request: Request::Write {
            place: place.value,
            bytes: &buffer[..count],
        },
        len,
    })
}
