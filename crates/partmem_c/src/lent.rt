//! Lent bytes: the address that C gets, with the tenant, the place and the number of the bytes.

ghost use Rattle.std.specs.Prelude.{◌≡◌};
ghost use Rattle.std.specs.Borrow.{sem};
ghost use Rattle.std.specs.Ptr.{as_mut_ptr};
ghost use Rattle.kernel_core.specs.Lending.{IsLive, IsLent, LendsSpan};
ghost use Rattle.partmem_c.specs.Lends.{no_lent, IsLentAt};

use kernel_core::{Kernel, Span};
use std::ptr::null_mut;

/// Lent bytes: the address and the place of the first byte, the number of bytes, and the tenant of the place. All zero if nothing
/// is lent. Only this file makes a value with an address, and no other file reads or changes one.
#[repr(C)]
#[derive(Clone, Copy)]
pub struct Lent {
    at: *mut u8,
    place: u32,
    bytes: u32,
    tenant: u32,
}

impl Lent {
    /// Returns the value that means that nothing is lent. It is all zero.
    #[inline(always)]
    pub fn none() -> Lent
        ensures { result ≡ no_lent }
    {
        Lent {
            at: null_mut(),
            place: 0,
            bytes: 0,
            tenant: 0,
        }
    }
}

/// Lends the bytes of a span, and returns their address, place, number and tenant.
#[inline(always)]
pub(crate) fn lent_of(kernel: &mut Kernel, span: Span) -> Lent
    requires { IsLive kernel.old span }
    ensures lent { IsLentAt span.tenant span.place span.bytes result }
    ensures kept { kernel.new ≡ kernel.old }
{
    let mut lent = Lent::none();
    lend_at(kernel, span, &mut lent);
    lent
}

/// Lends the bytes of a span as a slice, and stores their address, place, number and tenant in `lent`.
#[inline(always)]
fn lend_at<'a>(kernel: &'a mut Kernel, span: Span, lent: &mut Lent) -> &'a mut [u8]
    requires { IsLive kernel.old span }
    ensures* writes_back { sem 𝓛 (LendsSpan kernel.entry span result) }
    ensures bytes { IsLent kernel.old span.tenant span.place span.bytes result.now }
    ensures address { lent.new.at ≡ as_mut_ptr result }
    ensures lent { IsLentAt span.tenant span.place span.bytes lent.new }
{
    let bytes = kernel.lend(span);
    *lent = Lent {
        at: first_of(bytes),
        place: span.place,
        bytes: span.bytes,
        tenant: u32::from(span.tenant),
    };
    bytes
}

/// Returns the address of the first byte of a slice.
#[inline(always)]
fn first_of(bytes: &mut [u8]) -> *mut u8
    ensures address { result ≡ as_mut_ptr bytes.entry }
    ensures kept { bytes.new ≡ bytes.old }
{
    bytes.as_mut_ptr()
}
