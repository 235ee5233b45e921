//! Finds the live object or page block that contains a byte.

ghost use Rattle.std.specs.Prelude.{◌≡◌};
ghost use Rattle.partmem_c.specs.Finding.{LooksUp};
ghost use Rattle.partmem_c.specs.Holders.{FindsHolder, no_holder, numbers_of_holder, cache_or_none};

use crate::lookups::put;
use crate::machine_storage::MachineStorage;
use crate::status::NO_MACHINE;
use kernel_core::{Holder, Kernel};
use std::alloc::Global;
use words_core::Refusal;

/// The cache number of a page block, which is in no cache.
pub const OF_NO_CACHE: u32 = u32::MAX;

/// A live object or a live page block: its cache ([`OF_NO_CACHE`] for a page block), the place of its first byte, and its size in
/// bytes.
#[repr(C)]
#[derive(Clone, Copy, Debug)]
pub struct HolderNumbers {
    pub cache: u32,
    pub place: u32,
    pub bytes: u32,
}

pub(crate) const NO_HOLDER: HolderNumbers = HolderNumbers {
    cache: 0,
    place: 0,
    bytes: 0,
};

/// Finds the live object or the live page block of a tenant that contains the byte at a place.
///
/// Fails with `NO_MACHINE`, `NO_TENANT` or `OUT_OF_REACH`.
#[unsafe(no_mangle)]
pub extern "C" fn partmem_find_object(
    alloc: Global,
    machine: &mut MachineStorage,
    tenant: u32,
    place: u32,
    found: &mut HolderNumbers,
) -> u32
    ensures finds { LooksUp no_holder machine.old.cell.held (λ k outcome. FindsHolder k tenant place outcome) result found.new }
    ensures kept { machine.new.cell.held ≡ machine.old.cell.held }
{
    *found = NO_HOLDER;
    let Some(kernel) = machine.kernel() else {
        return NO_MACHINE;
    };
    let outcome = holder_at(kernel, tenant, place);
    put(outcome, found)
}

#[inline(always)]
fn holder_at(kernel: &Kernel, tenant: u32, place: u32) -> Result<HolderNumbers, Refusal>
    ensures { FindsHolder kernel.now tenant place result }
{
    let holder = kernel.holder(tenant, place)?;
    Ok(numbers_of_holder(holder))
}

/// Returns the numbers of an object or a page block.
#[inline(always)]
pub(crate) fn numbers_of_holder(holder: Holder) -> HolderNumbers
    ensures { result ≡ numbers_of_holder holder }
{
    HolderNumbers {
        cache: cache_or_none(holder.cache),
        place: holder.place,
        bytes: holder.bytes,
    }
}

/// Returns the number of a cache, or [`OF_NO_CACHE`] for `None`.
#[inline(always)]
fn cache_or_none(cache: Option<u32>) -> u32
    ensures { result ≡ cache_or_none cache }
{
    match cache {
        Some(number) => number,
        None => OF_NO_CACHE,
    }
}
