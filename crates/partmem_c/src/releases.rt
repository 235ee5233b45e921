//! Frees what begins at a place.

ghost use Rattle.std.specs.Prelude.{◌≡◌, ℕ, Some, MatchOption};
ghost use Rattle.kernel_core.specs.Content.{superblock_at};
ghost use Rattle.partmem_c.specs.Calls.{block_bytes};
ghost use Rattle.partmem_c.specs.Releases.{FreesPlace, FreesUnder, IsUnderNoSlot, TellsFreed, place_of_byte};

use crate::calls::block_bytes;
use crate::holders::{HolderNumbers, NO_HOLDER, numbers_of_holder};
use crate::machine_storage::MachineStorage;
use crate::owners::OF_NO_SLOT;
use crate::status::{DONE, NO_MACHINE};
use kernel_core::{Holder, Kernel};
use std::alloc::Global;
use words_core::{CACHES, Refusal};

/// The size in bytes of the objects of each cache that may be given, by the number of the cache. If it is 0, none may be given.
#[repr(C)]
#[derive(Clone, Copy, Debug)]
pub struct ObjectSizes {
    pub bytes: [u16; CACHES],
}

/// Gives the tenant's live object, or frees the tenant's live page block, that begins at a place, and sets `freed` to what it
/// was. An object is given only if `sizes` has its size for its cache.
///
/// Fails with `NO_MACHINE`, `NO_TENANT` or `OUT_OF_REACH`, with `NOT_A_BLOCK` if the place is inside a page block, or with
/// `NOT_AN_OBJECT` if it is inside an object, or at an object that may not be given.
#[unsafe(no_mangle)]
pub extern "C" fn partmem_release(
    alloc: Global,
    machine: &mut MachineStorage,
    tenant: u32,
    place: u32,
    sizes: &ObjectSizes,
    freed: &mut HolderNumbers,
) -> u32
    ensures { FreesPlace machine.old.cell.held tenant place sizes.now.bytes machine.new.cell.held result freed.new }
{
    let Some(kernel) = machine.kernel() else {
        *freed = NO_HOLDER;
        return NO_MACHINE;
    };
    let outcome = kernel.release(tenant, place, &sizes.bytes);
    tell_freed(outcome, freed)
}

/// Does what [`partmem_release`] does, for the place of the byte at `offset` in a superblock. Returns [`OF_NO_SLOT`] if no slot
/// of the tenant uses the superblock, also if there is no such tenant or superblock. For the C part of the library, which frees by
/// address.
#[unsafe(no_mangle)]
pub extern "C" fn partmem_release_in_kernel(
    alloc: Global,
    machine: &mut MachineStorage,
    tenant: u32,
    superblock: u32,
    offset: u32,
    sizes: &ObjectSizes,
    freed: &mut HolderNumbers,
) -> u32
    ensures { FreesUnder machine.old.cell.held tenant superblock offset sizes.now.bytes machine.new.cell.held result freed.new }
{
    let Some(kernel) = machine.kernel() else {
        *freed = NO_HOLDER;
        return NO_MACHINE;
    };
    let Some(found) = place_under(kernel, tenant, superblock, offset) else {
        *freed = NO_HOLDER;
        return OF_NO_SLOT;
    };
    let outcome = kernel.release(tenant, found, &sizes.bytes);
    tell_freed(outcome, freed)
}

/// Returns the tenant's place of the byte at `offset` in a superblock, or `None` if no slot of the tenant uses the superblock.
#[inline(always)]
fn place_under(kernel: &Kernel, tenant: u32, superblock: u32, offset: u32) -> Option<u32>
    ensures { MatchOption result (IsUnderNoSlot kernel.now tenant superblock)
        (λ place. (slot : ℕ) × (superblock_at kernel.now tenant slot ≡ Some superblock)
        × (place ≡ place_of_byte (block_bytes kernel.now.order) slot offset)) }
{
    let slot = kernel.slot_under(tenant, superblock)?;
    let bytes = block_bytes(kernel.order());
    Some(bytes.wrapping_mul(u32::from(slot)).wrapping_add(offset))
}

/// Stores in `freed` what was freed, or zeros if the call was refused. Returns the status.
#[inline(always)]
fn tell_freed(outcome: Result<Holder, Refusal>, freed: &mut HolderNumbers) -> u32
    ensures { TellsFreed outcome result freed.new }
{
    match outcome {
        Ok(holder) => {
            *freed = numbers_of_holder(holder);
            DONE
        }
        Err(refusal) => {
            *freed = NO_HOLDER;
            u32::from(refusal.number())
        }
    }
}
