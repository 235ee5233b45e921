//! Superblocks: their size, their owners, and the slots that use them.

ghost use Rattle.std.specs.Prelude.{◌≡◌, ◌≢◌, ◌↔◌, ℕ, IfSome, Some, None};
ghost use Rattle.space_core.specs.Content.{owner_at};
ghost use Rattle.partmem_c.specs.Owners.{owner_numbers, owner_status, owner_reported, size_of_superblock, superblock_held};

use crate::calls::block_bytes;
use crate::machine_storage::MachineStorage;
use crate::status::{DONE, NO_MACHINE, NO_SUPERBLOCK};
use kernel_core::Kernel;
use std::alloc::Global;

/// The owner of a superblock: the tenant, and the slot that uses the superblock. `is_owned` is 1 if the superblock has an owner;
/// otherwise all fields are 0.
#[repr(C)]
#[derive(Clone, Copy, Debug)]
pub struct Owner {
    pub is_owned: u32,
    pub tenant: u32,
    pub slot: u32,
}

/// The slot number of a superblock that no slot of the tenant uses. It is above the number of every slot.
pub(crate) const OF_NO_SLOT: u32 = u32::MAX;

const NO_OWNER: Owner = Owner {
    is_owned: 0,
    tenant: 0,
    slot: 0,
};

/// Returns the number of bytes in each superblock, or 0 without a machine.
#[unsafe(no_mangle)]
pub extern "C" fn partmem_superblock_bytes(alloc: Global, machine: &mut MachineStorage) -> u32
    ensures bytes { result ≡ size_of_superblock machine.old.cell.held }
    ensures kept { machine.new.cell.held ≡ machine.old.cell.held }
{
    let Some(kernel) = machine.kernel() else {
        return 0;
    };
    superblock_bytes(kernel)
}

fn superblock_bytes(kernel: &Kernel) -> u32
    ensures { result ≡ size_of_superblock (Some kernel.now) }
{
    kernel.parts_agree();
    block_bytes(kernel.order())
}

/// Finds the owner of a superblock.
///
/// Fails with `NO_MACHINE` or `NO_SUPERBLOCK`.
#[unsafe(no_mangle)]
pub extern "C" fn partmem_find_superblock(
    alloc: Global,
    machine: &mut MachineStorage,
    superblock: u32,
    owner: &mut Owner,
) -> u32
    ensures status { result ≡ owner_status machine.old.cell.held superblock }
    ensures done { result ≡ DONE
        → IfSome machine.old.cell.held (λ k. owner.new ≡ owner_numbers (owner_at k.space.owners superblock)) }
    ensures not_done { result ≢ DONE → owner.new ≡ owner_numbers None }
    ensures kept { machine.new.cell.held ≡ machine.old.cell.held }
{
    *owner = NO_OWNER;
    let Some(kernel) = machine.kernel() else {
        return NO_MACHINE;
    };
    let Some(found) = owner_reported(kernel, superblock) else {
        return NO_SUPERBLOCK;
    };
    *owner = found;
    DONE
}

fn owner_reported(kernel: &Kernel, superblock: u32) -> Option<Owner>
    ensures { result ≡ owner_reported kernel.now.space.owners superblock }
{
    let space = kernel.space();
    if superblock >= u32::from(space.superblocks()) {
        return None;
    }
    Some(match space.owner_of(superblock as u16) {
        None => NO_OWNER,
        Some(owner) => Owner {
            is_owned: 1,
            tenant: u32::from(owner.tenant),
            slot: u32::from(owner.slot),
        },
    })
}

/// Returns the slot of a tenant that uses a superblock, or [`OF_NO_SLOT`] if no slot of the tenant uses it, also if there is no
/// machine, no such tenant or no such superblock. For the C part of the library, which looks places up by it.
#[unsafe(no_mangle)]
pub extern "C" fn partmem_slot_in_kernel(
    alloc: Global,
    machine: &mut MachineStorage,
    tenant: u32,
    superblock: u32,
) -> u32
    ensures slot { (u : ℕ) → u ≢ OF_NO_SLOT → (result ≡ u) ↔ (superblock_held machine.old.cell.held tenant u ≡ Some superblock) }
    ensures kept { machine.new.cell.held ≡ machine.old.cell.held }
{
    let Some(kernel) = machine.kernel() else {
        return OF_NO_SLOT;
    };
    slot_number(kernel, tenant, superblock)
}

fn slot_number(kernel: &Kernel, tenant: u32, superblock: u32) -> u32
    ensures { (u : ℕ) → u ≢ OF_NO_SLOT → (result ≡ u) ↔ (superblock_held (Some kernel.now) tenant u ≡ Some superblock) }
{
    match kernel.slot_under(tenant, superblock) {
        Some(slot) => u32::from(slot),
        None => OF_NO_SLOT,
    }
}
