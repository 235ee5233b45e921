//! Looks up the superblock in a slot, and the block at a place.

ghost use Rattle.std.specs.Prelude.{◌≡◌, ◌/◌, ◌^◌, ◌<◌, ◌≤◌};
ghost use Rattle.model_core.specs.declared.limits.TheConstants.{FRAME_BYTES, WIDE_ORDER};
ghost use Rattle.partmem_c.specs.Calls.{no_slot};
ghost use Rattle.partmem_c.specs.Finding.{LooksUp, Returns, slot_at, FindsBlock, no_block, use_of, untaken, AreAround, IsBlockAt};

use crate::calls::block_bytes;
use crate::granting::HeldSlot;
use crate::machine_storage::MachineStorage;
use crate::status::{DONE, NO_MACHINE};
use kernel_core::{FrameKind, Kernel, laws};
use model_core::limits::FRAME_BYTES;
use std::alloc::Global;
use words_core::Refusal;

/// The tenant does not hold the slot of the place.
pub const NO_SUCH_SLOT: u32 = 0;
/// The frame of the place is free.
pub const FREE_FRAME: u32 = 1;
/// The place is in a page block.
pub const PAGE_BLOCK: u32 = 2;
/// The place is in a slab.
pub const SLAB: u32 = 3;

/// The block that contains a place: its use, the place of its first byte, and its size in bytes.
#[repr(C)]
#[derive(Clone, Copy, Debug)]
pub struct Block {
    pub usage: u32,
    pub place: u32,
    pub bytes: u32,
}

const NO_SLOT: HeldSlot = HeldSlot {
    slot: 0,
    superblock: 0,
};

const NO_BLOCK: Block = Block {
    usage: NO_SUCH_SLOT,
    place: 0,
    bytes: 0,
};

/// Finds the superblock in a slot of a tenant.
///
/// Fails with `NO_MACHINE`, `NO_TENANT` or `NO_SLOT`.
#[unsafe(no_mangle)]
pub extern "C" fn partmem_find_slot(
    alloc: Global,
    machine: &mut MachineStorage,
    tenant: u32,
    slot: u32,
    found: &mut HeldSlot,
) -> u32
    ensures finds { LooksUp no_slot machine.old.cell.held (λ k outcome. outcome ≡ slot_at k tenant slot) result found.new }
    ensures kept { machine.new.cell.held ≡ machine.old.cell.held }
{
    *found = NO_SLOT;
    let Some(kernel) = machine.kernel() else {
        return NO_MACHINE;
    };
    let outcome = slot_at(kernel, tenant, slot);
    put(outcome, found)
}

fn slot_at(kernel: &Kernel, tenant: u32, slot: u32) -> Result<HeldSlot, Refusal>
    ensures { result ≡ slot_at kernel.now tenant slot }
{
    let Some(t) = kernel.tenant(tenant) else {
        return Err(Refusal::NoTenant);
    };
    let Some(superblock) = kernel.superblock_of(t, slot) else {
        return Err(Refusal::NoSlot);
    };
    Ok(HeldSlot {
        slot,
        superblock: u32::from(superblock),
    })
}

/// Finds the tenant's page block, slab or free frame that contains a place. If the tenant does not hold the slot of the place,
/// finds this slot.
///
/// Fails with `NO_MACHINE` or `NO_TENANT`.
#[unsafe(no_mangle)]
pub extern "C" fn partmem_find_block(
    alloc: Global,
    machine: &mut MachineStorage,
    tenant: u32,
    place: u32,
    found: &mut Block,
) -> u32
    ensures finds { LooksUp no_block machine.old.cell.held (λ k outcome. FindsBlock k tenant place outcome) result found.new }
    ensures kept { machine.new.cell.held ≡ machine.old.cell.held }
{
    *found = NO_BLOCK;
    let Some(kernel) = machine.kernel() else {
        return NO_MACHINE;
    };
    let outcome = block_at(kernel, tenant, place);
    put(outcome, found)
}

fn block_at(kernel: &Kernel, tenant: u32, place: u32) -> Result<Block, Refusal>
    ensures { FindsBlock kernel.now tenant place result }
{
    let t = kernel.tenant(tenant).ok_or(Refusal::NoTenant)?;
    Ok(block_around(kernel, t, place))
}

/// Returns the block that [`partmem_find_block`] finds for a place of an existing tenant.
fn block_around(kernel: &Kernel, t: u8, place: u32) -> Block
    requires { t < kernel.now.tenants }
    ensures { IsBlockAt kernel.now t place result }
{
    laws::is_kernel(kernel);
    let frame = place / FRAME_BYTES;
    let kind = kernel.frame_at(t, frame);
    let (first, order) = frames_around(kernel, t, frame, kind);
    Block {
        usage: use_of(kind),
        place: first * FRAME_BYTES,
        bytes: block_bytes(order),
    }
}

/// Returns the first frame and the order of the taken block that contains the frame, which has this kind. If no taken block
/// contains the frame, returns what [`untaken`] returns.
fn frames_around(kernel: &Kernel, t: u8, frame: u32, kind: FrameKind) -> (u32, u32)
    requires { t < kernel.now.tenants }
    ensures around { AreAround kernel.now t frame kind result }
    ensures first { result.0 ≤ frame }
    ensures order { result.1 ≤ WIDE_ORDER }
{
    kernel.parts_agree();
    let buddy = kernel.buddy();
    buddy.laws();
    match buddy.block_of(t, frame) {
        Some((first, order)) => (first, u32::from(order)),
        None => untaken(kind, frame, kernel.order()),
    }
}

/// Returns the first frame and the order of the frame's slot if the tenant does not hold the slot, and otherwise the frame itself
/// and order 0.
fn untaken(kind: FrameKind, frame: u32, order: u32) -> (u32, u32)
    requires { order ≤ WIDE_ORDER }
    ensures value { result ≡ untaken kind frame order }
    ensures first { result.0 ≤ frame }
    ensures order { result.1 ≤ WIDE_ORDER }
{
    match kind {
        FrameKind::NotHeld => (frame >> order << order, order),
        _ => (frame, 0),
    }
}

/// Returns the use of a frame of this kind.
fn use_of(kind: FrameKind) -> u32
    ensures { result ≡ use_of kind }
{
    match kind {
        FrameKind::NotHeld => NO_SUCH_SLOT,
        FrameKind::Free => FREE_FRAME,
        FrameKind::Page => PAGE_BLOCK,
        FrameKind::Full | FrameKind::Partial | FrameKind::Empty => SLAB,
    }
}

/// Stores the result of a lookup in `to` and returns the status. If the lookup is refused, `to` is unchanged.
#[inline(always)]
pub(crate) fn put<T: Drop>(outcome: Result<T, Refusal>, to: &mut T) -> u32
    ensures { Returns to.old outcome result to.new }
{
    match outcome {
        Ok(found) => {
            *to = found;
            DONE
        }
        Err(refusal) => u32::from(refusal.number()),
    }
}
