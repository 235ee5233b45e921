//! The administrator's commands as direct calls: grants, moves, take-backs and resets.

ghost use Rattle.std.specs.Prelude.{◌≡◌, ℕ};
ghost use Rattle.words_core.specs.declared.event.Event.TheVariants.{Admin};
ghost use Rattle.words_core.specs.declared.event.AdminCommand.TheVariants.{Grant, TakeBack, Reset, Move};
ghost use Rattle.partmem_c.specs.Calls.{RunsCall, numbers_in_reply, call_status, returned_slot};

use crate::calls::{call_status, run_admin_command};
use crate::kinds::{GRANTED, MOVED};
use crate::machine_storage::MachineStorage;
use crate::telling::ReplyNumbers;
use std::alloc::Global;
use words_core::AdminCommand;

/// A slot of a tenant, and the superblock in it.
#[repr(C)]
#[derive(Clone, Copy, Debug)]
pub struct HeldSlot {
    pub slot: u32,
    pub superblock: u32,
}

/// Grants the tenant the lowest-numbered superblock that has no owner, in the lowest slot that the tenant does not hold.
///
/// Fails with `NO_MACHINE`, `NO_TENANT` or `POOL_EMPTY`.
#[unsafe(no_mangle)]
pub extern "C" fn partmem_grant(
    alloc: Global,
    machine: &mut MachineStorage,
    tenant: u32,
    granted: &mut HeldSlot,
) -> u32
    ensures { RunsCall machine.old.cell.held (Admin (Grant tenant)) machine.new.cell.held
        (λ reply. (result ≡ call_status (numbers_in_reply reply)) × (granted.new ≡ returned_slot GRANTED (numbers_in_reply reply))) }
{
    let reply = run_admin_command(alloc, machine, AdminCommand::Grant { tenant });
    *granted = returned_slot(GRANTED, reply);
    call_status(reply)
}

/// Takes back a slot of the tenant, if no frame of the slot is in a page block or a slab.
///
/// Fails with `NO_MACHINE`, `NO_TENANT`, `NO_SLOT` or `SLOT_BUSY`.
#[unsafe(no_mangle)]
pub extern "C" fn partmem_take_back(
    alloc: Global,
    machine: &mut MachineStorage,
    tenant: u32,
    slot: u32,
) -> u32
    ensures { RunsCall machine.old.cell.held (Admin (TakeBack tenant slot)) machine.new.cell.held
        (λ reply. result ≡ call_status (numbers_in_reply reply)) }
{
    call_status(run_admin_command(alloc, machine, AdminCommand::TakeBack { tenant, slot }))
}

/// Replaces the superblock in a slot of the tenant with the lowest-numbered superblock that has no owner. All bytes of the slot
/// are kept.
///
/// Fails with `NO_MACHINE`, `NO_TENANT`, `NO_SLOT` or `POOL_EMPTY`.
#[unsafe(no_mangle)]
pub extern "C" fn partmem_move(
    alloc: Global,
    machine: &mut MachineStorage,
    tenant: u32,
    slot: u32,
    moved: &mut HeldSlot,
) -> u32
    ensures { RunsCall machine.old.cell.held (Admin (Move tenant slot)) machine.new.cell.held
        (λ reply. (result ≡ call_status (numbers_in_reply reply)) × (moved.new ≡ returned_slot MOVED (numbers_in_reply reply))) }
{
    let reply = run_admin_command(alloc, machine, AdminCommand::Move { tenant, slot });
    *moved = returned_slot(MOVED, reply);
    call_status(reply)
}

/// Takes back everything that the tenant has: its page blocks, caches and slots.
///
/// Fails with `NO_MACHINE` or `NO_TENANT`.
#[unsafe(no_mangle)]
pub extern "C" fn partmem_reset(alloc: Global, machine: &mut MachineStorage, tenant: u32) -> u32
    ensures { RunsCall machine.old.cell.held (Admin (Reset tenant)) machine.new.cell.held
        (λ reply. result ≡ call_status (numbers_in_reply reply)) }
{
    call_status(run_admin_command(alloc, machine, AdminCommand::Reset { tenant }))
}

/// Returns the slot and the superblock in a reply of this kind. Both are 0 if there is no reply, or if the reply is of another
/// kind.
fn returned_slot(kind: u32, reply: Option<ReplyNumbers>) -> HeldSlot
    ensures { result ≡ returned_slot kind reply }
{
    match reply {
        Some(numbers) if numbers.kind == kind => HeldSlot {
            slot: numbers.second,
            superblock: numbers.third,
        },
        _ => HeldSlot {
            slot: 0,
            superblock: 0,
        },
    }
}
