//! The commands of page blocks as direct calls.

ghost use Rattle.std.specs.Prelude.{◌≡◌, ℕ};
ghost use Rattle.words_core.specs.declared.event.Event.TheVariants.{Tenant};
ghost use Rattle.words_core.specs.declared.event.Command.TheVariants.{Alloc, Free};
ghost use Rattle.partmem_c.specs.Calls.{RunsCall, numbers_in_reply, call_status, frame_at_place};
ghost use Rattle.partmem_c.specs.Lends.{IsBlockLent, AllocLends};

use crate::calls::{call_status, run_command};
use crate::lends::put_lent;
use crate::lent::{Lent, lent_of};
use crate::machine_storage::MachineStorage;
use crate::status::NO_MACHINE;
use kernel_core::Kernel;
use model_core::limits::FRAME_BYTES;
use std::alloc::Global;
use words_core::{Refusal, Request};

/// A number above that of any frame of any tenant.
const NO_FRAME: u32 = 1 << 20;

/// Allocates a page block of `2^order` frames, and lends it.
///
/// Fails with `NO_MACHINE`, `NO_TENANT`, `BAD_ORDER` or `NO_FRAMES`.
#[unsafe(no_mangle)]
pub extern "C" fn partmem_alloc(
    alloc: Global,
    machine: &mut MachineStorage,
    tenant: u32,
    order: u32,
    block: &mut Lent,
) -> u32
    ensures { RunsCall machine.old.cell.held (Tenant tenant (Alloc order)) machine.new.cell.held
        (λ reply. (result ≡ call_status (numbers_in_reply reply)) × IsBlockLent tenant order (numbers_in_reply reply) block.new) }
{
    let Some(kernel) = machine.kernel() else {
        *block = Lent::none();
        return NO_MACHINE;
    };
    let outcome = alloc_block(kernel, tenant, order);
    put_lent(outcome, block)
}

#[inline(always)]
fn alloc_block(kernel: &mut Kernel, tenant: u32, order: u32) -> Result<Lent, Refusal>
    ensures { AllocLends kernel.old tenant order kernel.new result }
{
    let span = kernel.alloc_span(tenant, order)?;
    Ok(lent_of(kernel, span))
}

/// Frees the page block that begins at a place.
///
/// Fails with `NO_MACHINE`, `NO_TENANT` or `NOT_A_BLOCK`.
#[unsafe(no_mangle)]
pub extern "C" fn partmem_free(
    alloc: Global,
    machine: &mut MachineStorage,
    tenant: u32,
    place: u32,
) -> u32
    ensures { RunsCall machine.old.cell.held (Tenant tenant (Free (frame_at_place place))) machine.new.cell.held
        (λ reply. result ≡ call_status (numbers_in_reply reply)) }
{
    let frame = frame_at_place(place);
    call_status(run_command(alloc, machine, tenant, Request::Free { frame }))
}

/// Returns the number of the frame that begins at a place. If no frame begins there, returns a number above that of any frame.
#[inline(always)]
fn frame_at_place(place: u32) -> u32
    ensures { result ≡ frame_at_place place }
{
    place / FRAME_BYTES + place % FRAME_BYTES * NO_FRAME
}
