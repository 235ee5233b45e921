//! What the direct calls share: they run the event of their command, and return the status for its reply.

ghost use Rattle.std.specs.Prelude.{◌≡◌, ◌≢◌, false};
ghost use Rattle.words_core.specs.Requests.{command_of, IsAskable, asks_bytes};
ghost use Rattle.words_core.specs.declared.event.Event.TheVariants.{Tenant, Admin};
ghost use Rattle.words_core.specs.declared.event.AdminCommand.TheVariants.{Pool};
ghost use Rattle.partmem_c.specs.Calls.{RunsCall, numbers_in_reply, call_status, block_bytes};

use crate::events::run;
use crate::kinds::REFUSED;
use crate::machine_storage::MachineStorage;
use crate::status::{DONE, NO_MACHINE};
use crate::telling::{ReplyNumbers, numbers_of_answer};
use model_core::limits::{FRAME_BYTES, WIDE_ORDER};
use std::alloc::Global;
use words_core::{AdminCommand, Request};

/// Runs a tenant's command other than a read, and returns the numbers of its reply, or `None` if there is no machine.
#[inline(always)]
pub(crate) fn run_command(
    alloc: Global,
    machine: &mut MachineStorage,
    tenant: u32,
    request: Request<'_>,
) -> Option<ReplyNumbers>
    requires askable { IsAskable request }
    requires apart { asks_bytes request ≡ false }
    ensures { RunsCall machine.old.cell.held (Tenant tenant (command_of request.entry)) machine.new.cell.held
        (λ reply. result ≡ numbers_in_reply reply) }
{
    let Some(kernel) = machine.kernel() else {
        return None;
    };
    let numbers = run(kernel, tenant, request);
    Some(numbers)
}

/// Runs a command of the administrator other than `pool`, and returns the numbers of its reply, or `None` if there is no machine.
pub(crate) fn run_admin_command(
    alloc: Global,
    machine: &mut MachineStorage,
    command: AdminCommand,
) -> Option<ReplyNumbers>
    requires { command ≢ Pool }
    ensures { RunsCall machine.old.cell.held (Admin command) machine.new.cell.held (λ reply. result ≡ numbers_in_reply reply) }
{
    let Some(kernel) = machine.kernel() else {
        return None;
    };
    let numbers = numbers_of_answer(kernel.administer(&command).unwrap());
    Some(numbers)
}

/// Returns the status of a call with this reply: `NO_MACHINE` if there is no reply, the number of the refusal if the reply is a
/// refusal, and otherwise `DONE`.
#[inline(always)]
pub(crate) fn call_status(reply: Option<ReplyNumbers>) -> u32
    ensures { result ≡ call_status reply }
{
    match reply {
        None => NO_MACHINE,
        Some(numbers) if numbers.kind == REFUSED => numbers.first,
        Some(_) => DONE,
    }
}

/// Returns the number of bytes in a block of this order. An order above `WIDE_ORDER` counts as `WIDE_ORDER`.
#[inline(always)]
pub(crate) fn block_bytes(order: u32) -> u32
    ensures { result ≡ block_bytes order }
{
    FRAME_BYTES << order.min(u32::from(WIDE_ORDER))
}
