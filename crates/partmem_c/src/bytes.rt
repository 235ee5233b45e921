//! Reads and writes of at most 64 bytes as direct calls.

ghost use Rattle.std.specs.Prelude.{◌≡◌, ◌≢◌, true, false, length, drop};
ghost use Rattle.words_core.specs.declared.event.Event.TheVariants.{Tenant};
ghost use Rattle.words_core.specs.declared.event.Command.TheVariants.{Read, Write};
ghost use Rattle.partmem_c.specs.Calls.{RunsCall, IsNoEvent, ReadsOver, bytes_in_reply, numbers_in_reply, call_status};
ghost use Rattle.partmem_c.specs.Calls.{read_over, read_length, is_writable};

use crate::calls::{call_status, run_command};
use crate::events::status_of_none;
use crate::machine_storage::MachineStorage;
use crate::status::DONE;
use crate::telling::{ReplyNumbers, bytes_in_reply, numbers_of_answer};
use kernel_core::Kernel;
use model_core::limits::MAX_BYTES;
use std::alloc::Global;
use words_core::{Answer, Refusal, Request};

/// Fills `to`, which has 1 to 64 bytes, with the bytes of a live page block or a live object from `place` on.
///
/// Fails with `NO_MACHINE`, `NO_TENANT`, `BAD_LENGTH` or `OUT_OF_REACH`. Then `to` is unchanged, whatever its length.
#[unsafe(no_mangle)]
pub extern "C" fn partmem_read(
    alloc: Global,
    machine: &mut MachineStorage,
    tenant: u32,
    place: u32,
    to: &mut [u8],
) -> u32
    ensures read { RunsCall machine.old.cell.held (Tenant tenant (Read place (read_length (length to.old)))) machine.new.cell.held
        (λ reply. (result ≡ call_status (numbers_in_reply reply)) × (to.new ≡ read_over (bytes_in_reply reply) to.old)) }
    ensures few { drop MAX_BYTES to.new ≡ drop MAX_BYTES to.old }
    ensures not_done { result ≢ DONE → to.new ≡ to.old }
{
    let Some(kernel) = machine.kernel() else {
        return call_status(None);
    };
    let len = length_of(to);
    let numbers = read(kernel, tenant, place, len, to);
    call_status(Some(numbers))
}

/// Returns the number of bytes that a read into `to` requests.
#[inline(always)]
fn length_of(to: &[u8]) -> u32
    ensures { result ≡ read_length (length to.now) }
{
    u32::try_from(to.len()).unwrap_or(u32::MAX)
}

/// Runs a read, copies the bytes of the reply to the front of `to`, and returns the numbers of the reply.
#[inline(always)]
fn read(kernel: &mut Kernel, tenant: u32, place: u32, len: u32, to: &mut [u8]) -> ReplyNumbers
    ensures { ReadsOver kernel.old (Tenant tenant (Read place len)) kernel.new result to.old to.new }
{
    match kernel.ask(tenant, Request::Read { place, len }) {
        Some((_, answer)) => {
            put_over(bytes_in_reply(answer), to);
            numbers_of_answer(answer)
        }
        None => numbers_of_answer(Answer::Refused(Refusal::NoTenant)),
    }
}

/// Copies bytes to the front of `to`, as many as fit.
#[inline(always)]
fn put_over(bytes: &[u8], to: &mut [u8])
    ensures { to.new ≡ read_over bytes.now to.old }
{
    let count = bytes.len().min(to.len());
    to[..count].copy_from_slice(&bytes[..count]);
}

/// Copies 1 to 64 bytes to a live page block or a live object, from `place` on.
///
/// Fails with `NO_MACHINE`, with `NOT_AN_EVENT` if there are 0 bytes or more than 64, with `NO_TENANT` or with `OUT_OF_REACH`.
#[unsafe(no_mangle)]
pub extern "C" fn partmem_write(
    alloc: Global,
    machine: &mut MachineStorage,
    tenant: u32,
    place: u32,
    from: &[u8],
) -> u32
    ensures written { is_writable from.now ≡ true
        → RunsCall machine.old.cell.held (Tenant tenant (Write place (record { items = from.now }))) machine.new.cell.held
        (λ reply. result ≡ call_status (numbers_in_reply reply)) }
    ensures bad_length { is_writable from.now ≡ false → IsNoEvent machine.old.cell.held machine.new.cell.held result }
{
    if !(1..=MAX_BYTES).contains(&from.len()) {
        return status_of_none(machine);
    }
    let request = Request::Write { place, bytes: from };
    call_status(run_command(alloc, machine, tenant, request))
}
