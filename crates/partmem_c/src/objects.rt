//! The commands of caches and objects as direct calls.

ghost use Rattle.std.specs.Prelude.{◌≡◌, true, false, None, IfSome, IfOk, IfErr};
ghost use Rattle.model_core.specs.Layouts.{is_pattern};
ghost use Rattle.words_core.specs.Texts.{number_of_refusal};
ghost use Rattle.words_core.specs.declared.event.Event.TheVariants.{Tenant};
ghost use Rattle.words_core.specs.declared.event.Command.TheVariants.{Cache, Destroy, Take, Give, Reap};
ghost use Rattle.partmem_c.specs.Calls.{RunsCall, IsNoEvent, numbers_in_reply, call_status, made_cache, reaped_frames};
ghost use Rattle.partmem_c.specs.Lends.{IsObjectLent, IsObjectOf, TakeLends};

use crate::calls::{block_bytes, call_status, run_command};
use crate::events::status_of_none;
use crate::kinds::{MADE, REAPED};
use crate::lends::put_lent;
use crate::lent::{Lent, lent_of};
use crate::machine_storage::MachineStorage;
use crate::status::{DONE, NO_MACHINE};
use crate::telling::ReplyNumbers;
use kernel_core::Kernel;
use model_core::limits::MAX_PATTERN;
use std::alloc::Global;
use words_core::{Refusal, Request};

/// A new cache: its number, the distance from one object to the next in bytes, the size of a slab in bytes, and the numbers of
/// objects and colours of a slab.
#[repr(C)]
#[derive(Clone, Copy, Debug)]
pub struct MadeCache {
    pub cache: u32,
    pub chunk: u32,
    pub slab_bytes: u32,
    pub objects: u32,
    pub colours: u32,
}

const NO_CACHE: MadeCache = MadeCache {
    cache: 0,
    chunk: 0,
    slab_bytes: 0,
    objects: 0,
    colours: 0,
};

/// Makes a cache of objects of `size` bytes at multiples of `align` bytes. The pattern of 1 to 16 bytes fills each object of a
/// new slab.
///
/// Fails with `NO_MACHINE`, with `NOT_AN_EVENT` if the pattern has 0 bytes or more than 16, or with `NO_TENANT`, `BAD_SIZE`,
/// `BAD_ALIGN` or `NO_CACHE_SLOT`.
#[unsafe(no_mangle)]
pub extern "C" fn partmem_make_cache(
    alloc: Global,
    machine: &mut MachineStorage,
    tenant: u32,
    size: u32,
    align: u32,
    pattern: &[u8],
    made: &mut MadeCache,
) -> u32
    ensures made { is_pattern pattern.now ≡ true
        → RunsCall machine.old.cell.held (Tenant tenant (Cache size align (record { items = pattern.now }))) machine.new.cell.held
        (λ reply. (result ≡ call_status (numbers_in_reply reply)) × (made.new ≡ made_cache (numbers_in_reply reply))) }
    ensures bad_pattern { is_pattern pattern.now ≡ false
        → IsNoEvent machine.old.cell.held machine.new.cell.held result × (made.new ≡ made_cache None) }
{
    if !(1..=MAX_PATTERN).contains(&pattern.len()) {
        *made = NO_CACHE;
        return status_of_none(machine);
    }
    let request = Request::Cache {
        size,
        align,
        pattern,
    };
    let reply = run_command(alloc, machine, tenant, request);
    *made = made_cache(reply);
    call_status(reply)
}

/// Destroys a cache without live objects, and frees its slabs.
///
/// Fails with `NO_MACHINE`, `NO_TENANT`, `NO_CACHE` or `CACHE_IN_USE`.
#[unsafe(no_mangle)]
pub extern "C" fn partmem_destroy_cache(
    alloc: Global,
    machine: &mut MachineStorage,
    tenant: u32,
    cache: u32,
) -> u32
    ensures { RunsCall machine.old.cell.held (Tenant tenant (Destroy cache)) machine.new.cell.held
        (λ reply. result ≡ call_status (numbers_in_reply reply)) }
{
    call_status(run_command(alloc, machine, tenant, Request::Destroy { cache }))
}

/// Takes an object of a cache, and lends it.
///
/// Fails with `NO_MACHINE`, `NO_TENANT`, `NO_CACHE` or `NO_FRAMES`.
#[unsafe(no_mangle)]
pub extern "C" fn partmem_take(
    alloc: Global,
    machine: &mut MachineStorage,
    tenant: u32,
    cache: u32,
    object: &mut Lent,
) -> u32
    ensures runs { RunsCall machine.old.cell.held (Tenant tenant (Take cache)) machine.new.cell.held
        (λ reply. (result ≡ call_status (numbers_in_reply reply)) × IsObjectLent tenant (numbers_in_reply reply) object.new) }
    ensures object { IfSome machine.new.cell.held (λ k. IsObjectOf k tenant cache object.new) }
{
    let Some(kernel) = machine.kernel() else {
        *object = Lent::none();
        return NO_MACHINE;
    };
    let outcome = take_object(kernel, tenant, cache);
    put_lent(outcome, object)
}

#[inline(always)]
fn take_object(kernel: &mut Kernel, tenant: u32, cache: u32) -> Result<Lent, Refusal>
    ensures { TakeLends kernel.old tenant cache kernel.new result }
{
    let span = kernel.take_span(tenant, cache)?;
    Ok(lent_of(kernel, span))
}

/// Gives back the cache's object that begins at a place.
///
/// Fails with `NO_MACHINE`, `NO_TENANT`, `NO_CACHE` or `NOT_AN_OBJECT`.
#[unsafe(no_mangle)]
pub extern "C" fn partmem_give(
    alloc: Global,
    machine: &mut MachineStorage,
    tenant: u32,
    cache: u32,
    place: u32,
) -> u32
    ensures { RunsCall machine.old.cell.held (Tenant tenant (Give cache place)) machine.new.cell.held
        (λ reply. result ≡ call_status (numbers_in_reply reply)) }
{
    let Some(kernel) = machine.kernel() else {
        return NO_MACHINE;
    };
    let outcome = kernel.give_object(tenant, cache, place);
    status_of(outcome)
}

/// Returns the status of a call that returns nothing else: the number of the refusal, or `DONE` if the call was not refused.
#[inline(always)]
fn status_of(outcome: Result<(), Refusal>) -> u32
    ensures done { IfOk outcome (λ given. result ≡ DONE) }
    ensures refused { IfErr outcome (λ refusal. result ≡ number_of_refusal refusal) }
{
    match outcome {
        Ok(()) => DONE,
        Err(refusal) => u32::from(refusal.number()),
    }
}

/// Frees the empty slabs of all caches of the tenant, and sets `frames` to the number of their frames.
///
/// Fails with `NO_MACHINE` or `NO_TENANT`.
#[unsafe(no_mangle)]
pub extern "C" fn partmem_reap(
    alloc: Global,
    machine: &mut MachineStorage,
    tenant: u32,
    frames: &mut u32,
) -> u32
    ensures { RunsCall machine.old.cell.held (Tenant tenant Reap) machine.new.cell.held
        (λ reply. (result ≡ call_status (numbers_in_reply reply)) × (frames.new ≡ reaped_frames (numbers_in_reply reply))) }
{
    let reply = run_command(alloc, machine, tenant, Request::Reap);
    *frames = reaped_frames(reply);
    call_status(reply)
}

/// Returns the new cache in a reply, or zeros if the reply has none.
fn made_cache(reply: Option<ReplyNumbers>) -> MadeCache
    ensures { result ≡ made_cache reply }
{
    match reply {
        Some(numbers) if numbers.kind == MADE => MadeCache {
            cache: numbers.first,
            chunk: numbers.second,
            slab_bytes: block_bytes(numbers.third),
            objects: numbers.fourth,
            colours: numbers.fifth,
        },
        _ => NO_CACHE,
    }
}

/// Returns the number of freed frames in a reply to a reap, or 0 for any other reply.
fn reaped_frames(reply: Option<ReplyNumbers>) -> u32
    ensures { result ≡ reaped_frames reply }
{
    match reply {
        Some(numbers) if numbers.kind == REAPED => numbers.first,
        _ => 0,
    }
}
