//! Lends bytes in place: C gets their address. The calls of this file change nothing, and are not events.

ghost use Rattle.std.specs.Prelude.{◌≡◌};
ghost use Rattle.partmem_c.specs.Finding.{LooksUp, Returns};
ghost use Rattle.kernel_core.specs.Lookups.{RangeAt, PageAround, ObjectAt, found_or_refused, AnswersLookup};
ghost use Rattle.partmem_c.specs.Lends.{no_lent, lent_range, lent_page, lent_object, IsRangeLent, IsWholeBlockLent, IsObjectLentAt, FindsRange, FindsWholeBlock, FindsObject};

use crate::lent::{Lent, lent_of};
use crate::machine_storage::MachineStorage;
use crate::status::{DONE, NO_MACHINE};
use kernel_core::Kernel;
use std::alloc::Global;
use words_core::Refusal;

/// Stores in `to` what is lent, or zeros if the call is refused. Returns the status.
///
/// Callers do not set `to` to zeros first, since each call that succeeds would then write `to` twice.
#[inline(always)]
pub(crate) fn put_lent(outcome: Result<Lent, Refusal>, to: &mut Lent) -> u32
    ensures { Returns no_lent outcome result to.new }
{
    match outcome {
        Ok(lent) => {
            *to = lent;
            DONE
        }
        Err(refusal) => {
            *to = Lent::none();
            u32::from(refusal.number())
        }
    }
}

/// Lends `bytes` bytes from `place` on. They must be one or more bytes inside one live page block or one live object.
///
/// Fails with `NO_MACHINE`, `NO_TENANT` or `OUT_OF_REACH`.
#[unsafe(no_mangle)]
pub extern "C" fn partmem_lend(
    alloc: Global,
    machine: &mut MachineStorage,
    tenant: u32,
    place: u32,
    bytes: u32,
    lent: &mut Lent,
) -> u32
    ensures lends { LooksUp no_lent machine.old.cell.held (λ k outcome. FindsRange k tenant place bytes outcome) result lent.new }
    ensures kept { machine.new.cell.held ≡ machine.old.cell.held }
{
    let Some(kernel) = machine.kernel() else {
        *lent = Lent::none();
        return NO_MACHINE;
    };
    let outcome = lend(kernel, tenant, place, bytes);
    put_lent(outcome, lent)
}

#[inline(always)]
fn lend(kernel: &mut Kernel, tenant: u32, place: u32, bytes: u32) -> Result<Lent, Refusal>
    ensures finds { IsRangeLent kernel.old tenant place bytes result }
    ensures answers { AnswersLookup kernel.old tenant (RangeAt place bytes) (found_or_refused lent_range result) }
    ensures kept { kernel.new ≡ kernel.old }
{
    let span = kernel.span(tenant, place, bytes)?;
    Ok(lent_of(kernel, span))
}

/// Lends the whole live page block that contains a place.
///
/// Fails with `NO_MACHINE`, `NO_TENANT` or `OUT_OF_REACH`.
#[unsafe(no_mangle)]
pub extern "C" fn partmem_lend_block(
    alloc: Global,
    machine: &mut MachineStorage,
    tenant: u32,
    place: u32,
    block: &mut Lent,
) -> u32
    ensures lends { LooksUp no_lent machine.old.cell.held (λ k outcome. FindsWholeBlock k tenant place outcome) result block.new }
    ensures kept { machine.new.cell.held ≡ machine.old.cell.held }
{
    let Some(kernel) = machine.kernel() else {
        *block = Lent::none();
        return NO_MACHINE;
    };
    let outcome = lend_block(kernel, tenant, place);
    put_lent(outcome, block)
}

#[inline(always)]
fn lend_block(kernel: &mut Kernel, tenant: u32, place: u32) -> Result<Lent, Refusal>
    ensures finds { IsWholeBlockLent kernel.old tenant place result }
    ensures answers { AnswersLookup kernel.old tenant (PageAround place) (found_or_refused lent_page result) }
    ensures kept { kernel.new ≡ kernel.old }
{
    let span = kernel.block_span(tenant, place)?;
    Ok(lent_of(kernel, span))
}

/// Lends the cache's live object that begins at a place.
///
/// Fails with `NO_MACHINE`, `NO_TENANT`, `NO_CACHE` or `NOT_AN_OBJECT`.
#[unsafe(no_mangle)]
pub extern "C" fn partmem_lend_object(
    alloc: Global,
    machine: &mut MachineStorage,
    tenant: u32,
    cache: u32,
    place: u32,
    object: &mut Lent,
) -> u32
    ensures lends { LooksUp no_lent machine.old.cell.held (λ k outcome. FindsObject k tenant cache place outcome)
        result object.new }
    ensures kept { machine.new.cell.held ≡ machine.old.cell.held }
{
    let Some(kernel) = machine.kernel() else {
        *object = Lent::none();
        return NO_MACHINE;
    };
    let outcome = lend_object(kernel, tenant, cache, place);
    put_lent(outcome, object)
}

#[inline(always)]
fn lend_object(kernel: &mut Kernel, tenant: u32, cache: u32, place: u32) -> Result<Lent, Refusal>
    ensures finds { IsObjectLentAt kernel.old tenant cache place result }
    ensures answers { AnswersLookup kernel.old tenant (ObjectAt cache place) (found_or_refused (lent_object cache) result) }
    ensures kept { kernel.new ≡ kernel.old }
{
    let span = kernel.object_span(tenant, cache, place)?;
    Ok(lent_of(kernel, span))
}
