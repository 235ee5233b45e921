//! Which number of the reply to a grant, a move, a take-back or a reset is wrong, and which row of the table of owners.

ghost use Rattle.std.specs.Prelude.{◌≡◌, ◌+◌, ◌-◌, ◌*◌, ◌/◌, ◌^◌, ◌≤◌, slice_get};
ghost use Rattle.std.specs.Option.{option_or};
ghost use Rattle.model_core.specs.declared.limits.TheConstants.{FRAME_BYTES, MAX_ORDER};
ghost use Rattle.words_core.specs.Requests.{body_of_answer};
ghost use Rattle.promise_core.specs.State.{Known};
ghost use Rattle.reply_judge.specs.KnownMachine.{ShowsKnown};
ghost use Rattle.trace_check.specs.Owners.{grant_wrong, move_wrong, not_due, reset_wrong, slot_behind, slot_wrong};
ghost use Rattle.trace_check.specs.Reasons.{change_wrong, not_gained, not_lost, owner_in_way, owner_wrong, pool_wrong};

use crate::figure::Figure;
use crate::reason::Reason;
use model_core::limits::FRAME_BYTES;
use model_core::owner::Owner;
use reply_judge::{Bound, KnownMachine};
use words_core::{AdminCommand, Answer, Event};

/// Returns the owner of the answer's superblock, if it is in the way, or else which other number of the answer is wrong.
pub(crate) fn owners_reason(
    machine: &KnownMachine,
    event: &Event,
    answer: &Answer<'_>,
) -> Option<Reason>
    ensures { (w : Known) → ShowsKnown machine.now w → result
        ≡ option_or (owner_in_way w event.now (body_of_answer answer.now)) (change_wrong w event.now (body_of_answer answer.now)) }
{
    match owner_reason(machine, event, answer) {
        Some(reason) => Some(reason),
        None => change_wrong(machine, event, answer),
    }
}

/// Returns the owner of the superblock that the answer reports, if a tenant may not get it or lose it.
fn owner_reason(machine: &KnownMachine, event: &Event, answer: &Answer<'_>) -> Option<Reason>
    ensures { (w : Known) → ShowsKnown machine.now w → result ≡ owner_in_way w event.now (body_of_answer answer.now) }
{
    match (event, answer) {
        (Event::Admin(AdminCommand::Grant { .. }), Answer::Granted { superblock, .. }) => {
            not_gained(machine, *superblock)
        }
        (Event::Admin(AdminCommand::Move { .. }), Answer::Moved { superblock, .. }) => {
            not_gained(machine, *superblock)
        }
        (Event::Admin(AdminCommand::TakeBack { .. }), Answer::TakenBack(superblock)) => {
            not_lost(machine, *superblock)
        }
        _ => None,
    }
}

/// Returns why a tenant may not get the superblock.
fn not_gained(machine: &KnownMachine, superblock: u16) -> Option<Reason>
    ensures { (w : Known) → ShowsKnown machine.now w → result ≡ not_gained superblock (slice_get w.owners superblock) }
{
    match machine.owner_of(superblock) {
        Some(Some(owner)) => Some(Reason::Owned { superblock, owner }),
        Some(None) => None,
        None => Some(Reason::Missing(superblock)),
    }
}

/// Returns why a tenant may not lose the superblock.
fn not_lost(machine: &KnownMachine, superblock: u16) -> Option<Reason>
    ensures { (w : Known) → ShowsKnown machine.now w → result ≡ not_lost superblock (slice_get w.owners superblock) }
{
    match machine.owner_of(superblock) {
        Some(Some(owner)) => Some(Reason::Owned { superblock, owner }),
        Some(None) => Some(Reason::Unowned(superblock)),
        None => Some(Reason::Missing(superblock)),
    }
}

/// Returns what is wrong with the table of owners.
pub(crate) fn pool_wrong(machine: &KnownMachine, table: &[Option<Owner>]) -> Option<Reason>
    ensures { (w : Known) → ShowsKnown machine.now w → result ≡ pool_wrong w table.now }
{
    let due = machine.superblocks() as u64;
    match not_due(Figure::Superblocks, due, table.len() as u64) {
        Some(reason) => Some(reason),
        None => owner_wrong(machine, table),
    }
}

/// Returns the owner of the first superblock whose owner in the table is wrong.
fn owner_wrong(machine: &KnownMachine, table: &[Option<Owner>]) -> Option<Reason>
    ensures { (w : Known) → ShowsKnown machine.now w → result ≡ owner_wrong w table.now }
{
    not_lost(machine, machine.wrong_owner(table)?)
}

/// Returns which number of the answer to a grant, a move or a reset is wrong, if the superblock is not.
fn change_wrong(machine: &KnownMachine, event: &Event, answer: &Answer<'_>) -> Option<Reason>
    ensures { (w : Known) → ShowsKnown machine.now w → result ≡ change_wrong w event.now (body_of_answer answer.now) }
{
    match (event, answer) {
        (Event::Admin(AdminCommand::Grant { tenant: t }), Answer::Granted { tenant, slot, .. }) => {
            grant_wrong(machine, *t, *tenant, *slot)
        }
        (
            Event::Admin(AdminCommand::Move { tenant: t, slot }),
            Answer::Moved {
                tenant,
                slot: named,
                ..
            },
        ) => { move_wrong(*t, *slot, *tenant, *named) }
        (
            Event::Admin(AdminCommand::Reset { tenant: t }),
            Answer::WasReset {
                tenant,
                superblocks,
            },
        ) => { reset_wrong(machine, *t, *tenant, *superblocks) }
        _ => None,
    }
}

/// Returns what is wrong with the numbers of tenant and slot in the answer to a grant to tenant `t`.
fn grant_wrong(machine: &KnownMachine, t: u32, tenant: u8, slot: u16) -> Option<Reason>
    ensures { (w : Known) → ShowsKnown machine.now w → result ≡ grant_wrong w t tenant slot }
{
    match not_due(Figure::Tenant, t.into(), tenant.into()) {
        Some(reason) => Some(reason),
        None => slot_wrong(machine, t, slot),
    }
}

/// Returns what is wrong with the numbers of tenant and slot in the answer to a move of a slot of tenant `t`.
fn move_wrong(t: u32, slot: u32, tenant: u8, named: u16) -> Option<Reason>
    ensures { result ≡ move_wrong t slot tenant named }
{
    match not_due(Figure::Tenant, t.into(), tenant.into()) {
        Some(reason) => Some(reason),
        None => not_due(Figure::Slot, slot.into(), named.into()),
    }
}

/// Returns what is wrong with the numbers of the answer to a reset of tenant `t`.
fn reset_wrong(machine: &KnownMachine, t: u32, tenant: u8, superblocks: u16) -> Option<Reason>
    ensures { (w : Known) → ShowsKnown machine.now w → result ≡ reset_wrong w t tenant superblocks }
{
    match not_due(Figure::Tenant, t.into(), tenant.into()) {
        Some(reason) => Some(reason),
        None => {
            let due = machine.superblocks_of(t) as u64;
            not_due(Figure::Superblocks, due, superblocks.into())
        }
    }
}

/// Returns the number that is due, if the answer has another one.
fn not_due(figure: Figure, due: u64, told: u64) -> Option<Reason>
    ensures { result ≡ not_due figure due told }
{
    if told == due {
        return None;
    }
    Some(Reason::Figure {
        figure,
        bound: Bound::Exactly(due.into()),
    })
}

/// Returns why the slot may not be granted to the tenant.
fn slot_wrong(machine: &KnownMachine, tenant: u32, slot: u16) -> Option<Reason>
    ensures { (w : Known) → ShowsKnown machine.now w → result ≡ slot_wrong w tenant slot }
{
    if machine.holds_slot(tenant, slot.into()) {
        return Some(Reason::Held(slot));
    }
    slot_behind(machine.order(), slot)
}

/// Returns the last slot whose bytes have places below `2^32`, if the slot is behind it. Slots have `2^order` frames.
#[tactic(auto, unfolding(crate::specs::Owners::slot_behind))]
fn slot_behind(order: u8, slot: u16) -> Option<Reason>
    requires { order ≤ MAX_ORDER }
    ensures { result ≡ slot_behind order slot }
{
    let slot_bytes = (1u64 << order) * u64::from(FRAME_BYTES);
    if (u64::from(slot) + 1) * slot_bytes <= 1u64 << 32 {
        return None;
    }
    Some(Reason::Figure {
        figure: Figure::Slot,
        bound: Bound::AtMost(((1u64 << 32) / slot_bytes - 1).into()),
    })
}
