//! Why a reply breaks a promise.

ghost use Rattle.std.specs.Prelude.{◌≡◌, ℕ, List, None, option_map};
ghost use Rattle.std.specs.Option.{option_map_or};
ghost use Rattle.words_core.specs.Requests.{body_of_answer};
ghost use Rattle.promise_core.specs.State.{Known};
ghost use Rattle.reply_judge.specs.KnownMachine.{ShowsKnown};
ghost use Rattle.trace_check.specs.Gathered.{Gathers};
ghost use Rattle.trace_check.specs.Reasons.{IsBlockReason, IsReason, IsReasonIn, IsReasonOf, answer_read, bytes_wrong, form_due, left_for, not_busy};
ghost use Rattle.trace_check.specs.Reasons.{read_wrong, slot_idle, table_read, table_wrong, unfit_block, unfit_object};
ghost use Rattle.trace_check.specs.Tables.{table_of};
ghost use Rattle.trace_check.specs.declared.reason.Reason.TheVariants as Why;

use crate::answer::read_answer;
use crate::figure::Figure;
use crate::figures::{report_changed, report_wrong};
use crate::frames::{gives_reason, still_reason};
use crate::gathered::Gathered;
use crate::kinds::{AnswerKind, kind_of_admin, kind_of_command};
use crate::new_cache::layout_reason;
use crate::owners::{owners_reason, pool_wrong};
use crate::shown::MAX_TEXT_BYTES;
use crate::table::read_table;
use crate::taken::{TakenFrame, taken_frame};
use known_holdings::FrameBlock;
use model_core::limits::{MAX_BYTES, MAX_ORDER};
use model_core::owner::Owner;
use promise_core::promise::Promise;
use reply_judge::{BlockFault, Bound, KnownMachine, ObjectFault, Vacancy, WrongByte, WrongFigure};
use words_core::{AdminCommand, Answer, Body, Command, Event, Refusal};

/// Why a reply breaks a promise.
#[derive(Clone, Copy, Debug)]
pub enum Reason {
    /// `Form`: the reply has to go to this tenant, and to be an answer of this kind or a refusal.
    ToTenant {
        tenant: u32,
        kind: AnswerKind,
    },
    /// `Form`: the reply has to go to the administrator, and to be an answer of this kind or a refusal.
    ToAdmin(AnswerKind),
    /// `Form`: the reply has to be the refusal of a tenant that does not exist.
    ToNobody,
    /// `Refusals`: the reply has to be this refusal, or no refusal is due.
    Due(Option<Refusal>),
    /// `Gives`: the page block that is freed.
    Freed(FrameBlock),
    /// `Blocks`: a live page block has a frame of the reply's page block.
    Taken(TakenFrame),
    /// `Blocks`: something else keeps the reply's page block from being allocated.
    Unfit {
        block: FrameBlock,
        fault: BlockFault,
    },
    /// `Owners`: the reply's superblock, or the first one whose owner in the table is wrong, has this owner.
    Owned {
        superblock: u16,
        owner: Owner,
    },
    /// `Owners`: the reply's superblock, or the first one whose owner in the table is wrong, has no owner.
    Unowned(u16),
    /// `Owners`: the reply's superblock does not exist.
    Missing(u16),
    /// `Bytes`: the reply to a read has this wrong byte.
    Wrong(WrongByte),
    /// `Bytes`: the command has this number of bytes.
    Count(u32),
    /// `Objects`: something keeps the object at the place from being taken.
    Object {
        place: u32,
        fault: ObjectFault,
    },
    /// `Room`: this is left for the request.
    Left(Vacancy),
    /// `Busy`: no frame of this slot is taken, and no cache may have an empty slab.
    Idle(u16),
    /// `Busy`: the event is no take-back.
    NotTakeBack,
    /// `Layout`, `Gives`, `Owners` or `Still`: this number of the reply has to be within this bound.
    Figure {
        figure: Figure,
        bound: Bound,
    },
    /// `Report` or `Still`: this number of the report has to be within this bound.
    Report(WrongFigure),
    /// `Owners`: the tenant holds this slot already.
    Held(u16),
    /// `Layout`: the tenant has a cache with this number already.
    Existing(u8),
}

/// Returns why the reply to the event breaks the promise. `reply` has the bytes that were read as the reply. Returns `None` if no
/// reason is worked out for this promise and this reply.
pub(crate) fn reason_for(
    machine: &KnownMachine,
    promise: Promise,
    event: &Event,
    reply: &Gathered<MAX_TEXT_BYTES>,
) -> Option<Reason>
    ensures { (text : List ℕ) (w : Known) → Gathers MAX_TEXT_BYTES text reply.now → ShowsKnown machine.now w
        → IsReason promise w event.now (answer_read text) (table_read text) result }
{
    match promise {
        Promise::Form => Some(form_due(machine, event)),
        Promise::Refusals => Some(Reason::Due(machine.due(event))),
        _ => reason_in_reply(machine, promise, event, reply),
    }
}

/// Returns whom the reply to the event has to go to, and the kind of answer that the event has.
fn form_due(machine: &KnownMachine, event: &Event) -> Reason
    ensures { (w : Known) → ShowsKnown machine.now w → result ≡ form_due w event.now }
{
    match event {
        Event::Tenant(tenant, command) => match machine.caches_of(*tenant) {
            Some(_) => Reason::ToTenant {
                tenant: *tenant,
                kind: kind_of_command(command),
            },
            None => Reason::ToNobody,
        },
        Event::Admin(command) => Reason::ToAdmin(kind_of_admin(command)),
    }
}

/// Does the same as [`reason_for`] for the other promises.
fn reason_in_reply(
    machine: &KnownMachine,
    promise: Promise,
    event: &Event,
    reply: &Gathered<MAX_TEXT_BYTES>,
) -> Option<Reason>
    ensures { (text : List ℕ) (w : Known) → Gathers MAX_TEXT_BYTES text reply.now → ShowsKnown machine.now w
        → IsReasonIn promise w event.now (answer_read text) (table_read text) result }
{
    let text = reply.whole()?;
    let mut buffer = [0; MAX_BYTES];
    match read_answer(text, &mut buffer) {
        Some((_, answer)) => reason_in_answer(machine, promise, event, &answer),
        None => reason_in_table(machine, promise, event, text),
    }
}

/// Returns why the report or the table of owners with this text breaks the promise. Returns `None` if the text is neither. A table
/// needs a large buffer, which is cleared when this function is entered, so the function is not inlined.
#[cold]
#[inline(never)]
fn reason_in_table(
    machine: &KnownMachine,
    promise: Promise,
    event: &Event,
    text: &[u8],
) -> Option<Reason>
    ensures { (w : Known) → ShowsKnown machine.now w
        → result ≡ option_map_or (λ told. table_wrong promise w event.now told.body) (table_of text.now) None }
{
    let table = read_table(text)?;
    table_wrong(machine, promise, event, &table.body)
}

/// Returns why the report or the table of owners breaks the promise.
fn table_wrong(
    machine: &KnownMachine,
    promise: Promise,
    event: &Event,
    table: &Body,
) -> Option<Reason>
    ensures { (w : Known) → ShowsKnown machine.now w → result ≡ table_wrong promise w event.now table.now }
{
    match (promise, event, table) {
        (Promise::Owners, Event::Admin(AdminCommand::Pool), Body::Owners(owners)) => {
            pool_wrong(machine, owners.as_slice())
        }
        (Promise::Report, Event::Tenant(tenant, Command::Report), Body::Report(report)) => {
            report_wrong(machine, *tenant, report)
        }
        (Promise::Still, Event::Tenant(tenant, Command::Report), Body::Report(report)) => {
            report_changed(machine, *tenant, report)
        }
        _ => None,
    }
}

/// Returns why the answer to the event breaks the promise.
fn reason_in_answer(
    machine: &KnownMachine,
    promise: Promise,
    event: &Event,
    answer: &Answer<'_>,
) -> Option<Reason>
    ensures { (w : Known) → ShowsKnown machine.now w → IsReasonOf promise w event.now (body_of_answer answer.now) result }
{
    match promise {
        Promise::Blocks => block_reason(machine, event, answer),
        Promise::Gives => gives_reason(machine, event, answer),
        Promise::Owners => owners_reason(machine, event, answer),
        Promise::Bytes => bytes_reason(machine, event, answer),
        Promise::Objects => object_reason(machine, event, answer),
        Promise::Room => left_reason(machine, event),
        Promise::Busy => busy_reason(machine, event),
        Promise::Layout => layout_reason(machine, event, answer),
        Promise::Still => still_reason(machine, event, answer),
        _ => None,
    }
}

/// Returns why the answer's page block may not be allocated.
fn block_reason(machine: &KnownMachine, event: &Event, answer: &Answer<'_>) -> Option<Reason>
    ensures { (w : Known) → ShowsKnown machine.now w → IsBlockReason w event.now (body_of_answer answer.now) result }
{
    match taken_frame(machine, event, answer) {
        Some(taken) => Some(Reason::Taken(taken)),
        None => unfit_reason(machine, event, answer),
    }
}

/// Returns what keeps the answer's page block from being allocated, if it shares no frame with a page block.
fn unfit_reason(machine: &KnownMachine, event: &Event, answer: &Answer<'_>) -> Option<Reason>
    ensures { (w : Known) → ShowsKnown machine.now w → result ≡ unfit_block w event.now (body_of_answer answer.now) }
{
    match (event, answer) {
        (Event::Tenant(tenant, Command::Alloc { order }), Answer::Frame(frame)) => {
            if *order > u32::from(MAX_ORDER) {
                return None;
            }
            let block = FrameBlock::new(*frame, *order as u8);
            let fault = machine.block_fault(*tenant, &block)?;
            Some(Reason::Unfit { block, fault })
        }
        _ => None,
    }
}

/// Returns what is wrong with the bytes of the answer, or with their number.
fn bytes_reason(machine: &KnownMachine, event: &Event, answer: &Answer<'_>) -> Option<Reason>
    ensures { (w : Known) → ShowsKnown machine.now w → result ≡ bytes_wrong w event.now (body_of_answer answer.now) }
{
    match (event, answer) {
        (Event::Tenant(tenant, Command::Read { place, len }), Answer::Bytes(bytes)) => {
            read_wrong(machine, *tenant, *place, *len, bytes)
        }
        (Event::Tenant(_, Command::Write { bytes, .. }), Answer::Written(_)) => {
            Some(Reason::Count(bytes.len() as u32))
        }
        _ => None,
    }
}

/// Returns what is wrong with the bytes that a read of the tenant returned, or with their number.
fn read_wrong(
    machine: &KnownMachine,
    tenant: u32,
    place: u32,
    len: u32,
    bytes: &[u8],
) -> Option<Reason>
    ensures { (w : Known) → ShowsKnown machine.now w → result ≡ read_wrong w tenant place len bytes.now }
{
    if bytes.len() != len as usize {
        return Some(Reason::Count(len));
    }
    match machine.wrong_byte(tenant, place, len, bytes) {
        Some(wrong) => Some(Reason::Wrong(wrong)),
        None => None,
    }
}

/// Returns what keeps the answer's object from being taken.
fn object_reason(machine: &KnownMachine, event: &Event, answer: &Answer<'_>) -> Option<Reason>
    ensures { (w : Known) → ShowsKnown machine.now w → result ≡ unfit_object w event.now (body_of_answer answer.now) }
{
    match (event, answer) {
        (Event::Tenant(tenant, Command::Take { cache }), Answer::Object(place)) => {
            let fault = machine.object_fault(*tenant, *cache, *place)?;
            Some(Reason::Object {
                place: *place,
                fault,
            })
        }
        _ => None,
    }
}

/// Returns what is left for the event, as a reason.
fn left_reason(machine: &KnownMachine, event: &Event) -> Option<Reason>
    ensures { (w : Known) → ShowsKnown machine.now w
        → result ≡ option_map (λ vacancy. Why.Left vacancy) (left_for w event.now) }
{
    match left_for(machine, event) {
        Some(vacancy) => Some(Reason::Left(vacancy)),
        None => None,
    }
}

/// Returns what is left for the event, so that it may not be refused for lack of frames.
fn left_for(machine: &KnownMachine, event: &Event) -> Option<Vacancy>
    ensures { (w : Known) → ShowsKnown machine.now w → result ≡ left_for w event.now }
{
    match event {
        Event::Tenant(tenant, Command::Alloc { order }) => {
            if *order > u32::from(MAX_ORDER) {
                return None;
            }
            machine.left_for_block(*tenant, *order as u8)
        }
        Event::Tenant(tenant, Command::Take { cache }) => {
            machine.left_for_object(*tenant, *cache)
        }
        _ => None,
    }
}

/// Returns why the event may not be refused because a slot is busy.
fn busy_reason(machine: &KnownMachine, event: &Event) -> Option<Reason>
    ensures { (w : Known) → ShowsKnown machine.now w → result ≡ not_busy w event.now }
{
    match event {
        Event::Admin(AdminCommand::TakeBack { tenant, slot }) => {
            slot_idle(machine, *tenant, *slot)
        }
        _ => Some(Reason::NotTakeBack),
    }
}

/// Returns why the slot of the tenant cannot be busy.
fn slot_idle(machine: &KnownMachine, tenant: u32, slot: u32) -> Option<Reason>
    ensures { (w : Known) → ShowsKnown machine.now w → result ≡ slot_idle w tenant slot }
{
    match machine.idle_slot(tenant, slot) {
        Some(slot) => Some(Reason::Idle(slot)),
        None => None,
    }
}
