//! Runs events that are given as numbers, one at a time.

ghost use Rattle.std.specs.Prelude.{◌≡◌, ◌≢◌, ◌<◌, ◌≤◌, ◌^◌, ℕ, true, false, List, length, Some, IfSome, is_some, if◌then◌else◌};
ghost use Rattle.words_core.specs.Requests.{command_of, IsAskable, asks_bytes};
ghost use Rattle.words_core.specs.declared.event.Event.TheVariants as On;
ghost use Rattle.words_core.specs.declared.event.Event.TheVariants.{Tenant};
ghost use Rattle.words_core.specs.declared.event.Command.TheVariants.{Report};
ghost use Rattle.words_core.specs.declared.event.AdminCommand.TheVariants as Do;
ghost use Rattle.kernel_core.specs.Steps.{HasPattern};
ghost use Rattle.partmem_c.specs.Events.{requested_event, machine_status, status_of_event, event_status, AnswersEvent, RunsEvent};
ghost use Rattle.partmem_c.specs.Events.{RunsApart, IsNothingDone, ChangesNothing};
ghost use Rattle.partmem_c.specs.Events.{some_bytes, admin_command_of, requested_command, is_plain};

use crate::kinds::NOTHING;
use crate::lines::put;
use crate::machine_storage::MachineStorage;
use crate::status::{BUFFER_TOO_SMALL, DONE, NO_MACHINE, NOT_AN_EVENT};
use crate::telling::{
    ReplyNumbers, bytes_in_reply, numbers_of_answer, numbers_of_owners, numbers_of_report,
};
use arrayvec::ArrayVec;
use kernel_core::Kernel;
use model_core::limits::{MAX_BYTES, MAX_PATTERN};
use std::alloc::Global;
use words_core::{AdminCommand, Answer, Command, Event, Refusal, Request};

/// The administrator grants the tenant a superblock.
pub const GRANT: u32 = 1;
/// The administrator takes back slot `first` of the tenant.
pub const TAKE_BACK: u32 = 2;
/// The administrator takes back everything that the tenant has.
pub const RESET: u32 = 3;
/// The administrator moves slot `first` of the tenant to another superblock.
pub const MOVE: u32 = 4;
/// The administrator requests the table of owners. The reply has only the number of superblocks.
pub const POOL: u32 = 5;
/// The tenant requests a page block of order `first`.
pub const ALLOC: u32 = 6;
/// The tenant frees the page block that begins at frame `first`.
pub const FREE: u32 = 7;
/// The tenant reads `second` bytes, 1 to 64, from place `first` on. A read of any other number of bytes is also an event, but it
/// is refused.
pub const READ: u32 = 8;
/// The tenant writes the 1 to 64 bytes that are passed, from place `first` on.
pub const WRITE: u32 = 9;
/// The tenant makes a cache of objects of `first` bytes, aligned to `second`. The 1 to 16 bytes that are passed are the pattern
/// of its objects.
pub const CACHE: u32 = 10;
/// The tenant destroys cache `first`.
pub const DESTROY: u32 = 11;
/// The tenant takes an object of cache `first`.
pub const TAKE: u32 = 12;
/// The tenant gives back the object of cache `first` at place `second`.
pub const GIVE: u32 = 13;
/// The tenant frees the empty slabs of all its caches.
pub const REAP: u32 = 14;
/// The tenant requests the figures of its memory.
pub const REPORT: u32 = 15;

/// An event as numbers: its kind, the tenant that requests it or that it concerns, and the numbers of the command. The constants
/// of this module say which numbers a kind has.
///
/// A number that the kind does not use is ignored.
#[repr(C)]
#[derive(Clone, Copy, Debug)]
pub struct RequestNumbers {
    pub kind: u32,
    pub tenant: u32,
    pub first: u32,
    pub second: u32,
}

/// Returns true if the numbers and bytes are an event.
#[inline(always)]
pub fn is_event(request: &RequestNumbers, bytes: &[u8]) -> bool
    ensures { result ≡ is_some (requested_event request.now bytes.now) }
{
    match request.kind {
        WRITE => (1..=MAX_BYTES).contains(&bytes.len()),
        CACHE => (1..=MAX_PATTERN).contains(&bytes.len()),
        kind => (GRANT..=REPORT).contains(&kind),
    }
}

/// Returns the event of the numbers and bytes, or `None` if they are not an event.
pub fn event_of(request: &RequestNumbers, bytes: &[u8]) -> Option<Event>
    ensures says { result ≡ requested_event request.now bytes.now }
    ensures pattern { IfSome result (λ event. HasPattern event) }
{
    if request.kind <= POOL {
        let command = admin_command_of(request)?;
        Some(Event::Admin(command))
    } else {
        let command = command_of(request, bytes)?;
        Some(Event::Tenant(request.tenant, command))
    }
}

fn admin_command_of(request: &RequestNumbers) -> Option<AdminCommand>
    ensures { result ≡ admin_command_of request.now }
{
    let tenant = request.tenant;
    let slot = request.first;
    match request.kind {
        GRANT => Some(AdminCommand::Grant { tenant }),
        TAKE_BACK => Some(AdminCommand::TakeBack { tenant, slot }),
        RESET => Some(AdminCommand::Reset { tenant }),
        MOVE => Some(AdminCommand::Move { tenant, slot }),
        POOL => Some(AdminCommand::Pool),
        _ => None,
    }
}

fn command_of(request: &RequestNumbers, bytes: &[u8]) -> Option<Command>
    ensures says { result ≡ requested_command request.now bytes.now }
    ensures pattern { IfSome result (λ command. HasPattern (On.Tenant request.now.tenant command)) }
{
    let first = request.first;
    let second = request.second;
    match request.kind {
        ALLOC => Some(Command::Alloc { order: first }),
        FREE => Some(Command::Free { frame: first }),
        READ => Some(Command::Read {
            place: first,
            len: second,
        }),
        WRITE => {
            let bytes = some_bytes(bytes)?;
            Some(Command::Write {
                place: first,
                bytes,
            })
        }
        CACHE => {
            let pattern = some_bytes(bytes)?;
            Some(Command::Cache {
                size: first,
                align: second,
                pattern,
            })
        }
        DESTROY => Some(Command::Destroy { cache: first }),
        TAKE => Some(Command::Take { cache: first }),
        GIVE => Some(Command::Give {
            cache: first,
            place: second,
        }),
        REAP => Some(Command::Reap),
        REPORT => Some(Command::Report),
        _ => None,
    }
}

/// Returns a copy of these bytes, or `None` if there are none or more than `N`.
fn some_bytes<const N: usize>(bytes: &[u8]) -> Option<ArrayVec<u8, N>>
    requires { N < 2 ^ 32 }
    ensures { result ≡ some_bytes N bytes.now }
{
    if bytes.len() < 1 || bytes.len() > N {
        return None;
    }
    let mut held = ArrayVec::new();
    let taken = held.try_extend_from_slice(bytes);
    prove!(taken.is_ok());
    Some(held)
}

/// Runs the event with these numbers, and stores its reply as numbers in `reply`. `bytes` are the bytes of a write or the pattern
/// of a new cache; no other event uses them.
///
/// The bytes of a read are copied to the front of `buffer`. For every event, the buffer must have at least `MAX_BYTES` bytes.
/// The status of a refused event is `DONE`, and its reply is the refusal.
///
/// Fails with `NO_MACHINE`, `NOT_AN_EVENT` or `BUFFER_TOO_SMALL`. The reply and the buffer are then unchanged.
#[unsafe(no_mangle)]
pub extern "C" fn partmem_event(
    alloc: Global,
    machine: &mut MachineStorage,
    request: &RequestNumbers,
    bytes: &[u8],
    reply: &mut ReplyNumbers,
    buffer: &mut [u8],
) -> u32
    ensures status { result ≡ event_status machine.old.cell.held request.now bytes.now buffer.old }
    ensures done { result ≡ DONE
        → RunsEvent machine.old.cell.held machine.new.cell.held request.now bytes.now reply.new buffer.old buffer.new }
    ensures not_done { result ≢ DONE
        → ChangesNothing machine.old.cell.held machine.new.cell.held reply.old reply.new buffer.old buffer.new }
{
    match kind_with_buffer(request.kind, buffer.len()) {
        NOTHING => status_without_buffer(machine, request, bytes),
        ALLOC => plain_event::<ALLOC>(alloc, machine, request, reply),
        FREE => plain_event::<FREE>(alloc, machine, request, reply),
        TAKE => plain_event::<TAKE>(alloc, machine, request, reply),
        GIVE => plain_event::<GIVE>(alloc, machine, request, reply),
        _ => event_in_first(alloc, machine, request, bytes, reply, buffer),
    }
}

/// Returns the kind if the buffer is large enough, and otherwise `NOTHING`, which is not a kind of event.
///
/// So the caller needs only one test to separate the four frequent kinds from all other cases. These kinds use neither the bytes
/// nor the buffer, so the pointers of C are made into slices only in the other cases.
#[inline(always)]
fn kind_with_buffer(kind: u32, buffer: usize) -> u32
    ensures same { result ≢ NOTHING → result ≡ kind }
    ensures wide { result ≢ NOTHING → MAX_BYTES ≤ buffer }
    ensures short { result ≡ NOTHING → kind ≢ NOTHING → buffer < MAX_BYTES }
{
    if buffer < MAX_BYTES { NOTHING } else { kind }
}

/// Returns the status of a call whose buffer is too small, or whose kind is `NOTHING`.
#[cold]
#[inline(never)]
fn status_without_buffer(machine: &MachineStorage, request: &RequestNumbers, bytes: &[u8]) -> u32
    ensures { result ≡ status_of_event machine.now.cell.held request.now bytes.now BUFFER_TOO_SMALL }
{
    if !machine.is_booted() {
        return NO_MACHINE;
    }
    if is_event(request, bytes) {
        BUFFER_TOO_SMALL
    } else {
        NOT_AN_EVENT
    }
}

/// Does what [`partmem_event`] does for `ALLOC`, `FREE`, `TAKE`, `GIVE`, `DESTROY` and `REAP`. These kinds neither use nor return
/// bytes.
///
/// Each kind has its own instance, which is not inlined and saves only the registers that it needs. The instance itself tests
/// whether there is a machine, so that its caller can end in a tail call.
#[inline(never)]
fn plain_event<const KIND: u32>(
    alloc: Global,
    machine: &mut MachineStorage,
    request: &RequestNumbers,
    reply: &mut ReplyNumbers,
) -> u32
    requires kind { request.now.kind ≡ KIND }
    requires plain { is_plain KIND ≡ true }
    ensures status { result ≡ machine_status machine.old.cell.held }
    ensures done { result ≡ DONE → RunsApart machine.old.cell.held machine.new.cell.held request.now reply.new }
    ensures not_done { result ≢ DONE → IsNothingDone machine.old.cell.held machine.new.cell.held reply.old reply.new }
{
    let command = plain_request(KIND, request);
    ask(alloc, machine, request.tenant, command, reply)
}

/// Returns the command for one of the kinds of [`plain_event`]. `kind` is a constant, so the compiler knows the command.
#[inline(always)]
fn plain_request(kind: u32, request: &RequestNumbers) -> Request<'static>
    requires kind { request.now.kind ≡ kind }
    requires plain { is_plain kind ≡ true }
    ensures askable { IsAskable result }
    ensures apart { asks_bytes result ≡ false }
    ensures says { (bytes : List ℕ) → requested_event request.now bytes ≡ Some (Tenant request.now.tenant (command_of result)) }
{
    let first = request.first;
    let second = request.second;
    match kind {
        ALLOC => Request::Alloc { order: first },
        FREE => Request::Free { frame: first },
        TAKE => Request::Take { cache: first },
        GIVE => Request::Give {
            cache: first,
            place: second,
        },
        DESTROY => Request::Destroy { cache: first },
        _ => Request::Reap,
    }
}

#[inline(always)]
fn ask(
    alloc: Global,
    machine: &mut MachineStorage,
    tenant: u32,
    command: Request<'_>,
    reply: &mut ReplyNumbers,
) -> u32
    requires askable { IsAskable command }
    requires apart { asks_bytes command ≡ false }
    ensures status { result ≡ machine_status machine.old.cell.held }
    ensures done { result ≡ DONE → (request : RequestNumbers) (bytes buffer : List ℕ)
        → requested_event request bytes ≡ Some (Tenant tenant (command_of command.entry))
        → RunsEvent machine.old.cell.held machine.new.cell.held request bytes reply.new buffer buffer }
    ensures not_done { result ≢ DONE → IsNothingDone machine.old.cell.held machine.new.cell.held reply.old reply.new }
{
    let Some(kernel) = machine.kernel() else {
        return NO_MACHINE;
    };
    *reply = run(kernel, tenant, command);
    DONE
}

/// Calls [`other_event`] with the first `MAX_BYTES` bytes of the buffer, so the buffer's length need not be passed.
#[inline(always)]
fn event_in_first(
    alloc: Global,
    machine: &mut MachineStorage,
    request: &RequestNumbers,
    bytes: &[u8],
    reply: &mut ReplyNumbers,
    buffer: &mut [u8],
) -> u32
    requires buffer { MAX_BYTES ≤ length buffer.old }
    ensures status { result ≡ status_of_event machine.old.cell.held request.now bytes.now DONE }
    ensures done { result ≡ DONE
        → RunsEvent machine.old.cell.held machine.new.cell.held request.now bytes.now reply.new buffer.old buffer.new }
    ensures not_done { result ≢ DONE
        → ChangesNothing machine.old.cell.held machine.new.cell.held reply.old reply.new buffer.old buffer.new }
{
    other_event(
        alloc,
        machine,
        request,
        bytes,
        reply,
        &mut buffer[..MAX_BYTES],
    )
}

/// Does what [`partmem_event`] does for the kinds that use the bytes or the buffer, and for the rare kinds.
#[inline(never)]
fn other_event(
    alloc: Global,
    machine: &mut MachineStorage,
    request: &RequestNumbers,
    bytes: &[u8],
    reply: &mut ReplyNumbers,
    buffer: &mut [u8],
) -> u32
    requires buffer { MAX_BYTES ≤ length buffer.old }
    ensures status { result ≡ status_of_event machine.old.cell.held request.now bytes.now DONE }
    ensures done { result ≡ DONE
        → RunsEvent machine.old.cell.held machine.new.cell.held request.now bytes.now reply.new buffer.old buffer.new }
    ensures not_done { result ≢ DONE
        → ChangesNothing machine.old.cell.held machine.new.cell.held reply.old reply.new buffer.old buffer.new }
{
    match request.kind {
        READ => read_event(alloc, machine, request, reply, buffer),
        WRITE => write_event(alloc, machine, request, bytes, reply),
        CACHE => cache_event(alloc, machine, request, bytes, reply),
        DESTROY => plain_event::<DESTROY>(alloc, machine, request, reply),
        REAP => plain_event::<REAP>(alloc, machine, request, reply),
        _ => rare_event(alloc, machine, request, bytes, reply, buffer),
    }
}

#[inline(never)]
fn read_event(
    alloc: Global,
    machine: &mut MachineStorage,
    request: &RequestNumbers,
    reply: &mut ReplyNumbers,
    buffer: &mut [u8],
) -> u32
    requires kind { request.now.kind ≡ READ }
    requires buffer { MAX_BYTES ≤ length buffer.old }
    ensures status { result ≡ machine_status machine.old.cell.held }
    ensures done { result ≡ DONE → (bytes : List ℕ)
        → RunsEvent machine.old.cell.held machine.new.cell.held request.now bytes reply.new buffer.old buffer.new }
    ensures not_done { result ≢ DONE
        → ChangesNothing machine.old.cell.held machine.new.cell.held reply.old reply.new buffer.old buffer.new }
{
    let Some(kernel) = machine.kernel() else {
        return NO_MACHINE;
    };
    let command = Request::Read {
        place: request.first,
        len: request.second,
    };
    *reply = run_over(kernel, request.tenant, command, buffer);
    DONE
}

#[inline(never)]
fn write_event(
    alloc: Global,
    machine: &mut MachineStorage,
    request: &RequestNumbers,
    bytes: &[u8],
    reply: &mut ReplyNumbers,
) -> u32
    requires kind { request.now.kind ≡ WRITE }
    ensures status { result ≡ status_of_event machine.old.cell.held request.now bytes.now DONE }
    ensures done { result ≡ DONE → (buffer : List ℕ)
        → RunsEvent machine.old.cell.held machine.new.cell.held request.now bytes.now reply.new buffer buffer }
    ensures not_done { result ≢ DONE → IsNothingDone machine.old.cell.held machine.new.cell.held reply.old reply.new }
{
    if !(1..=MAX_BYTES).contains(&bytes.len()) {
        return status_of_none(machine);
    }
    let place = request.first;
    ask(
        alloc,
        machine,
        request.tenant,
        Request::Write { place, bytes },
        reply,
    )
}

#[cold]
#[inline(never)]
fn cache_event(
    alloc: Global,
    machine: &mut MachineStorage,
    request: &RequestNumbers,
    bytes: &[u8],
    reply: &mut ReplyNumbers,
) -> u32
    requires kind { request.now.kind ≡ CACHE }
    ensures status { result ≡ status_of_event machine.old.cell.held request.now bytes.now DONE }
    ensures done { result ≡ DONE → (buffer : List ℕ)
        → RunsEvent machine.old.cell.held machine.new.cell.held request.now bytes.now reply.new buffer buffer }
    ensures not_done { result ≢ DONE → IsNothingDone machine.old.cell.held machine.new.cell.held reply.old reply.new }
{
    if !(1..=MAX_PATTERN).contains(&bytes.len()) {
        return status_of_none(machine);
    }
    let command = Request::Cache {
        size: request.first,
        align: request.second,
        pattern: bytes,
    };
    ask(alloc, machine, request.tenant, command, reply)
}

/// Returns the status of a call whose numbers and bytes are not an event: `NO_MACHINE` or `NOT_AN_EVENT`.
pub(crate) fn status_of_none(machine: &MachineStorage) -> u32
    ensures { result ≡ (if is_some machine.now.cell.held then NOT_AN_EVENT else NO_MACHINE) }
{
    if machine.is_booted() {
        NOT_AN_EVENT
    } else {
        NO_MACHINE
    }
}

/// Does what [`partmem_event`] does for any kind, if the buffer is large enough.
#[cold]
#[inline(never)]
fn rare_event(
    alloc: Global,
    machine: &mut MachineStorage,
    request: &RequestNumbers,
    bytes: &[u8],
    reply: &mut ReplyNumbers,
    buffer: &mut [u8],
) -> u32
    requires buffer { MAX_BYTES ≤ length buffer.old }
    ensures status { result ≡ status_of_event machine.old.cell.held request.now bytes.now DONE }
    ensures done { result ≡ DONE
        → RunsEvent machine.old.cell.held machine.new.cell.held request.now bytes.now reply.new buffer.old buffer.new }
    ensures not_done { result ≢ DONE
        → ChangesNothing machine.old.cell.held machine.new.cell.held reply.old reply.new buffer.old buffer.new }
{
    let Some(kernel) = machine.kernel() else {
        return NO_MACHINE;
    };
    let Some(event) = event_of(request, bytes) else {
        return NOT_AN_EVENT;
    };
    *reply = step(kernel, &event, buffer);
    DONE
}

/// Runs an event, copies the bytes of its reply to the front of `buffer`, and returns the reply as numbers.
fn step(kernel: &mut Kernel, event: &Event, buffer: &mut [u8]) -> ReplyNumbers
    requires pattern { HasPattern event.now }
    requires buffer { MAX_BYTES ≤ length buffer.old }
    ensures { AnswersEvent kernel.old event.now kernel.new result buffer.old buffer.new }
{
    match event {
        Event::Admin(command) => match kernel.administer(command) {
            Some(answer) => numbers_of_answer(answer),
            None => pool(kernel),
        },
        Event::Tenant(tenant, command) => match command.request() {
            Some(request) => run_over(kernel, *tenant, request, buffer),
            None => report(kernel, *tenant),
        },
    }
}

/// Returns the reply to `POOL` as numbers: the number of superblocks, without the table of owners.
fn pool(kernel: &Kernel) -> ReplyNumbers
    ensures { (buffer : List ℕ) → AnswersEvent kernel.now (On.Admin Do.Pool) kernel.now result buffer buffer }
{
    numbers_of_owners(kernel.owners())
}

/// Returns the report of a tenant as numbers.
#[inline(never)]
fn report(kernel: &Kernel, tenant: u32) -> ReplyNumbers
    ensures { (buffer : List ℕ) → AnswersEvent kernel.now (Tenant tenant Report) kernel.now result buffer buffer }
{
    match kernel.tenant(tenant) {
        Some(t) => numbers_of_report(&kernel.figures(t)),
        None => numbers_of_answer(Answer::Refused(Refusal::NoTenant)),
    }
}

/// Runs a command other than a read, and returns the reply as numbers.
#[inline(always)]
pub(crate) fn run(kernel: &mut Kernel, tenant: u32, command: Request<'_>) -> ReplyNumbers
    requires askable { IsAskable command }
    requires apart { asks_bytes command ≡ false }
    ensures { (buffer : List ℕ)
        → AnswersEvent kernel.old (Tenant tenant (command_of command.entry)) kernel.new result buffer buffer }
{
    match kernel.ask(tenant, command) {
        Some((_, answer)) => numbers_of_answer(answer),
        None => numbers_of_answer(Answer::Refused(Refusal::NoTenant)),
    }
}

/// Runs a command, copies the bytes of its reply to the front of `buffer`, and returns the reply as numbers.
#[inline(always)]
fn run_over(
    kernel: &mut Kernel,
    tenant: u32,
    command: Request<'_>,
    buffer: &mut [u8],
) -> ReplyNumbers
    requires askable { IsAskable command }
    requires buffer { MAX_BYTES ≤ length buffer.old }
    ensures { AnswersEvent kernel.old (Tenant tenant (command_of command.entry)) kernel.new result buffer.old buffer.new }
{
    match kernel.ask(tenant, command) {
        Some((_, answer)) => {
            put(bytes_in_reply(answer), buffer, 0);
            numbers_of_answer(answer)
        }
        None => numbers_of_answer(Answer::Refused(Refusal::NoTenant)),
    }
}
