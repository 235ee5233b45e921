//! Runs the lines of a trace, one at a time.

ghost use Rattle.std.specs.Prelude.{◌≡◌, ◌≢◌, ℕ, ◌+◌, ◌*◌, ◌<◌, ◌≤◌, ◌∷◌, ◌++◌, false, List, length, take, drop, Some, Ok};
ghost use Rattle.std.specs.Prelude.{IfSome, MatchOption, if◌then◌else◌};
ghost use Rattle.words_core.specs.Grammar.{reading_of};
ghost use Rattle.words_core.specs.Texts.{lines_of, text_of};
ghost use Rattle.words_core.specs.Requests.{command_of, reply_of_answer, reply_of_table, reply_to, HasFewBytes, HasFewRows, IsAskable};
ghost use Rattle.words_core.specs.declared.event.Event.TheVariants.{Tenant, Admin};
ghost use Rattle.words_core.specs.declared.event.AdminCommand.TheVariants.{Pool};
ghost use Rattle.words_core.specs.declared.event.Command.TheVariants.{Report};
ghost use Rattle.words_core.specs.declared.reply.Addressee.TheVariants as To;
ghost use Rattle.words_core.specs.declared.reply.Body.TheVariants as Say;
ghost use Rattle.words_core.specs.declared.reply.Refusal.TheVariants.{NoTenant};
ghost use Rattle.replay_core.specs.Standing.{IsRunnable};
ghost use Rattle.partmem_c.specs.Lines.{has_line_feed, line_status, IsWide, IsTextWritten, PutsAnswer, PutsOrNot};
ghost use Rattle.partmem_c.specs.Lines.{AnswersWhole, AnswersOrNot, RunsLine};

use crate::machine_storage::MachineStorage;
use crate::status::{BUFFER_TOO_SMALL, DONE, NO_MACHINE, NOT_A_LINE};
use kernel_core::Kernel;
use model_core::limits::MAX_BYTES;
use quick_core::{WINDOW, read_request};
use std::alloc::Global;
use words_core::{
    Addressee, AdminCommand, Answer, Event, LineFault, MAX_ANSWER_BYTES, MAX_REPLY_BYTES, MAX_ROWS,
    Refusal, Request, SHORT_ANSWER_BYTES, Table, read_line, write_answer, write_answer_to,
};

/// An upper bound on the number of bytes in the reply to a line, unless it is the table of owners of more than 256 superblocks.
pub const LINE_BUFFER_BYTES: usize = MAX_ROWS * MAX_REPLY_BYTES;

/// Runs a line of a trace, and writes its reply lines to the front of `buffer`. Sets `written` to the number of bytes in these
/// lines, or to 0 if the status is not `DONE`.
///
/// The line is passed without its line feed. The reply to a faulty line names the fault. The buffer must have `LINE_BUFFER_BYTES`
/// bytes, which are enough for each reply but one: the table of owners of more than 256 superblocks needs 256 bytes for its first
/// line and for each superblock.
///
/// Fails with `NO_MACHINE`, `NOT_A_LINE` or `BUFFER_TOO_SMALL`. The machine and the buffer are then unchanged.
#[unsafe(no_mangle)]
pub extern "C" fn partmem_line(
    alloc: Global,
    machine: &mut MachineStorage,
    line: &[u8],
    buffer: &mut [u8],
    written: &mut usize,
) -> u32
    ensures status { result ≡ line_status machine.old.cell.held line.now buffer.old }
    ensures done { result ≡ DONE
        → RunsLine machine.old.cell.held machine.new.cell.held line.now buffer.old buffer.new written.new }
    ensures not_done { result ≢ DONE
        → (machine.new.cell.held ≡ machine.old.cell.held) × (buffer.new ≡ buffer.old) × (written.new ≡ 0) }
{
    *written = 0;
    let Some(kernel) = machine.kernel() else {
        return NO_MACHINE;
    };
    if buffer.len() < LINE_BUFFER_BYTES {
        return status_without_buffer(line);
    }
    match run_line(kernel, line, buffer) {
        Ok(count) => {
            *written = count;
            DONE
        }
        Err(status) => status,
    }
}

/// Returns the status of a call whose buffer is too small: `NOT_A_LINE` if the line has a line feed, and otherwise
/// `BUFFER_TOO_SMALL`.
#[cold]
#[inline(never)]
fn status_without_buffer(line: &[u8]) -> u32
    ensures { result ≡ (if has_line_feed line.now then NOT_A_LINE else BUFFER_TOO_SMALL) }
{
    if line.contains(&b'\n') {
        NOT_A_LINE
    } else {
        BUFFER_TOO_SMALL
    }
}

/// The size of a buffer for a frequent line with its line feed. The longest is a write: a tenant, a word, a place, and bytes in
/// hex.
const MAX_SHORT_LINE: usize = 160;

/// Runs a line on the kernel, writes the answer to the front of `buffer`, and returns the number of the answer's bytes. Fails with
/// `NOT_A_LINE` or `BUFFER_TOO_SMALL`, and then does nothing.
///
/// A line that is read as one quick request contains no line feed, so such a line is not searched for line feeds.
#[inline(always)]
fn run_line(kernel: &mut Kernel, line: &[u8], buffer: &mut [u8]) -> Result<usize, u32>
    requires { IsWide buffer.old }
    ensures { AnswersOrNot kernel.old line.now buffer.old kernel.new buffer.new result }
{
    if line.len() >= WINDOW {
        if let Some(written) = run_long(kernel, line, buffer) {
            return Ok(written);
        }
        return run_any(kernel, line, buffer);
    }
    let mut ended = [0; WINDOW];
    put_ended(line, &mut ended);
    let mut bytes = [0; MAX_BYTES];
    if let Some(read) = read_request(&ended, &mut bytes) {
        if read.len == line.len() + 1 {
            return Ok(answer_request(read.tenant, read.request, kernel, buffer));
        }
    }
    run_any(kernel, line, buffer)
}

/// Does what [`run_line`] does for a longer quick request, such as a write. Returns `None` and does nothing if the line is too
/// long or is not read as one quick request. Not inlined, since it needs more stack than most quick requests.
#[inline(never)]
fn run_long(kernel: &mut Kernel, line: &[u8], buffer: &mut [u8]) -> Option<usize>
    requires { IsWide buffer.old }
    ensures { MatchOption result ((kernel.new ≡ kernel.old) × (buffer.new ≡ buffer.old))
        (λ written. AnswersWhole kernel.old line.now buffer.old kernel.new buffer.new written) }
{
    if line.len() >= MAX_SHORT_LINE {
        return None;
    }
    let mut ended = [0; MAX_SHORT_LINE];
    put_ended(line, &mut ended);
    let mut bytes = [0; MAX_BYTES];
    let read = read_request(&ended, &mut bytes)?;
    if read.len != line.len() + 1 {
        return None;
    }
    Some(answer_apart(read.tenant, read.request, kernel, buffer))
}

/// Does what [`run_line`] does for any line, which it reads as an event. Not inlined, since it clears the memory for an event.
#[cold]
#[inline(never)]
fn run_any(kernel: &mut Kernel, line: &[u8], buffer: &mut [u8]) -> Result<usize, u32>
    requires { IsWide buffer.old }
    ensures { AnswersOrNot kernel.old line.now buffer.old kernel.new buffer.new result }
{
    if line.contains(&b'\n') {
        return Err(NOT_A_LINE);
    }
    answer(read(line), kernel, buffer)
}

/// Reads a line. Not inlined, so that the stack that reading needs is free again before the line is answered.
#[inline(never)]
fn read(line: &[u8]) -> Result<Option<Event>, LineFault>
    ensures exact { result ≡ reading_of line.now }
    ensures runnable { IsRunnable result }
{
    read_line(line)
}

/// Copies a line, followed by a line feed, to the front of `out`.
#[inline(always)]
fn put_ended(line: &[u8], out: &mut [u8])
    requires { length line.now < length out.old }
    ensures { out.new ≡ line.now ++ 10 ∷ drop (length line.now + 1) out.old }
{
    put_short(line, out);
    put(b"\n", out, line.len());
}

/// The number of an alloc. The next constants are the numbers of the other frequent commands.
const ALLOC: usize = 0;

const FREE: usize = 1;

const TAKE: usize = 2;

const GIVE: usize = 3;

const READ: usize = 4;

const WRITE: usize = 5;

/// The number of all other commands.
const RARE: usize = 6;

/// Runs a request, writes its answer to the front of `buffer`, and returns the number of bytes written.
#[inline(always)]
fn answer_request(
    tenant: u32,
    request: Request<'_>,
    kernel: &mut Kernel,
    buffer: &mut [u8],
) -> usize
    requires askable { IsAskable request }
    requires buffer { IsWide buffer.old }
    ensures { PutsAnswer kernel.old (Ok (Some (Tenant tenant (command_of request.entry)))) kernel.new
        buffer.old buffer.new result }
{
    match request {
        Request::Alloc { order } => {
            answer_as::<ALLOC>(tenant, Request::Alloc { order }, kernel, buffer)
        }
        Request::Free { frame } => {
            answer_as::<FREE>(tenant, Request::Free { frame }, kernel, buffer)
        }
        Request::Take { cache } => {
            answer_as::<TAKE>(tenant, Request::Take { cache }, kernel, buffer)
        }
        Request::Give { cache, place } => {
            answer_as::<GIVE>(tenant, Request::Give { cache, place }, kernel, buffer)
        }
        Request::Read { place, len } => {
            answer_as::<READ>(tenant, Request::Read { place, len }, kernel, buffer)
        }
        Request::Write { place, bytes } => {
            answer_as::<WRITE>(tenant, Request::Write { place, bytes }, kernel, buffer)
        }
        rare => answer_apart(tenant, rare, kernel, buffer),
    }
}

/// Does what [`answer_request`] does for the command with the number `COMMAND`. Each command has its own instance with one
/// caller. A function with one caller is always inlined. So in the code that writes an answer, the compiler knows which answers
/// are possible.
#[inline]
fn answer_as<const COMMAND: usize>(
    tenant: u32,
    request: Request<'_>,
    kernel: &mut Kernel,
    buffer: &mut [u8],
) -> usize
    requires askable { IsAskable request }
    requires buffer { IsWide buffer.old }
    ensures { PutsAnswer kernel.old (Ok (Some (Tenant tenant (command_of request.entry)))) kernel.new
        buffer.old buffer.new result }
{
    match kernel.ask(tenant, request) {
        Some((t, answer)) => put_answer(t, answer, buffer),
        None => put_no_tenant(buffer),
    }
}

/// Calls [`answer_as`] with the number `RARE`, for any command. Not inlined.
#[inline(never)]
fn answer_apart(tenant: u32, request: Request<'_>, kernel: &mut Kernel, buffer: &mut [u8]) -> usize
    requires askable { IsAskable request }
    requires buffer { IsWide buffer.old }
    ensures { PutsAnswer kernel.old (Ok (Some (Tenant tenant (command_of request.entry)))) kernel.new
        buffer.old buffer.new result }
{
    answer_as::<RARE>(tenant, request, kernel, buffer)
}

/// Writes an answer for a tenant to the front of `buffer`, and returns the number of bytes written. The functions below that
/// return a `usize` write other replies and return the number of their bytes.
#[inline(always)]
fn put_answer(tenant: u8, answer: Answer<'_>, buffer: &mut [u8]) -> usize
    requires few { HasFewBytes answer }
    requires buffer { IsWide buffer.old }
    ensures { IsTextWritten (text_of (reply_of_answer tenant answer.entry)) buffer.old buffer.new result }
{
    if answer.is_long() {
        return put_long_answer(Addressee::Tenant(tenant), answer, buffer);
    }
    let mut text = [0; SHORT_ANSWER_BYTES];
    let len = write_answer(tenant, answer, &mut text);
    put_short(&text[..len], buffer);
    len
}

/// Does what [`put_answer`] does for a longer text, or for any addressee. Not inlined, so that [`put_answer`] does not pay for
/// the larger buffer.
#[inline(never)]
fn put_long_answer(addressee: Addressee, answer: Answer<'_>, buffer: &mut [u8]) -> usize
    requires few { HasFewBytes answer }
    requires buffer { IsWide buffer.old }
    ensures { IsTextWritten (text_of (reply_to addressee answer.entry)) buffer.old buffer.new result }
{
    let mut text = [0; MAX_ANSWER_BYTES];
    let len = write_answer_to(addressee, answer, &mut text);
    put(&text[..len], buffer, 0);
    len
}

#[cold]
#[inline(never)]
fn put_no_tenant(buffer: &mut [u8]) -> usize
    requires { IsWide buffer.old }
    ensures { IsTextWritten (text_of (record { addressee = To.Nobody; body = Say.Refused NoTenant }))
        buffer.old buffer.new result }
{
    let answer = Answer::Refused(Refusal::NoTenant);
    put_long_answer(Addressee::Nobody, answer, buffer)
}

/// Runs a line with this reading, writes its answer, and returns the number of bytes written. Fails with `BUFFER_TOO_SMALL`, and
/// then does nothing.
#[cold]
#[inline(never)]
fn answer(
    reading: Result<Option<Event>, LineFault>,
    kernel: &mut Kernel,
    buffer: &mut [u8],
) -> Result<usize, u32>
    requires runnable { IsRunnable reading }
    requires buffer { IsWide buffer.old }
    ensures { PutsOrNot kernel.old reading kernel.new buffer.old buffer.new result }
{
    match reading {
        Ok(None) => Ok(0),
        Ok(Some(Event::Tenant(tenant, command))) => match command.request() {
            Some(request) => Ok(answer_apart(tenant, request, kernel, buffer)),
            None => Ok(put_report(tenant, kernel, buffer)),
        },
        Ok(Some(Event::Admin(command))) => administer(&command, kernel, buffer),
        Err(fault) => Ok(put_fault(fault, buffer)),
    }
}

/// Writes the report of a tenant. Not inlined, so that no other line pays for the memory of a report.
#[cold]
#[inline(never)]
fn put_report(tenant: u32, kernel: &Kernel, buffer: &mut [u8]) -> usize
    requires { IsWide buffer.old }
    ensures { PutsAnswer kernel.now (Ok (Some (Tenant tenant Report))) kernel.now buffer.old buffer.new result }
{
    let Some(t) = kernel.tenant(tenant) else {
        return put_no_tenant(buffer);
    };
    let report = kernel.figures(t);
    // For the proof: a report has at most 44 lines.
    let _orders = report.orders.len();
    let _caches = report.caches.len();
    put_table(Table::Report(t, &report), buffer)
}

#[cold]
#[inline(never)]
fn administer(command: &AdminCommand, kernel: &mut Kernel, buffer: &mut [u8]) -> Result<usize, u32>
    requires { IsWide buffer.old }
    ensures { PutsOrNot kernel.old (Ok (Some (Admin command.now))) kernel.new buffer.old buffer.new result }
{
    if let AdminCommand::Pool = command {
        return put_pool(kernel, buffer);
    }
    match kernel.administer(command) {
        Some(answer) => Ok(put_long_answer(Addressee::Admin, answer, buffer)),
        // Not reached: only `pool` has no answer.
        None => put_pool(kernel, buffer),
    }
}

#[cold]
#[inline(never)]
fn put_pool(kernel: &Kernel, buffer: &mut [u8]) -> Result<usize, u32>
    requires { IsWide buffer.old }
    ensures { PutsOrNot kernel.now (Ok (Some (Admin Pool))) kernel.now buffer.old buffer.new result }
{
    let table = Table::Owners(kernel.owners());
    if buffer.len() < MAX_REPLY_BYTES * table.rows() {
        return Err(BUFFER_TOO_SMALL);
    }
    Ok(put_table(table, buffer))
}

#[cold]
#[inline(never)]
fn put_fault(fault: LineFault, buffer: &mut [u8]) -> usize
    requires { IsWide buffer.old }
    ensures { IsTextWritten (text_of (record { addressee = To.Nobody; body = Say.Fault fault }))
        buffer.old buffer.new result }
{
    put_long_answer(Addressee::Nobody, Answer::Fault(fault), buffer)
}

/// Writes the text of a table, line by line.
fn put_table(table: Table<'_>, buffer: &mut [u8]) -> usize
    requires rows { HasFewRows table }
    requires buffer { MAX_REPLY_BYTES * length (lines_of (reply_of_table table)) ≤ length buffer.old }
    ensures { IsTextWritten (text_of (reply_of_table table.entry)) buffer.old buffer.new result }
{
    let mut line = [0; MAX_REPLY_BYTES];
    let mut written = 0;
    for row in 0..table.rows() {
        let len = table.write_row(row, &mut line);
        put(&line[..len], buffer, written);
        written += len;
    }
    written
}

/// Copies bytes to the part of the buffer that begins at index `at`.
#[inline(always)]
pub(crate) fn put(bytes: &[u8], buffer: &mut [u8], at: usize)
    requires { at + length bytes.now ≤ length buffer.old }
    ensures { buffer.new ≡ take at buffer.old ++ (bytes.now ++ drop (at + length bytes.now) buffer.old) }
{
    buffer[at..at + bytes.len()].copy_from_slice(bytes);
}

/// Copies bytes to the front of the buffer. For 8 to 32 bytes, it makes two copies of a fixed size, which may overlap. A copy of
/// variable size would be a function call.
#[inline(always)]
fn put_short(bytes: &[u8], buffer: &mut [u8])
    requires { length bytes.now ≤ length buffer.old }
    ensures { buffer.new ≡ bytes.now ++ drop (length bytes.now) buffer.old }
{
    match bytes.len() {
        8..=16 => put_ends::<8>(bytes, buffer),
        17..=32 => put_ends::<16>(bytes, buffer),
        _ => put(bytes, buffer, 0),
    }
}

/// Copies the first `N` bytes and the last `N` bytes to the front of the buffer, each byte to its own index.
#[inline(always)]
fn put_ends<const N: usize>(bytes: &[u8], buffer: &mut [u8])
    requires long { N ≤ length bytes.now }
    requires short { length bytes.now ≤ 2 * N }
    requires buffer { length bytes.now ≤ length buffer.old }
    ensures { buffer.new ≡ bytes.now ++ drop (length bytes.now) buffer.old }
{
    let rest = bytes.len() - N;
    put(&bytes[..N], buffer, 0);
    put(&bytes[rest..], buffer, rest);
}
