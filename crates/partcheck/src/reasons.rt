//! Writes why a promise is broken.

ghost use Rattle.std.specs.Prelude.{◌≡◌, ◌<◌, OnOk, Some};
ghost use Rattle.std.specs.Io.KnownBytes.{Appends};
ghost use Rattle.partcheck.specs.Reasons.{admin_text, bound_text, count_text, due_bytes_text, due_text, existing_text, figure_text, form_of_kind, freed_text};
ghost use Rattle.partcheck.specs.Reasons.{held_text, hex_digit, hex_text, idle_text, left_text, tenant_text};
ghost use Rattle.partcheck.specs.Reasons.{missing_text, name_in_report, name_of_figure, object_text, owned_text, reason_text, report_text, slab_over_text, taken_text};
ghost use Rattle.partcheck.specs.Reasons.{unfit_text, unowned_text, words_of_promise, wrong_text};

use known_holdings::FrameBlock;
use model_core::owner::Owner;
use promise_core::promise::Promise;
use reply_judge::{BlockFault, Bound, ObjectFault, ReportFigure, Vacancy, WrongByte, WrongFigure};
use std::io::{self, Write};
use trace_check::{AnswerKind, Figure, Reason, TakenFrame};
use words_core::Refusal;

/// Writes why a promise is broken, or what the promise requires if no reason was worked out.
pub(crate) fn write_reason<W: Write>(
    out: &mut W,
    promise: Promise,
    reason: &Option<Reason>,
) -> io::Result<()>
    ensures { OnOk result (Appends (W.contents out.old) (W.contents out.new) (reason_text promise reason.now)) }
{
    match reason {
        Some(Reason::ToTenant { tenant, kind }) => write_to_tenant(out, *tenant, *kind),
        Some(Reason::ToAdmin(kind)) => write_to_admin(out, *kind),
        Some(Reason::ToNobody) => out.write_all(b"the reply has to be !> refused 12 NoTenant"),
        Some(Reason::Due(due)) => write_due(out, *due),
        Some(Reason::Freed(page)) => write_freed(out, page),
        Some(Reason::Taken(taken)) => write_taken(out, taken),
        Some(Reason::Unfit { block, fault }) => write_unfit(out, block, *fault),
        Some(Reason::Owned { superblock, owner }) => write_owned(out, *superblock, *owner),
        Some(Reason::Unowned(superblock)) => write_unowned(out, *superblock),
        Some(Reason::Missing(superblock)) => write_missing(out, *superblock),
        Some(Reason::Wrong(wrong)) => write_wrong(out, wrong),
        Some(Reason::Count(count)) => write_count(out, *count),
        Some(Reason::Object { place, fault }) => write_object(out, *place, fault),
        Some(Reason::Left(vacancy)) => write_left(out, vacancy),
        Some(Reason::Idle(slot)) => write_idle(out, *slot),
        Some(Reason::NotTakeBack) => out.write_all(b"only a takeback may be refused 15 SlotBusy"),
        Some(Reason::Figure { figure, bound }) => write_figure(out, *figure, *bound),
        Some(Reason::Report(wrong)) => write_report(out, wrong),
        Some(Reason::Held(slot)) => write_held(out, *slot),
        Some(Reason::Existing(number)) => write_existing(out, *number),
        None => out.write_all(words_of(promise).as_bytes()),
    }
}

/// Writes which replies to a command of the tenant are due.
fn write_to_tenant<W: Write>(out: &mut W, tenant: u32, kind: AnswerKind) -> io::Result<()>
    ensures { OnOk result (Appends (W.contents out.old) (W.contents out.new) (tenant_text tenant kind)) }
{
    let form = form_of_kind(kind);
    write!(
        out,
        "the reply has to be {tenant}> {form} or {tenant}> refused NUMBER NAME"
    )
}

/// Writes which replies to a command of the administrator are due.
fn write_to_admin<W: Write>(out: &mut W, kind: AnswerKind) -> io::Result<()>
    ensures { OnOk result (Appends (W.contents out.old) (W.contents out.new) (admin_text kind)) }
{
    let form = form_of_kind(kind);
    write!(
        out,
        "the reply has to be admin> {form} or admin> refused NUMBER NAME"
    )
}

/// Returns the form of an answer of this kind, as the help of partmem has it.
fn form_of_kind(kind: AnswerKind) -> &'static str
    ensures { result.now ≡ form_of_kind kind }
{
    match kind {
        AnswerKind::Frame => "frame F",
        AnswerKind::Freed => "freed K",
        AnswerKind::Bytes => "bytes HEX",
        AnswerKind::Written => "written L",
        AnswerKind::Cache => "cache C chunk c order q objects n colours x",
        AnswerKind::Destroyed => "destroyed F",
        AnswerKind::Object => "object P",
        AnswerKind::Given => "given",
        AnswerKind::Reaped => "reaped F",
        AnswerKind::Report => "frames ..",
        AnswerKind::Granted => "granted T slot U superblock M",
        AnswerKind::TakenBack => "taken superblock M",
        AnswerKind::WasReset => "reset T superblocks R",
        AnswerKind::Moved => "moved T slot U superblock M",
        AnswerKind::Owners => "pool free F of N ..",
    }
}

/// Writes which refusal was due.
fn write_due<W: Write>(out: &mut W, due: Option<Refusal>) -> io::Result<()>
    ensures { OnOk result (Appends (W.contents out.old) (W.contents out.new) (due_text due)) }
{
    match due {
        Some(refusal) => {
            let (number, name) = (refusal.number(), refusal.name());
            write!(out, "refused {number} {name} is due")
        }
        None => out.write_all(b"no refusal is due"),
    }
}

/// Writes which order the page block has that is freed.
fn write_freed<W: Write>(out: &mut W, page: &FrameBlock) -> io::Result<()>
    ensures { OnOk result (Appends (W.contents out.old) (W.contents out.new) (freed_text page.now)) }
{
    let (first, order) = (page.first(), page.order());
    write!(out, "the block at frame {first} has order {order}")
}

/// Writes which live page block has a frame of the reply's page block.
fn write_taken<W: Write>(out: &mut W, taken: &TakenFrame) -> io::Result<()>
    ensures { OnOk result (Appends (W.contents out.old) (W.contents out.new) (taken_text taken.now)) }
{
    let (frame, order, first) = (taken.frame, taken.page.order(), taken.page.first());
    write!(
        out,
        "frame {frame} lies in the block of order {order} at frame {first}"
    )
}

/// Writes what keeps the reply's page block from being allocated.
fn write_unfit<W: Write>(out: &mut W, block: &FrameBlock, fault: BlockFault) -> io::Result<()>
    ensures { OnOk result (Appends (W.contents out.old) (W.contents out.new) (unfit_text block.now fault)) }
{
    let (first, order) = (block.first(), block.order());
    match fault {
        BlockFault::Misaligned => {
            write!(out, "no block of order {order} begins at frame {first}")
        }
        BlockFault::Outside(slot) => {
            write!(out, "frame {first} lies in slot {slot}, which is not held")
        }
        BlockFault::Slab { cache, place } => write!(
            out,
            "the block at frame {first} overlaps the slab of the object at {place} of cache {cache}"
        ),
    }
}

/// Writes who owns a superblock.
fn write_owned<W: Write>(out: &mut W, superblock: u16, owner: Owner) -> io::Result<()>
    ensures { OnOk result (Appends (W.contents out.old) (W.contents out.new) (owned_text superblock owner)) }
{
    let Owner { tenant, slot } = owner;
    write!(
        out,
        "superblock {superblock} is slot {slot} of tenant {tenant}"
    )
}

/// Writes that a superblock has no owner.
fn write_unowned<W: Write>(out: &mut W, superblock: u16) -> io::Result<()>
    ensures { OnOk result (Appends (W.contents out.old) (W.contents out.new) (unowned_text superblock)) }
{
    write!(out, "superblock {superblock} has no owner")
}

/// Writes that a superblock does not exist.
fn write_missing<W: Write>(out: &mut W, superblock: u16) -> io::Result<()>
    ensures { OnOk result (Appends (W.contents out.old) (W.contents out.new) (missing_text superblock)) }
{
    write!(out, "there is no superblock {superblock}")
}

/// Writes which byte is wrong, and what it has to be.
fn write_wrong<W: Write>(out: &mut W, wrong: &WrongByte) -> io::Result<()>
    ensures { OnOk result (Appends (W.contents out.old) (W.contents out.new) (wrong_text wrong.now)) }
{
    let place = wrong.place;
    write!(out, "the byte at {place} has to be ")?;
    write_due_bytes(out, wrong.due, wrong.or_fresh)?;
    out.write_all(b", not ")?;
    write_hex(out, wrong.byte)
}

/// Writes the one or two bytes that are due at a place.
fn write_due_bytes<W: Write>(out: &mut W, due: u8, or_fresh: Option<u8>) -> io::Result<()>
    ensures { OnOk result (Appends (W.contents out.old) (W.contents out.new) (due_bytes_text due or_fresh)) }
{
    match or_fresh {
        Some(fresh) => write_either(out, due, fresh),
        None => write_hex(out, due),
    }
}

fn write_either<W: Write>(out: &mut W, due: u8, fresh: u8) -> io::Result<()>
    ensures { OnOk result (Appends (W.contents out.old) (W.contents out.new) (due_bytes_text due (Some fresh))) }
{
    write_hex(out, due)?;
    out.write_all(b" or ")?;
    write_hex(out, fresh)
}

/// Writes a byte in hex, as a reply has it.
fn write_hex<W: Write>(out: &mut W, byte: u8) -> io::Result<()>
    ensures { OnOk result (Appends (W.contents out.old) (W.contents out.new) (hex_text byte)) }
{
    out.write_all(&[hex_digit(byte / 16), hex_digit(byte % 16)])
}

/// Returns the digit of a number below 16 in hex.
fn hex_digit(number: u8) -> u8
    requires { number < 16 }
    ensures { result ≡ hex_digit number }
{
    if number < 10 {
        b'0' + number
    } else {
        b'a' + (number - 10)
    }
}

/// Writes how many bytes the reply has to have or to report.
fn write_count<W: Write>(out: &mut W, count: u32) -> io::Result<()>
    ensures { OnOk result (Appends (W.contents out.old) (W.contents out.new) (count_text count)) }
{
    write!(out, "the number of bytes has to be {count}")
}

/// Writes what keeps the object at the place from being taken.
fn write_object<W: Write>(out: &mut W, place: u32, fault: &ObjectFault) -> io::Result<()>
    ensures { OnOk result (Appends (W.contents out.old) (W.contents out.new) (object_text place fault.now)) }
{
    match fault {
        ObjectFault::Misaligned => write!(out, "place {place} is not a multiple of the alignment"),
        ObjectFault::Page(page) => write_slab_over(out, page),
        ObjectFault::Unfit { slab, fault } => write_unfit(out, slab, *fault),
        ObjectFault::Over(other) => write!(out, "the object overlaps the one at {other}"),
        ObjectFault::Full => out.write_all(b"all objects of the slab are live"),
        ObjectFault::OffGrid => write!(out, "no object of the slab can begin at place {place}"),
    }
}

/// Writes that the slab of an object would overlap this page block.
fn write_slab_over<W: Write>(out: &mut W, page: &FrameBlock) -> io::Result<()>
    ensures { OnOk result (Appends (W.contents out.old) (W.contents out.new) (slab_over_text page.now)) }
{
    let (order, first) = (page.order(), page.first());
    write!(
        out,
        "the slab overlaps the block of order {order} at frame {first}"
    )
}

/// Writes what is left for a request.
fn write_left<W: Write>(out: &mut W, vacancy: &Vacancy) -> io::Result<()>
    ensures { OnOk result (Appends (W.contents out.old) (W.contents out.new) (left_text vacancy.now)) }
{
    match vacancy {
        Vacancy::Block(block) => {
            let (order, first) = (block.order(), block.first());
            write!(out, "the block of order {order} at frame {first} is vacant")
        }
        Vacancy::Slab(place) => write!(out, "the slab of the object at {place} is not full"),
    }
}

/// Writes that a slot cannot be busy.
fn write_idle<W: Write>(out: &mut W, slot: u16) -> io::Result<()>
    ensures { OnOk result (Appends (W.contents out.old) (W.contents out.new) (idle_text slot)) }
{
    write!(
        out,
        "no frame of slot {slot} is taken, and no slab can be empty"
    )
}

/// Writes within which bound a number has to be.
fn write_figure<W: Write>(out: &mut W, figure: Figure, bound: Bound) -> io::Result<()>
    ensures { OnOk result (Appends (W.contents out.old) (W.contents out.new) (figure_text figure bound)) }
{
    let name = name_of_figure(figure);
    write!(out, "the {name}")?;
    write_bound(out, bound)
}

/// Writes the words for a bound.
fn write_bound<W: Write>(out: &mut W, bound: Bound) -> io::Result<()>
    ensures { OnOk result (Appends (W.contents out.old) (W.contents out.new) (bound_text bound)) }
{
    match bound {
        Bound::Exactly(number) => write!(out, " has to be {number}"),
        Bound::AtLeast(number) => write!(out, " has to be at least {number}"),
        Bound::AtMost(number) => write!(out, " has to be at most {number}"),
        Bound::MultipleOf(number) => write!(out, " has to be a multiple of {number}"),
        Bound::Absent => out.write_all(b" has to be none"),
    }
}

/// Returns the name of a number in a reply.
fn name_of_figure(figure: Figure) -> &'static str
    ensures { result.now ≡ name_of_figure figure }
{
    match figure {
        Figure::Cache => "number of the cache",
        Figure::Chunk => "chunk",
        Figure::Order => "order",
        Figure::Objects => "number of objects",
        Figure::Colours => "number of colours",
        Figure::Frames => "number of frames",
        Figure::Tenant => "tenant",
        Figure::Slot => "slot",
        Figure::Superblocks => "number of superblocks",
    }
}

/// Writes within which bound a number of a report has to be.
fn write_report<W: Write>(out: &mut W, wrong: &WrongFigure) -> io::Result<()>
    ensures { OnOk result (Appends (W.contents out.old) (W.contents out.new) (report_text wrong.now)) }
{
    out.write_all(b"the ")?;
    write_name_in_report(out, wrong.figure)?;
    write_bound(out, wrong.bound)
}

/// Writes the name of a number in a report.
fn write_name_in_report<W: Write>(out: &mut W, figure: ReportFigure) -> io::Result<()>
    ensures { OnOk result (Appends (W.contents out.old) (W.contents out.new) (name_in_report figure)) }
{
    match figure {
        ReportFigure::OrderRows => out.write_all(b"number of rows of orders"),
        ReportFigure::CacheRows => out.write_all(b"number of rows of caches"),
        ReportFigure::Frames => out.write_all(b"number of frames"),
        ReportFigure::Live => out.write_all(b"number of live frames"),
        ReportFigure::Free => out.write_all(b"number of free frames"),
        ReportFigure::FreeInRows => out.write_all(b"number of frames in the free blocks"),
        ReportFigure::Top => out.write_all(b"top"),
        ReportFigure::Split => out.write_all(b"split"),
        ReportFigure::FreeBlocks(order) => write!(out, "number of free blocks of order {order}"),
        ReportFigure::TakenBlocks(order) => write!(out, "number of taken blocks of order {order}"),
        ReportFigure::CacheOf(row) => write!(out, "number of the cache in cache row {row}"),
        ReportFigure::FullSlabs(cache) => write!(out, "number of full slabs of cache {cache}"),
        ReportFigure::PartialSlabs(cache) => {
            write!(out, "number of partial slabs of cache {cache}")
        }
        ReportFigure::EmptySlabs(cache) => write!(out, "number of empty slabs of cache {cache}"),
        ReportFigure::LiveObjects(cache) => {
            write!(out, "number of live objects of cache {cache}")
        }
    }
}

/// Writes that the tenant has a cache with this number already.
fn write_existing<W: Write>(out: &mut W, number: u8) -> io::Result<()>
    ensures { OnOk result (Appends (W.contents out.old) (W.contents out.new) (existing_text number)) }
{
    write!(out, "there is a cache {number} already")
}

/// Writes that the tenant holds this slot already.
fn write_held<W: Write>(out: &mut W, slot: u16) -> io::Result<()>
    ensures { OnOk result (Appends (W.contents out.old) (W.contents out.new) (held_text slot)) }
{
    write!(out, "slot {slot} is held already")
}

/// Returns the words for what a promise requires.
fn words_of(promise: Promise) -> &'static str
    ensures { result.now ≡ words_of_promise promise }
{
    match promise {
        Promise::Form =>
            "a reply has the right addressee, and is a refusal or an answer to that command",
        Promise::Refusals =>
            "the first refusal whose condition holds is the reply, and no other refusal comes",
        Promise::Room => "nothing is refused for lack of frames while it can be allocated",
        Promise::Busy =>
            "a slot is busy only if a frame of it is taken, or if an empty slab may be in it",
        Promise::Blocks =>
            "a block is aligned, lies in a held slot and overlaps nothing that is taken",
        Promise::Objects =>
            "an object is aligned, lies in a slab of its cache and overlaps no live object",
        Promise::Layout => "a new cache has an unused number, and its objects fit into its slabs",
        Promise::Gives =>
            "a free reports its block's order, and a reap or destroy at most the frames of empty slabs",
        Promise::Owners =>
            "a superblock has one owner, and each change of owners is reported correctly",
        Promise::Bytes =>
            "a byte that is read is the one left there, or a fresh one if none was left or that one is in doubt",
        Promise::Report => "a report has the tenant's own figures",
        Promise::Still => "the figures of a report stay valid until a command changes something",
    }
}
