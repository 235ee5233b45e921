//! One-line answers, as small values that borrow the bytes of a read, and as text.

ghost use Rattle.std.specs.Prelude.{◌≡◌, ◌+◌, ◌*◌, ◌<◌, ◌≤◌, [], ◌∷◌, ◌++◌, codes, decimal, length, take, not, is_some, IfSome};
ghost use Rattle.hex.specs.Hex.{encode_lower};
ghost use Rattle.words_core.specs.Texts.{addressee_text, body_texts, text_of};
ghost use Rattle.words_core.specs.Requests.{body_of_answer, reply_of_answer, reply_to, HasFewBytes, is_long, is_table, buffer_of};
ghost use Rattle.words_core.specs.declared.reply.Body.TheVariants.{Cache, Refused, Fault};

use crate::event::LineFault;
use crate::hex_digits::put_hex;
use crate::reply::{Addressee, Body, Refusal};
use crate::window::{put_front, put_labelled, put_number, put_number_quickly, put_text};
use arrayvec::ArrayVec;
use model_core::limits::MAX_BYTES;

/// The body of a one-line reply: a [`Body`] in a form that borrows its bytes. A report and the table of owners have several
/// lines, so they are not answers.
#[derive(Clone, Copy, Debug)]
pub enum Answer<'a> {
    Frame(u32),
    Freed(u8),
    Bytes(&'a [u8]),
    Written(u32),
    Cache {
        cache: u8,
        chunk: u32,
        order: u8,
        objects: u32,
        colours: u32,
    },
    Destroyed(u32),
    Object(u32),
    Given,
    Reaped(u32),
    Refused(Refusal),
    Granted {
        tenant: u8,
        slot: u16,
        superblock: u16,
    },
    TakenBack(u16),
    WasReset {
        tenant: u8,
        superblocks: u16,
    },
    Moved {
        tenant: u8,
        slot: u16,
        superblock: u16,
    },
    Fault(LineFault),
}

/// Size in bytes of a buffer for the text of any answer, including its line feed. The longest text is the answer to a read of 64
/// bytes.
pub const MAX_ANSWER_BYTES: usize = 160;

/// Size in bytes of a buffer for the text of an answer that is not long (see [`Answer::is_long`]).
pub const SHORT_ANSWER_BYTES: usize = 32;

/// The largest number of bytes before the body in a line of a reply.
pub(crate) const MAX_FRONT_BYTES: usize = 7;

impl Answer<'_> {
    /// Converts the answer to a [`Body`], which has a copy of the bytes.
    pub fn into_body(self) -> Body
        requires { HasFewBytes self }
        ensures { result ≡ body_of_answer self.entry }
    {
        match self {
            Answer::Frame(frame) => Body::Frame(frame),
            Answer::Freed(order) => Body::Freed(order),
            Answer::Bytes(bytes) => Body::Bytes(copied(bytes)),
            Answer::Written(count) => Body::Written(count),
            Answer::Cache {
                cache,
                chunk,
                order,
                objects,
                colours,
            } => Body::Cache {
                cache,
                chunk,
                order,
                objects,
                colours,
            },
            Answer::Destroyed(frames) => Body::Destroyed(frames),
            Answer::Object(place) => Body::Object(place),
            Answer::Given => Body::Given,
            Answer::Reaped(frames) => Body::Reaped(frames),
            Answer::Refused(refusal) => Body::Refused(refusal),
            Answer::Granted {
                tenant,
                slot,
                superblock,
            } => Body::Granted {
                tenant,
                slot,
                superblock,
            },
            Answer::TakenBack(superblock) => Body::TakenBack(superblock),
            Answer::WasReset {
                tenant,
                superblocks,
            } => Body::WasReset {
                tenant,
                superblocks,
            },
            Answer::Moved {
                tenant,
                slot,
                superblock,
            } => Body::Moved {
                tenant,
                slot,
                superblock,
            },
            Answer::Fault(fault) => Body::Fault(fault),
        }
    }

    /// Returns true if the text may need a buffer of `MAX_ANSWER_BYTES` bytes: if the answer has bytes that were read, or is
    /// about a new cache or about superblocks.
    #[inline(always)]
    pub fn is_long(&self) -> bool
        ensures { result ≡ is_long self.now }
    {
        matches!(
            self,
            Answer::Bytes(_)
                | Answer::Cache { .. }
                | Answer::Granted { .. }
                | Answer::TakenBack(_)
                | Answer::WasReset { .. }
                | Answer::Moved { .. }
        )
    }
}

impl Body {
    /// Returns the body as an [`Answer`] that borrows it, or `None` for a report or the table of owners.
    pub fn answer(&self) -> Option<Answer<'_>>
        ensures same { IfSome result (λ answer. body_of_answer answer ≡ self.now) }
        ensures few { IfSome result (λ answer. HasFewBytes answer) }
        ensures some { is_some result ≡ not (is_table self.now) }
    {
        Some(match self {
            Body::Granted {
                tenant,
                slot,
                superblock,
            } => Answer::Granted {
                tenant: *tenant,
                slot: *slot,
                superblock: *superblock,
            },
            Body::TakenBack(superblock) => Answer::TakenBack(*superblock),
            Body::WasReset {
                tenant,
                superblocks,
            } => Answer::WasReset {
                tenant: *tenant,
                superblocks: *superblocks,
            },
            Body::Moved {
                tenant,
                slot,
                superblock,
            } => Answer::Moved {
                tenant: *tenant,
                slot: *slot,
                superblock: *superblock,
            },
            Body::Owners(_) | Body::Report(_) => return None,
            Body::Frame(frame) => Answer::Frame(*frame),
            Body::Freed(order) => Answer::Freed(*order),
            Body::Bytes(bytes) => Answer::Bytes(bytes.as_slice()),
            Body::Written(count) => Answer::Written(*count),
            Body::Cache {
                cache,
                chunk,
                order,
                objects,
                colours,
            } => Answer::Cache {
                cache: *cache,
                chunk: *chunk,
                order: *order,
                objects: *objects,
                colours: *colours,
            },
            Body::Destroyed(frames) => Answer::Destroyed(*frames),
            Body::Object(place) => Answer::Object(*place),
            Body::Given => Answer::Given,
            Body::Reaped(frames) => Answer::Reaped(*frames),
            Body::Refused(refusal) => Answer::Refused(*refusal),
            Body::Fault(fault) => Answer::Fault(*fault),
        })
    }
}

/// Returns a copy of these bytes.
fn copied(bytes: &[u8]) -> ArrayVec<u8, MAX_BYTES>
    requires { length bytes.now ≤ MAX_BYTES }
    ensures { result.items ≡ bytes.now }
{
    let mut copied = ArrayVec::new();
    let taken = copied.try_extend_from_slice(bytes);
    prove!(taken.is_ok());
    copied
}

/// Writes the text of an answer to a tenant, which is one line with its line feed, and returns its length in bytes. The buffer
/// needs at least `MAX_ANSWER_BYTES` bytes if the answer is long, and at least `SHORT_ANSWER_BYTES` otherwise.
#[inline(always)]
pub fn write_answer(tenant: u8, answer: Answer<'_>, out: &mut [u8]) -> usize
    requires few { HasFewBytes answer }
    requires space { buffer_of answer ≤ length out.old }
    ensures text { take result out.new ≡ text_of (reply_of_answer tenant answer.entry) }
    ensures some { 0 < result }
    ensures within { result ≤ buffer_of answer.entry }
{
    let (front, len, number) = match answer {
        Answer::Frame(frame) => (b"0> frame        ", 9, frame),
        Answer::Freed(order) => (b"0> freed        ", 9, u32::from(order)),
        Answer::Written(count) => (b"0> written      ", 11, count),
        Answer::Object(place) => (b"0> object       ", 10, place),
        other => return write_other(tenant, other, out),
    };
    let at = put_front(tenant, front, len, out);
    let end = put_number_quickly(number, at, out);
    put_text(b"\n", end, out)
}

/// Writes the answers that [`write_answer`] does not write itself: they are rare, or do not consist of one word and one number.
#[inline(always)]
fn write_other(tenant: u8, answer: Answer<'_>, out: &mut [u8]) -> usize
    requires few { HasFewBytes answer }
    requires space { buffer_of answer ≤ length out.old }
    ensures text { take result out.new ≡ text_of (reply_of_answer tenant answer.entry) }
    ensures some { 0 < result }
    ensures within { result ≤ buffer_of answer.entry }
{
    let at = match answer {
        Answer::Bytes(bytes) => {
            let at = put_front(tenant, b"0> bytes        ", 9, out);
            put_digits(bytes, at, out)
        }
        Answer::Given => put_front(tenant, b"0> given        ", 8, out),
        rare => put_line(Addressee::Tenant(tenant), rare, out),
    };
    put_text(b"\n", at, out)
}

/// Writes the text of an answer to any addressee, as [`write_answer`] does for a tenant.
pub fn write_answer_to(addressee: Addressee, answer: Answer<'_>, out: &mut [u8]) -> usize
    requires few { HasFewBytes answer }
    requires space { buffer_of answer ≤ length out.old }
    ensures text { take result out.new ≡ text_of (reply_to addressee answer.entry) }
    ensures some { 0 < result }
    ensures within { result ≤ buffer_of answer.entry }
{
    let at = put_line(addressee, answer, out);
    put_text(b"\n", at, out)
}

/// Writes the line of an answer without its line feed and returns the index of its end.
#[cold]
#[inline(never)]
fn put_line(addressee: Addressee, answer: Answer<'_>, out: &mut [u8]) -> usize
    requires few { HasFewBytes answer }
    requires space { buffer_of answer ≤ length out.old }
    ensures text { body_texts (addressee_text addressee) (body_of_answer answer.entry) ≡ take result out.new ∷ [] }
    ensures short { result < buffer_of answer.entry }
{
    let at = put_addressee(addressee, out);
    put_answer(answer, at, out)
}

/// Writes the addressee of a line and returns the index of its end.
#[tactic(auto, using(crate::proofs::DigitLemmas::length_short))]
#[inline(always)]
pub(crate) fn put_addressee(addressee: Addressee, out: &mut [u8]) -> usize
    requires { SHORT_ANSWER_BYTES ≤ length out.old }
    ensures text { take result out.new ≡ addressee_text addressee }
    ensures short { result ≤ MAX_FRONT_BYTES }
{
    match addressee {
        Addressee::Admin => put_text(b"admin> ", 0, out),
        Addressee::Nobody => put_text(b"!> ", 0, out),
        Addressee::Tenant(tenant) => {
            let at = put_number(u32::from(tenant), 0, out);
            put_text(b"> ", at, out)
        }
    }
}

/// Writes the answer after the first `at` bytes and returns the index of its end. The functions below also write after the first
/// `at` bytes and return the end.
#[inline(always)]
pub(crate) fn put_answer(answer: Answer<'_>, at: usize, out: &mut [u8]) -> usize
    requires few { HasFewBytes answer }
    requires front { at ≤ MAX_FRONT_BYTES }
    requires space { buffer_of answer ≤ length out.old }
    ensures text { body_texts (take at out.old) (body_of_answer answer.entry) ≡ take result out.new ∷ [] }
    ensures short { result < buffer_of answer.entry }
{
    match answer {
        Answer::Frame(frame) => {
            let at = put_text(b"frame ", at, out);
            put_number(frame, at, out)
        }
        Answer::Freed(order) => {
            let at = put_text(b"freed ", at, out);
            put_number(u32::from(order), at, out)
        }
        Answer::Bytes(bytes) => put_bytes(bytes, at, out),
        Answer::Written(count) => {
            let at = put_text(b"written ", at, out);
            put_number(count, at, out)
        }
        Answer::Cache {
            cache,
            chunk,
            order,
            objects,
            colours,
        } => put_cache(cache, chunk, order, objects, colours, at, out),
        Answer::Destroyed(frames) => put_labelled(b"destroyed ", frames, at, out),
        Answer::Object(place) => {
            let at = put_text(b"object ", at, out);
            put_number(place, at, out)
        }
        Answer::Given => put_text(b"given", at, out),
        Answer::Reaped(frames) => put_labelled(b"reaped ", frames, at, out),
        Answer::Refused(refusal) => put_refused(refusal, at, out),
        Answer::Granted {
            tenant,
            slot,
            superblock,
        } => {
            let at = put_text(b"granted ", at, out);
            put_slot(tenant, slot, superblock, at, out)
        }
        Answer::TakenBack(superblock) => {
            put_labelled(b"taken superblock ", u32::from(superblock), at, out)
        }
        Answer::WasReset {
            tenant,
            superblocks,
        } => {
            let at = put_labelled(b"reset ", u32::from(tenant), at, out);
            put_labelled(b" superblocks ", u32::from(superblocks), at, out)
        }
        Answer::Moved {
            tenant,
            slot,
            superblock,
        } => {
            let at = put_text(b"moved ", at, out);
            put_slot(tenant, slot, superblock, at, out)
        }
        Answer::Fault(fault) => put_fault(fault, at, out),
    }
}

/// Writes the word `bytes`, and then the bytes that were read, in hex.
fn put_bytes(bytes: &[u8], at: usize, out: &mut [u8]) -> usize
    requires few { length bytes.now ≤ MAX_BYTES }
    requires front { at ≤ MAX_FRONT_BYTES }
    requires space { MAX_ANSWER_BYTES ≤ length out.old }
    ensures text { take result out.new ≡ take at out.old ++ codes "bytes " ++ encode_lower bytes.now }
    ensures short { result < MAX_ANSWER_BYTES }
{
    let at = put_text(b"bytes ", at, out);
    put_digits(bytes, at, out)
}

/// Calls [`put_hex`], but is not inlined.
#[inline(never)]
fn put_digits(bytes: &[u8], at: usize, out: &mut [u8]) -> usize
    requires { at + 2 * length bytes.now ≤ length out.old }
    ensures text { take result out.new ≡ take at out.old ++ encode_lower bytes.now }
    ensures end { result ≡ at + 2 * length bytes.now }
{
    put_hex(bytes, at, out)
}

/// Writes the numbers of a tenant, of one of its slots, and of the superblock in that slot.
#[cold]
#[inline(never)]
fn put_slot(tenant: u8, slot: u16, superblock: u16, at: usize, out: &mut [u8]) -> usize
    requires front { at ≤ MAX_FRONT_BYTES + 8 }
    requires space { MAX_ANSWER_BYTES ≤ length out.old }
    ensures text { take result out.new
        ≡ take at out.old ++ decimal tenant ++ codes " slot " ++ decimal slot ++ codes " superblock " ++ decimal superblock }
    ensures short { result < MAX_ANSWER_BYTES }
{
    let at = put_number(u32::from(tenant), at, out);
    let at = put_labelled(b" slot ", u32::from(slot), at, out);
    put_labelled(b" superblock ", u32::from(superblock), at, out)
}

/// Writes that a cache was made: its number and its layout. The chunk is in bytes; a slab has `2^order` frames.
#[cold]
#[inline(never)]
fn put_cache(
    cache: u8,
    chunk: u32,
    order: u8,
    objects: u32,
    colours: u32,
    at: usize,
    out: &mut [u8],
) -> usize
    requires front { at ≤ MAX_FRONT_BYTES }
    requires space { MAX_ANSWER_BYTES ≤ length out.old }
    ensures text { body_texts (take at out.old) (Cache cache chunk order objects colours) ≡ take result out.new ∷ [] }
    ensures short { result < MAX_ANSWER_BYTES }
{
    let at = put_labelled(b"cache ", u32::from(cache), at, out);
    let at = put_labelled(b" chunk ", chunk, at, out);
    let at = put_labelled(b" order ", u32::from(order), at, out);
    let at = put_labelled(b" objects ", objects, at, out);
    put_labelled(b" colours ", colours, at, out)
}

/// Writes that a command was refused, with the number and the name of the refusal.
#[tactic(auto, using(crate::proofs::DigitLemmas::length_short))]
#[cold]
#[inline(never)]
fn put_refused(refusal: Refusal, at: usize, out: &mut [u8]) -> usize
    requires front { at ≤ MAX_FRONT_BYTES }
    requires space { SHORT_ANSWER_BYTES ≤ length out.old }
    ensures text { body_texts (take at out.old) (Refused refusal) ≡ take result out.new ∷ [] }
    ensures short { result < SHORT_ANSWER_BYTES }
{
    let at = put_text(b"refused ", at, out);
    let at = put_number(u32::from(refusal.number()), at, out);
    let at = put_text(b" ", at, out);
    put_text(refusal.name().as_bytes(), at, out)
}

/// Writes that a line is faulty, with the name of the fault.
#[cold]
#[inline(never)]
fn put_fault(fault: LineFault, at: usize, out: &mut [u8]) -> usize
    requires front { at ≤ MAX_FRONT_BYTES }
    requires space { SHORT_ANSWER_BYTES ≤ length out.old }
    ensures text { body_texts (take at out.old) (Fault fault) ≡ take result out.new ∷ [] }
    ensures short { result < SHORT_ANSWER_BYTES }
{
    let at = put_text(b"fault ", at, out);
    put_text(fault.name().as_bytes(), at, out)
}
