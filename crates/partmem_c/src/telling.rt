//! Converts a reply to numbers and bytes.

ghost use Rattle.std.specs.Prelude.{◌≡◌, ◌≤◌, length};
ghost use Rattle.words_core.specs.Requests.{body_of_answer, HasFewBytes};
ghost use Rattle.words_core.specs.declared.reply.Body.TheVariants as Say;
ghost use Rattle.partmem_c.specs.Events.{numbers_of_body, answered_bytes, reply_numbers, top_number};

use crate::kinds::{
    BYTES, DESTROYED, FIGURES, FRAME, FREED, GIVEN, GRANTED, MADE, MOVED, NOTHING, OBJECT, OWNERS,
    REAPED, REFUSED, TAKEN_BACK, WAS_RESET, WRITTEN,
};
use model_core::limits::{MAX_BYTES, WIDE_SUPERBLOCKS};
use model_core::owner::Owner;
use words_core::{Answer, Report};

/// The reply to an event as numbers. [`crate::kinds`] says which numbers each kind has, in order. The fields after them are 0.
#[repr(C)]
#[derive(Clone, Copy, Debug)]
pub struct ReplyNumbers {
    pub kind: u32,
    pub first: u32,
    pub second: u32,
    pub third: u32,
    pub fourth: u32,
    pub fifth: u32,
}

/// Returns the numbers of a table of owners: the kind and the number of superblocks. The owners themselves are left out.
pub fn numbers_of_owners(owners: &[Option<Owner>]) -> ReplyNumbers
    requires { length owners.now ≤ WIDE_SUPERBLOCKS }
    ensures { result ≡ numbers_of_body (Say.Owners (record { items = owners.now })) }
{
    one(OWNERS, owners.len() as u32)
}

/// Returns the numbers of a report: the kind and five figures. The rows of the report are left out.
pub fn numbers_of_report(report: &Report) -> ReplyNumbers
    ensures { result ≡ numbers_of_body (Say.Report report.now) }
{
    ReplyNumbers {
        kind: FIGURES,
        first: report.frames,
        second: report.live,
        third: report.free,
        fourth: top_number(report.top),
        fifth: report.split,
    }
}

/// Returns the numbers of an answer: the kind, and the numbers that [`crate::kinds`] lists for this kind.
#[inline(always)]
pub fn numbers_of_answer(answer: Answer<'_>) -> ReplyNumbers
    requires { HasFewBytes answer }
    ensures { result ≡ numbers_of_body (body_of_answer answer.entry) }
{
    match answer {
        Answer::Frame(frame) => one(FRAME, frame),
        Answer::Freed(order) => one(FREED, u32::from(order)),
        Answer::Bytes(bytes) => one(BYTES, bytes.len() as u32),
        Answer::Written(count) => one(WRITTEN, count),
        Answer::Cache {
            cache,
            chunk,
            order,
            objects,
            colours,
        } => ReplyNumbers {
            kind: MADE,
            first: u32::from(cache),
            second: chunk,
            third: u32::from(order),
            fourth: objects,
            fifth: colours,
        },
        Answer::Destroyed(frames) => one(DESTROYED, frames),
        Answer::Object(place) => one(OBJECT, place),
        Answer::Given => one(GIVEN, 0),
        Answer::Reaped(frames) => one(REAPED, frames),
        Answer::Refused(refusal) => one(REFUSED, u32::from(refusal.number())),
        Answer::Granted {
            tenant,
            slot,
            superblock,
        } => three(
            GRANTED,
            u32::from(tenant),
            u32::from(slot),
            u32::from(superblock),
        ),
        Answer::TakenBack(superblock) => one(TAKEN_BACK, u32::from(superblock)),
        Answer::WasReset {
            tenant,
            superblocks,
        } => three(WAS_RESET, u32::from(tenant), u32::from(superblocks), 0),
        Answer::Moved {
            tenant,
            slot,
            superblock,
        } => three(
            MOVED,
            u32::from(tenant),
            u32::from(slot),
            u32::from(superblock),
        ),
        Answer::Fault(_) => one(NOTHING, 0),
    }
}

#[inline(always)]
fn one(kind: u32, first: u32) -> ReplyNumbers
    ensures { result ≡ reply_numbers kind first 0 0 0 0 }
{
    three(kind, first, 0, 0)
}

#[inline(always)]
fn three(kind: u32, first: u32, second: u32, third: u32) -> ReplyNumbers
    ensures { result ≡ reply_numbers kind first second third 0 0 }
{
    ReplyNumbers {
        kind,
        first,
        second,
        third,
        fourth: 0,
        fifth: 0,
    }
}

fn top_number(top: Option<u8>) -> u32
    ensures { result ≡ top_number top }
{
    match top {
        None => 0,
        Some(order) => u32::from(order) + 1,
    }
}

/// Returns the bytes in an answer. Only the answer to a read has bytes.
#[inline(always)]
pub fn bytes_in_reply(answer: Answer<'_>) -> &[u8]
    requires { HasFewBytes answer }
    ensures value { result.now ≡ answered_bytes (body_of_answer answer.entry) }
    ensures few { length result.now ≤ MAX_BYTES }
{
    match answer {
        Answer::Bytes(bytes) => bytes,
        _ => &[],
    }
}
