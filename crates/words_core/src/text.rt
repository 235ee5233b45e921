//! The text of a reply, line by line.

ghost use Rattle.std.specs.Prelude.{◌≡◌, ◌+◌, ◌<◌, ◌≤◌, length, slice_get, take, Some};
ghost use Rattle.words_core.specs.Texts.{owner_text, pool_texts, body_texts, lines_of};
ghost use Rattle.words_core.specs.Requests.{reply_of_table, HasFewRows};

use crate::answer::{MAX_FRONT_BYTES, put_addressee, put_answer};
use crate::reply::{Addressee, Body, OWNERS, Reply};
use crate::report::{Report, put_report};
use crate::window::{put_labelled, put_text};
use arrayvec::ArrayVec;
use model_core::limits::WIDE_SUPERBLOCKS;
use model_core::owner::Owner;

/// Size in bytes of a buffer for any line of a reply, including its line feed.
pub const MAX_REPLY_BYTES: usize = 256;

/// The largest number of lines in a [`Reply`]. The table of owners has a first line, and then a line for each superblock.
pub const MAX_ROWS: usize = 1 + OWNERS;

/// The largest number of lines in a [`Table`].
pub const TABLE_ROWS: usize = 1 + WIDE_SUPERBLOCKS as usize;

/// Returns the number of lines of a reply.
#[tactic(auto, using(crate::proofs::TextLemmas::table_rows))]
pub fn rows(reply: &Reply) -> usize
    ensures count { result ≡ length (lines_of reply.now) }
    ensures few { result ≤ MAX_ROWS }
{
    match &reply.body {
        Body::Owners(owners) => 1 + owners.len(),
        Body::Report(report) => 1 + report.orders.len() + report.caches.len(),
        _ => 1,
    }
}

/// Replaces the contents of `out` with one line of a reply, including its line feed. Rows are counted from 0.
pub fn write_line(reply: &Reply, row: usize, out: &mut ArrayVec<u8, MAX_REPLY_BYTES>)
    requires { row < length (lines_of reply.now) }
    ensures { slice_get (lines_of reply.now) row ≡ Some out.new.items }
{
    let mut text = [0; MAX_REPLY_BYTES];
    let len = write_row(reply, row, &mut text);
    out.clear();
    let taken = out.try_extend_from_slice(&text[..len]);
    prove!(taken.is_ok());
}

/// Writes one line of a reply to the front of a slice, as [`write_line`] does. Returns the length of the line in bytes.
pub fn write_row(reply: &Reply, row: usize, out: &mut [u8]) -> usize
    requires row { row < length (lines_of reply.now) }
    requires space { MAX_REPLY_BYTES ≤ length out.old }
    ensures text { slice_get (lines_of reply.now) row ≡ Some (take result out.new) }
    ensures short { result ≤ MAX_REPLY_BYTES }
{
    let at = put_addressee(reply.addressee, out);
    let at = put_body(&reply.body, row, at, out);
    put_text(b"\n", at, out)
}

/// A reply of several lines that borrows its rows.
#[derive(Clone, Copy, Debug)]
pub enum Table<'a> {
    /// To the administrator: for each superblock, in ascending order, its owner if it has one.
    Owners(&'a [Option<Owner>]),
    /// To the tenant with this number: the figures of its memory.
    Report(u8, &'a Report),
}

impl Table<'_> {
    /// Returns the number of lines of this reply.
    #[tactic(auto, using(crate::proofs::TextLemmas::table_rows))]
    pub fn rows(self) -> usize
        requires { HasFewRows self }
        ensures count { result ≡ length (lines_of (reply_of_table self.entry)) }
        ensures few { result ≤ TABLE_ROWS }
    {
        match self {
            Table::Owners(owners) => 1 + owners.len(),
            Table::Report(_, report) => 1 + report.orders.len() + report.caches.len(),
        }
    }

    /// Writes one line of this reply, with its line feed, to the front of a slice. Returns the length of the line in bytes. Rows
    /// are counted from 0.
    pub fn write_row(self, row: usize, out: &mut [u8]) -> usize
        requires rows { HasFewRows self }
        requires row { row < length (lines_of (reply_of_table self)) }
        requires space { MAX_REPLY_BYTES ≤ length out.old }
        ensures text { slice_get (lines_of (reply_of_table self.entry)) row ≡ Some (take result out.new) }
        ensures short { result ≤ MAX_REPLY_BYTES }
    {
        let at = put_addressee(self.addressee(), out);
        let at = self.put_row(row, at, out);
        put_text(b"\n", at, out)
    }

    /// Returns the addressee of this reply.
    pub fn addressee(self) -> Addressee
        ensures { result ≡ (reply_of_table self.entry).addressee }
    {
        match self {
            Table::Owners(_) => Addressee::Admin,
            Table::Report(tenant, _) => Addressee::Tenant(tenant),
        }
    }

    #[tactic(auto, using(crate::proofs::TextLemmas::table_rows))]
    fn put_row(self, row: usize, at: usize, out: &mut [u8]) -> usize
        requires rows { HasFewRows self }
        requires row { row < length (body_texts (take at out.old) (reply_of_table self).body) }
        requires front { at ≤ MAX_FRONT_BYTES }
        requires space { MAX_REPLY_BYTES ≤ length out.old }
        ensures text { slice_get (body_texts (take at out.old) (reply_of_table self.entry).body) row ≡ Some (take result out.new) }
        ensures short { result < MAX_REPLY_BYTES }
    {
        match self {
            Table::Owners(owners) => put_owners(owners, row, at, out),
            Table::Report(_, report) => put_report(report, row, at, out),
        }
    }
}

/// Writes one line of the body after the first `at` bytes and returns the index of its end. The functions below also write after
/// the first `at` bytes and return the end.
#[tactic(auto, using(crate::proofs::TextLemmas::table_rows))]
fn put_body(body: &Body, row: usize, at: usize, out: &mut [u8]) -> usize
    requires row { row < length (body_texts (take at out.old) body.now) }
    requires front { at ≤ MAX_FRONT_BYTES }
    requires space { MAX_REPLY_BYTES ≤ length out.old }
    ensures text { slice_get (body_texts (take at out.old) body.now) row ≡ Some (take result out.new) }
    ensures short { result < MAX_REPLY_BYTES }
{
    match body {
        Body::Owners(owners) => put_owners(owners.as_slice(), row, at, out),
        Body::Report(report) => put_report(report, row, at, out),
        _ => put_answer(body.answer().unwrap(), at, out),
    }
}

/// Writes a line of the table of owners.
#[tactic(auto, using(crate::proofs::TextLemmas::table_rows))]
fn put_owners(owners: &[Option<Owner>], row: usize, at: usize, out: &mut [u8]) -> usize
    requires row { row < length owners.now + 1 }
    requires few { length owners.now ≤ WIDE_SUPERBLOCKS }
    requires front { at ≤ MAX_FRONT_BYTES }
    requires space { MAX_REPLY_BYTES ≤ length out.old }
    ensures text { slice_get (pool_texts (take at out.old) owners.now) row ≡ Some (take result out.new) }
    ensures short { result < MAX_REPLY_BYTES }
{
    match row.checked_sub(1) {
        None => {
            let free = owners.iter().filter(|owner| owner.is_none()).count();
            let at = put_labelled(b"pool free ", free as u32, at, out);
            put_labelled(b" of ", owners.len() as u32, at, out)
        }
        Some(superblock) => put_owner(superblock as u32, owners[superblock], at, out),
    }
}

/// Writes the line of a superblock: its owner and the owner's slot, or `free`.
#[inline(never)]
fn put_owner(superblock: u32, owner: Option<Owner>, at: usize, out: &mut [u8]) -> usize
    requires front { at ≤ MAX_FRONT_BYTES }
    requires space { MAX_REPLY_BYTES ≤ length out.old }
    ensures text { take result out.new ≡ owner_text (take at out.old) superblock owner }
    ensures short { result < MAX_REPLY_BYTES }
{
    let at = put_labelled(b"superblock ", superblock, at, out);
    match owner {
        None => put_text(b" free", at, out),
        Some(owner) => {
            let at = put_labelled(b" tenant ", u32::from(owner.tenant), at, out);
            put_labelled(b" slot ", u32::from(owner.slot), at, out)
        }
    }
}
