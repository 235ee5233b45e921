//! Pushes the replies of a replay into a drain.

ghost use Rattle.std.specs.Prelude.{◌≡◌, ◌+◌, ◌≤◌, true, Ok, length};
ghost use Rattle.words_core.specs.declared.reply.Addressee.TheVariants as To;
ghost use Rattle.words_core.specs.Requests.{reply_of_answer, reply_of_table, reply_to, HasFewBytes, HasFewRows};
ghost use Rattle.world_core.specs.Output.{is_shown, shown_text};
ghost use Rattle.replay_core.specs.Pushes.{CanWrite, HasPushed, most_reply_bytes};
ghost use Rattle.replay_core.specs.Shown.{HasShown};
ghost use Rattle.replay_core.specs.Noting.{noted_reply};

use crate::notes::{Notes, note_answer};
use std::marker::Model;
use streams::{Drain, Stopped, TEXT_BYTES, Text};
use words_core::{
    Addressee, Answer, MAX_ANSWER_BYTES, MAX_REPLY_BYTES, Table, write_answer, write_answer_to,
};

/// The replies of a replay. Shows all replies or only those to one tenant, and counts the bytes that the drain took.
#[derive(Debug, Drop)]
pub struct Replies {
    pub only: Option<u8>,
    pub written: u128,
}

impl Replies {
    /// Makes the replies of a new replay, with no bytes counted.
    pub fn new(only: Option<u8>) -> Self
        ensures only { result.only ≡ only }
        ensures none { result.written ≡ 0 }
    {
        Replies { only, written: 0 }
    }

    /// Returns true if replies to this addressee are shown.
    #[inline(always)]
    pub fn is_shown(&self, addressee: Addressee) -> bool
        ensures { result ≡ is_shown self.now.only addressee }
    {
        match (self.only, addressee) {
            (None, _) => true,
            (Some(tenant), Addressee::Tenant(named)) => named == tenant,
            (Some(_), _) => false,
        }
    }

    /// Writes a shown answer to a tenant straight into the drain's buffer, and counts its bytes.
    #[inline(always)]
    pub fn show_in_place<D: Drain>(&mut self, tenant: u8, answer: Answer<'_>, drain: &mut D)
        requires few { HasFewBytes answer }
        requires shown { is_shown self.old.only (To.Tenant tenant) ≡ true }
        requires space { D.is_roomy drain.old ≡ true }
        requires can_write { CanWrite (D.has_failed drain.old) self.old.written most_reply_bytes }
        ensures { HasShown (D.contents drain.old) (D.contents drain.new) (D.has_failed drain.new)
            (shown_text self.old.only (reply_of_answer tenant answer.entry)) self.old self.new (Ok tt) }
    {
        let len = drain.take_text(AnswerText { tenant, answer });
        self.written += len as u128;
    }

    /// Notes an answer to any addressee if it is a refusal, and pushes it from a buffer that fits the longest answer. Does
    /// nothing if the answer is not shown.
    #[cold]
    #[inline(never)]
    pub fn show_to<D: Drain, N: Notes>(
        &mut self,
        addressee: Addressee,
        answer: Answer<'_>,
        drain: &mut D,
        notes: &mut N,
    ) -> Result<(), Stopped>
        requires few { HasFewBytes answer }
        requires can_write { CanWrite (D.has_failed drain.old) self.old.written most_reply_bytes }
        ensures shown { HasShown (D.contents drain.old) (D.contents drain.new) (D.has_failed drain.new)
            (shown_text self.old.only (reply_to addressee answer.entry)) self.old self.new result }
        ensures noted { notes.new ≡ noted_reply N.noting self.old.only (reply_to addressee answer.entry) notes.old }
    {
        if !self.is_shown(addressee) {
            return Ok(());
        }
        note_answer(answer, notes);
        let mut text = [0; MAX_ANSWER_BYTES];
        let len = write_answer_to(addressee, answer, &mut text);
        push_all(&text[..len], drain, &mut self.written)
    }

    /// Pushes a table line by line. Does nothing if the table is not shown. Not inlined, because its lines need stack space that
    /// no other answer needs.
    #[cold]
    #[inline(never)]
    pub fn show_table<D: Drain>(&mut self, table: Table<'_>, drain: &mut D) -> Result<(), Stopped>
        requires rows { HasFewRows table }
        requires can_write { CanWrite (D.has_failed drain.old) self.old.written most_reply_bytes }
        ensures { HasShown (D.contents drain.old) (D.contents drain.new) (D.has_failed drain.new)
            (shown_text self.old.only (reply_of_table table.entry)) self.old self.new result }
    {
        if !self.is_shown(table.addressee()) {
            return Ok(());
        }
        let mut text = [0; MAX_REPLY_BYTES];
        for row in 0..table.rows() {
            let len = table.write_row(row, &mut text);
            push_all(&text[..len], drain, &mut self.written)?;
        }
        Ok(())
    }
}

/// The line of an answer to a tenant.
#[derive(Drop)]
struct AnswerText<'a> {
    tenant: u8,
    answer: Answer<'a>,
}

impl<'a> Model for AnswerText<'a> {
    ghost use Rattle.std.specs.Prelude.{ℕ, List};
    ghost use Rattle.words_core.specs.Requests.{reply_of_answer, HasFewBytes};
    ghost use Rattle.words_core.specs.Texts.{text_of};

    ghost Value = { List ℕ };

    ghost view = { λ a. text_of (reply_of_answer a.tenant a.answer) };

    ghost invariant = { λ a. HasFewBytes a.answer };
}

impl Text for AnswerText<'_> {
    ghost bytes = { λ text. text };

    #[inline(always)]
    fn write(self, buffer: &mut [u8]) -> usize {
        write_answer(self.tenant, self.answer, buffer)
    }
}

/// Pushes all of the bytes, and counts those that the drain took. If a push takes only some of them, pushes the rest.
pub fn push_all<D: Drain>(bytes: &[u8], drain: &mut D, written: &mut u128) -> Result<(), Stopped>
    requires { CanWrite (D.has_failed drain.old) written.old (length bytes.now) }
    ensures { HasPushed (D.contents drain.old) (D.contents drain.new) (D.has_failed drain.new)
        bytes.now written.old written.new result }
{
    let mut rest = bytes;
    while !rest.is_empty() {
        let count = drain.push(rest)?;
        *written += count as u128;
        rest = &rest[count..];
    }
    Ok(())
}
