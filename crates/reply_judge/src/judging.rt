//! Verdicts on replies to any event. An allowed reply also updates what is known.

ghost use Rattle.std.specs.Prelude.{◌≡◌, None, Ok, Err, true, IfOk, OnErr};
ghost use Rattle.words_core.specs.Requests.{is_table, reply_to};
ghost use Rattle.promise_core.specs.declared.promise.Promise.{Promise};
ghost use Rattle.promise_core.specs.State.{Known};
ghost use Rattle.promise_core.specs.Promises.{allowed, named};
ghost use Rattle.reply_judge.specs.Adding.{IsAllowedAddition};
ghost use Rattle.reply_judge.specs.Judged.{IsJudged, failing};
ghost use Rattle.reply_judge.specs.KnownMachine.{ShowsKnown, IsVerdict, KeepsSizes};

use crate::addressing::{is_for, judge_stranger, says_no_tenant, tenant_named};
use crate::known_machine::KnownMachine;
use crate::owners::judge_pool;
use crate::verdict::{Failure, Verdict, followed, on_refusal};
use promise_core::promise::Promise;
use std::alloc::AllocError;
use words_core::{Addressee, Answer, Body, Event, Reply};

impl KnownMachine {
    /// Judges an answer to the event, and updates the state if the answer is allowed. Returns the first promise that the answer
    /// breaks, if it breaks one. Returns `AllocError` if memory runs out for what an allowed answer adds. In both cases the state
    /// is unchanged.
    pub fn judge(
        &mut self,
        event: &Event,
        addressee: Addressee,
        answer: &Answer<'_>,
    ) -> Result<Verdict, AllocError>
        ensures judged { IfOk result (λ verdict. (w : Known) → ShowsKnown self.old w
            → IsVerdict verdict (allowed event.now (reply_to addressee answer.now) w) self.new) }
        ensures broken { (promise : Promise) → result ≡ Ok (Err promise) → self.new ≡ self.old }
        ensures failed { OnErr result (self.new ≡ self.old) }
        ensures memory { OnErr result (IsAllowedAddition event.now (reply_to addressee answer.now) self.old) }
        ensures sizes { KeepsSizes self.old self.new }
    {
        match self.judge_answer(event, addressee, answer) {
            Ok(()) => Ok(Ok(())),
            Err(Failure::Broken(promise)) => Ok(Err(promise)),
            Err(Failure::Memory(error)) => Err(error),
        }
    }

    /// Does the same as [`KnownMachine::judge`], but a broken promise is an error, too.
    fn judge_answer(
        &mut self,
        event: &Event,
        addressee: Addressee,
        answer: &Answer<'_>,
    ) -> Result<(), Failure>
        ensures { IsJudged event.now (reply_to addressee answer.now) self.old self.new result }
    {
        let Some(t) = tenant_named(event) else {
            return self.judge_unnamed(event, addressee, answer);
        };
        if t as usize >= self.tenants.len() {
            return followed(judge_stranger(event, addressee, says_no_tenant(answer)));
        }
        if !is_for(event, true, addressee) {
            return Err(Failure::Broken(Promise::Form));
        }
        match event {
            Event::Tenant(_, command) => self.tenants[t as usize].judge(command, answer),
            Event::Admin(command) => {
                self.tenants[t as usize].judge_admin(&mut self.owners, command, answer)
            }
        }
    }

    /// Judges an answer to an event that names no tenant. The only such event is the pool command, and the only reply that it
    /// allows is a table of owners. An answer is a reply of one line and never a table, so every answer breaks a promise.
    fn judge_unnamed(
        &self,
        event: &Event,
        addressee: Addressee,
        answer: &Answer<'_>,
    ) -> Result<(), Failure>
        requires { named event.now ≡ None }
        ensures { IsJudged event.now (reply_to addressee answer.now) self.now self.now result }
    {
        if !is_for(event, true, addressee) {
            return Err(Failure::Broken(Promise::Form));
        }
        match answer {
            Answer::Refused(refusal) => on_refusal(*refusal, None, false, false),
            _ => Err(Failure::Broken(Promise::Form)),
        }
    }

    /// Judges a report or a table of owners in reply to the event, and updates the state if the reply is allowed. Returns the
    /// first promise that the reply breaks, if it breaks one. The state is then unchanged.
    #[cold]
    #[inline(never)]
    pub fn judge_table(&mut self, event: &Event, reply: &Reply) -> Verdict
        requires { is_table reply.now.body ≡ true }
        ensures judged { (w : Known) → ShowsKnown self.old w → IsVerdict result (allowed event.now reply.now w) self.new }
        ensures broken { (promise : Promise) → result ≡ Err promise → self.new ≡ self.old }
        ensures sizes { KeepsSizes self.old self.new }
    {
        self.judge_rows(event, reply)
    }

    /// Does the same as [`KnownMachine::judge_table`]. Its contract states everything as one fact.
    fn judge_rows(&mut self, event: &Event, reply: &Reply) -> Verdict
        requires { is_table reply.now.body ≡ true }
        ensures { IsJudged event.now reply.now self.old self.new (failing result) }
    {
        let Some(t) = tenant_named(event) else {
            return self.judge_owners(event, reply);
        };
        if t as usize >= self.tenants.len() {
            return judge_stranger(event, reply.addressee, false);
        }
        if !is_for(event, true, reply.addressee) {
            return Err(Promise::Form);
        }
        match event {
            Event::Tenant(_, command) => match &reply.body {
                Body::Report(report) => self.tenants[t as usize].judge_rows(command, report),
                _ => Err(Promise::Form),
            },
            Event::Admin(_) => Err(Promise::Form),
        }
    }

    /// Judges a table in reply to an event that names no tenant.
    fn judge_owners(&self, event: &Event, reply: &Reply) -> Verdict
        requires table { is_table reply.now.body ≡ true }
        requires named { named event.now ≡ None }
        ensures { IsJudged event.now reply.now self.now self.now (failing result) }
    {
        if !is_for(event, true, reply.addressee) {
            return Err(Promise::Form);
        }
        match &reply.body {
            Body::Owners(table) => judge_pool(&self.owners, table),
            _ => Err(Promise::Form),
        }
    }
}
