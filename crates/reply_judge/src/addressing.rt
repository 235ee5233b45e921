//! The tenant that an event names, and the addressee that its reply must have.

ghost use Rattle.std.specs.Prelude.{◌≡◌, [], ◌∷◌, false};
ghost use Rattle.promise_core.specs.declared.promise.Promise.{Promise};
ghost use Rattle.promise_core.specs.Promises.{is_for, is_no_tenant, named};
ghost use Rattle.words_core.specs.Requests.{body_of_answer};
ghost use Rattle.reply_judge.specs.Judged.{broken};

use crate::verdict::Verdict;
use promise_core::promise::Promise;
use words_core::{Addressee, AdminCommand, Answer, Event, Refusal};

/// Returns the tenant that the event names, if it names one. The tenant may not exist.
pub(crate) fn tenant_named(event: &Event) -> Option<u32>
    ensures { result ≡ named event.now }
{
    match event {
        Event::Tenant(t, _) => Some(*t),
        Event::Admin(AdminCommand::Grant { tenant }) => Some(*tenant),
        Event::Admin(AdminCommand::TakeBack { tenant, .. }) => Some(*tenant),
        Event::Admin(AdminCommand::Reset { tenant }) => Some(*tenant),
        Event::Admin(AdminCommand::Move { tenant, .. }) => Some(*tenant),
        Event::Admin(AdminCommand::Pool) => None,
    }
}

/// Returns whether a reply to the event may have this addressee. `exists` says whether the tenant that the event names exists.
pub(crate) fn is_for(event: &Event, exists: bool, addressee: Addressee) -> bool
    ensures { result ≡ is_for event.now exists addressee }
{
    match (event, addressee) {
        (Event::Tenant(t, _), Addressee::Tenant(named)) => exists && u32::from(named) == *t,
        (Event::Tenant(_, _), Addressee::Nobody) => !exists,
        (Event::Admin(_), Addressee::Admin) => true,
        _ => false,
    }
}

/// Judges the reply to an event that names an unknown tenant. `is_no_tenant` says whether the reply is the refusal `NoTenant`.
pub(crate) fn judge_stranger(event: &Event, addressee: Addressee, is_no_tenant: bool) -> Verdict
    ensures { result ≡ broken ((Promise.Form, is_for event.now false addressee) ∷ (Promise.Refusals, is_no_tenant) ∷ []) }
{
    if !is_for(event, false, addressee) {
        Err(Promise::Form)
    } else if is_no_tenant {
        Ok(())
    } else {
        Err(Promise::Refusals)
    }
}

/// Returns whether the answer is the refusal `NoTenant`.
pub(crate) fn says_no_tenant(answer: &Answer<'_>) -> bool
    ensures { result ≡ is_no_tenant (body_of_answer answer.now) }
{
    match answer {
        Answer::Refused(refusal) => refusal.number() == Refusal::NoTenant.number(),
        _ => false,
    }
}
