//! Verdicts on a reply.

ghost use Rattle.std.specs.Prelude.{◌≡◌, [], ◌∷◌, is_none, ◌&&◌};
ghost use Rattle.promise_core.specs.declared.promise.Promise.{Promise};
ghost use Rattle.reply_judge.specs.declared.verdict.Failure.TheVariants.{Broken, Memory};
ghost use Rattle.reply_judge.specs.Judged.{failing, broken, on_refusal};

use promise_core::promise::Promise;
use std::alloc::AllocError;
use words_core::Refusal;

/// `Ok` if a reply keeps every promise, or else the first promise that it breaks.
pub type Verdict = Result<(), Promise>;

/// Why a reply does not update the state.
#[derive(Drop)]
pub(crate) enum Failure {
    /// The reply breaks this promise.
    Broken(Promise),
    /// Memory runs out for what the reply adds.
    Memory(AllocError),
}

impl From<Promise> for Failure {
    ghost from_gives = { λ promise e. e ≡ Broken promise };

    fn from(promise: Promise) -> Failure {
        Failure::Broken(promise)
    }
}

impl From<AllocError> for Failure {
    ghost from_gives = { λ error e. e ≡ Memory error };

    fn from(error: AllocError) -> Failure {
        Failure::Memory(error)
    }
}

/// Returns the verdict on an answer. `due` is the refusal that must come instead of the answer, if any. `is_kept` says whether
/// the answer keeps `promise`.
pub(crate) fn on_answer(due: Option<Refusal>, promise: Promise, is_kept: bool) -> Verdict
    ensures { result ≡ broken ((Promise.Refusals, is_none due) ∷ (promise, is_kept) ∷ []) }
{
    on_still_answer(due, promise, is_kept, true)
}

/// Does the same as [`on_answer`] for an answer that must also agree with the last report. `is_still` says whether it agrees.
pub(crate) fn on_still_answer(
    due: Option<Refusal>,
    promise: Promise,
    is_kept: bool,
    is_still: bool,
) -> Verdict
    ensures { result ≡ broken ((Promise.Refusals, is_none due) ∷ (promise, is_kept) ∷ (Promise.Still, is_still) ∷ []) }
{
    if due.is_some() {
        Err(Promise::Refusals)
    } else if !is_kept {
        Err(promise)
    } else if !is_still {
        Err(Promise::Still)
    } else {
        Ok(())
    }
}

/// Returns the verdict on a refusal. `due` is the refusal that must come, if any. `full` says whether no frames are left for the
/// request, and `busy` whether the slot may be busy.
pub(crate) fn on_refusal(
    refusal: Refusal,
    due: Option<Refusal>,
    full: bool,
    busy: bool,
) -> Result<(), Failure>
    ensures { result ≡ failing (on_refusal refusal due full busy) }
{
    let is_right = match due {
        Some(due) => refusal.number() == due.number(),
        None => matches!(refusal, Refusal::NoFrames | Refusal::SlotBusy),
    };
    if !is_right {
        return Err(Failure::Broken(Promise::Refusals));
    }
    match refusal {
        Refusal::NoFrames if !full => Err(Failure::Broken(Promise::Room)),
        Refusal::SlotBusy if !busy => Err(Failure::Broken(Promise::Busy)),
        _ => Ok(()),
    }
}

/// Returns the verdict as a result whose error is a `Failure`. A broken promise becomes `Failure::Broken`.
pub(crate) fn followed(verdict: Verdict) -> Result<(), Failure>
    ensures { result ≡ failing verdict }
{
    match verdict {
        Ok(()) => Ok(()),
        Err(promise) => Err(Failure::Broken(promise)),
    }
}

/// Returns whether both are true.
pub(crate) fn both(a: bool, b: bool) -> bool
    ensures { result ≡ (a && b) }
{
    a && b
}
