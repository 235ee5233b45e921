//! Answers to commands about objects. An answer that keeps every promise is followed: it updates the state.

ghost use Rattle.std.specs.Prelude.{◌≡◌, ◌≤◌, ◌<◌, ℕ, Some, IfOk};
ghost use Rattle.words_core.specs.declared.event.Event.TheVariants as On;
ghost use Rattle.words_core.specs.declared.event.Command.TheVariants as Command;
ghost use Rattle.words_core.specs.declared.reply.Body.TheVariants as Say;
ghost use Rattle.promise_core.specs.Holdings.{known_cache};
ghost use Rattle.promise_core.specs.State.{Known};
ghost use Rattle.promise_core.specs.Promises.{due};
ghost use Rattle.reply_judge.specs.Judged.{IsVerdictFor, known_at, tenant_verdict, only_verdict};
ghost use Rattle.reply_judge.specs.Seen.{state_of};

use crate::marks::set_mark;
use crate::tenant::{Tenant, forget};
use crate::verdict::{Failure, on_answer};
use known_holdings::HeldCache;
use promise_core::promise::Promise;
use words_core::Refusal;

impl Tenant {
    /// Judges and follows an answer to a take from the cache with this number. The answer reports the object at the place.
    pub(crate) fn add_object(&mut self, number: u32, place: u32) -> Result<(), Failure>
        ensures { (t : ℕ) (w : Known)
            → IsVerdictFor (On.Tenant t (Command.Take number)) (Say.Object place) w self.old self.new result }
    {
        let cache = self.cache_with(number, place)?;
        let slab = cache.slab_around(place);
        let own_number = cache.number();
        let size = cache.size();
        self.held.take(number, place)?;
        self.left.take(&slab, own_number, place, size);
        set_mark(&mut self.may_have_empty, number);
        forget(&mut self.last_report);
        Ok(())
    }

    /// Returns the cache with this number, if a take from it may return the object at the place, or else the promise that the
    /// answer breaks.
    fn cache_with(&self, number: u32, place: u32) -> Result<&HeldCache, Promise>
        ensures judged { (t : ℕ) (w : Known)
            → only_verdict result ≡ tenant_verdict (On.Tenant t (Command.Take number)) (Say.Object place) w self.now }
        ensures is { IfOk result (λ cache. known_cache self.now.has number ≡ Some cache.now) }
    {
        let Some(cache) = self.held.cache(number) else {
            return Err(Promise::Refusals);
        };
        if !self.held.can_be_taken(self.left.order(), cache, place) {
            return Err(Promise::Objects);
        }
        Ok(cache)
    }

    /// Judges and follows an answer to a give. The command gives the object at the place back to the cache with this number.
    pub(crate) fn drop_object(&mut self, number: u32, place: u32) -> Result<(), Failure>
        ensures { (t : ℕ) (w : Known)
            → IsVerdictFor (On.Tenant t (Command.Give number place)) Say.Given w self.old self.new result }
    {
        on_answer(self.due_of_give(number, place), Promise::Gives, true)?;
        self.held.give(number, place);
        self.left.give(number, place);
        forget(&mut self.last_report);
        Ok(())
    }

    /// Returns the refusal that must come in reply to a give, if any.
    #[tactic(auto, unfolding(promise_core::specs::Promises::due))]
    pub(crate) fn due_of_give(&self, number: u32, place: u32) -> Option<Refusal>
        ensures { (t : ℕ) (w : Known)
            → result ≡ due (On.Tenant t (Command.Give number place)) (known_at self.now w) (state_of self.now) }
    {
        match self.held.cache(number) {
            Some(cache) if cache.has_live(place) => None,
            Some(_) => Some(Refusal::NotAnObject),
            None => Some(Refusal::NoCache),
        }
    }
}
