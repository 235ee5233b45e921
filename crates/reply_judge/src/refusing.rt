//! Refusals of a tenant's commands.

ghost use Rattle.std.specs.Prelude.{◌≡◌, ◌≤◌, ◌<◌, ℕ, [], ◌∷◌, None, is_none, not};
ghost use Rattle.words_core.specs.Requests.{body_of_answer};
ghost use Rattle.words_core.specs.declared.event.Event.TheVariants as On;
ghost use Rattle.words_core.specs.declared.reply.Body.TheVariants as Say;
ghost use Rattle.words_core.specs.declared.reply.Refusal.{Refusal as Told};
ghost use Rattle.promise_core.specs.Bytes.{holder_of};
ghost use Rattle.promise_core.specs.State.{State, Known};
ghost use Rattle.promise_core.specs.Promises.{due, first_due, is_used_up, room};
ghost use Rattle.reply_judge.specs.Judged.{IsUnfit, IsVerdictFor, known_at};
ghost use Rattle.reply_judge.specs.Seen.{state_of};

use crate::bytes::is_length;
use crate::tenant::Tenant;
use crate::verdict::{Failure, on_refusal};
use known_holdings::HeldCache;
use promise_core::promise::Promise;
use words_core::{Answer, Command, Refusal};

impl Tenant {
    /// Judges a refusal of the command. Any other answer breaks the promise `Form`, since answers that fit the command are judged
    /// elsewhere.
    pub(crate) fn judge_refusal(
        &self,
        command: &Command,
        answer: &Answer<'_>,
    ) -> Result<(), Failure>
        requires { (t : ℕ) → IsUnfit (On.Tenant t command.now) answer.now }
        ensures { (t : ℕ) (w : Known)
            → IsVerdictFor (On.Tenant t command.now) (body_of_answer answer.now) w self.now self.now result }
    {
        let Answer::Refused(refusal) = answer else {
            return Err(Failure::Broken(Promise::Form));
        };
        let full = self.has_no_room(command);
        on_refusal(*refusal, self.due(command), full, false)
    }

    /// Returns the refusal that must come in reply to the command, if any.
    #[tactic(auto, unfolding(promise_core::specs::Promises::due))]
    pub(crate) fn due(&self, command: &Command) -> Option<Refusal>
        ensures { (t : ℕ) (w : Known)
            → result ≡ due (On.Tenant t command.now) (known_at self.now w) (state_of self.now) }
    {
        match command {
            Command::Alloc { order } => {
                due_if(*order > u32::from(self.left.order()), Refusal::BadOrder)
            }
            Command::Free { frame } => {
                due_if(self.held.order_at(*frame).is_none(), Refusal::NotABlock)
            }
            Command::Read { len, .. } if !is_length(*len) => Some(Refusal::BadLength),
            Command::Read { place, len } => self.due_of_reach(*place, *len),
            Command::Write { place, bytes } => self.due_of_reach(*place, bytes.len() as u32),
            Command::Cache { size, align, .. } => self.due_of_cache(*size, *align),
            Command::Destroy { cache } => self.due_of_destroy(*cache),
            Command::Take { cache } => {
                due_if(self.held.cache(*cache).is_none(), Refusal::NoCache)
            }
            Command::Give { cache, place } => self.due_of_give(*cache, *place),
            Command::Reap | Command::Report => None,
        }
    }

    /// Returns `OutOfReach` if no live page block and no live object contains the range.
    fn due_of_reach(&self, place: u32, len: u32) -> Option<Refusal>
        ensures { result ≡ first_due ((is_none (holder_of self.now.has place len), Told.OutOfReach) ∷ []) }
    {
        due_if(
            self.held.holder_of(place, len).is_none(),
            Refusal::OutOfReach,
        )
    }

    /// Returns whether no frames are left for what the command requests. The result means nothing if a refusal is due.
    fn has_no_room(&self, command: &Command) -> bool
        ensures { (t : ℕ) (w : Known) → due (On.Tenant t command.now) (known_at self.now w) (state_of self.now) ≡ None
            → result ≡ room (On.Tenant t command.now) (Say.Refused Told.NoFrames) (known_at self.now w) (state_of self.now) }
    {
        let order = self.left.order();
        match command {
            Command::Alloc { order: k } if *k <= u32::from(order) => {
                !self.held.has_vacant_block(order, *k as u8)
            }
            Command::Take { cache } => match self.held.cache(*cache) {
                Some(cache) => self.is_used_up(cache),
                None => false,
            },
            _ => false,
        }
    }

    /// Returns whether every slab of the cache that has a live object is full, and no block is vacant for a new slab.
    fn is_used_up(&self, cache: &HeldCache) -> bool
        ensures { result ≡ is_used_up self.now.left.order self.now.has cache.now }
    {
        cache.is_full() && !self.held.has_vacant_block(self.left.order(), cache.order())
    }
}

/// Returns this refusal if it is due.
pub(crate) fn due_if(is_due: bool, refusal: Refusal) -> Option<Refusal>
    ensures { result ≡ first_due ((is_due, refusal) ∷ []) }
{
    is_due.then_some(refusal)
}
