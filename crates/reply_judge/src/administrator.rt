//! Answers to commands of the administrator about a tenant. An answer that keeps every promise is followed: it updates the state.
//! `owners` has the owner of each superblock.

ghost use Rattle.std.specs.Prelude.{◌≡◌, ◌≤◌, ◌<◌, ◌+◌, ◌*◌, ◌^◌, nat_le, ◌&&◌, ◌||◌, ℕ, false, not, slice_index_or};
ghost use Rattle.std.specs.List.{list_any};
ghost use Rattle.model_core.specs.declared.limits.TheConstants.{FRAME_BYTES};
ghost use Rattle.words_core.specs.Requests.{body_of_answer};
ghost use Rattle.words_core.specs.declared.event.Event.TheVariants as On;
ghost use Rattle.words_core.specs.declared.event.AdminCommand.TheVariants as Do;
ghost use Rattle.words_core.specs.declared.reply.Body.TheVariants as Say;
ghost use Rattle.promise_core.specs.Holdings.{has_slot};
ghost use Rattle.promise_core.specs.State.{State, Known};
ghost use Rattle.promise_core.specs.Promises.{due};
ghost use Rattle.reply_judge.specs.Judged.{IsUnfit, IsVerdictFor, AreOwnersAfter, known_at};
ghost use Rattle.reply_judge.specs.Seen.{state_of};

use crate::owners::{
    are_all_owned, are_counted, give_up_all, give_up_slot, is_granted_to, is_owned_by,
    is_slot_named, is_unowned, set_owner,
};
use crate::refusing::due_if;
use crate::tenant::Tenant;
use crate::verdict::{Failure, both, on_answer, on_refusal};
use model_core::limits::FRAME_BYTES;
use model_core::owner::Owner;
use promise_core::promise::Promise;
use words_core::{AdminCommand, Answer, CACHES, Refusal};

impl Tenant {
    /// Judges and follows an answer to a grant to tenant `t`. The answer reports this tenant, slot and superblock.
    pub(crate) fn add_superblock(
        &mut self,
        owners: &mut [Option<Owner>],
        t: u32,
        tenant: u8,
        slot: u16,
        superblock: u16,
    ) -> Result<(), Failure>
        ensures judged { (w : Known) → IsVerdictFor (On.Admin (Do.Grant t)) (Say.Granted tenant slot superblock)
            (record w { owners = owners.old }) self.old self.new result }
        ensures owners { AreOwnersAfter (On.Admin (Do.Grant t)) (Say.Granted tenant slot superblock) owners.old owners.new
            result }
    {
        let is_granted = is_granted_to(owners, t, tenant, superblock);
        let is_right = both(is_granted, self.is_new_slot(slot));
        on_answer(due_of_grant(owners), Promise::Owners, is_right)?;
        self.held.grant(slot)?;
        if let Err(error) = self.left.grant(slot) {
            self.held.take_back(u32::from(slot));
            return Err(Failure::Memory(error));
        }
        self.last_report = None;
        set_owner(owners, superblock, tenant, slot);
        Ok(())
    }

    /// Returns whether the tenant does not hold the slot, and the slot's places are below `2^32`.
    fn is_new_slot(&self, slot: u16) -> bool
        ensures { result ≡ (not (has_slot self.now.has slot)
            && nat_le ((slot + 1) * 2 ^ self.now.left.order * FRAME_BYTES) (2 ^ 32)) }
    {
        let end = (u64::from(slot) + 1) * (1u64 << self.left.order()) * u64::from(FRAME_BYTES);
        !self.held.has_slot(slot.into()) && end <= 1u64 << 32
    }

    /// Judges and follows an answer to a take-back of this slot of tenant `t`. The answer reports this superblock.
    pub(crate) fn drop_superblock(
        &mut self,
        owners: &mut [Option<Owner>],
        t: u32,
        slot: u32,
        superblock: u16,
    ) -> Result<(), Failure>
        ensures judged { (w : Known) → IsVerdictFor (On.Admin (Do.TakeBack t slot)) (Say.TakenBack superblock)
            (record w { owners = owners.old }) self.old self.new result }
        ensures owners { AreOwnersAfter (On.Admin (Do.TakeBack t slot)) (Say.TakenBack superblock) owners.old owners.new result }
    {
        let is_owned = is_owned_by(owners, superblock, t, slot);
        on_answer(self.due_of_take_back(slot), Promise::Owners, is_owned)?;
        self.held.take_back(slot);
        self.left.take_back(slot);
        self.last_report = None;
        give_up_slot(owners, t, slot);
        Ok(())
    }

    /// Judges and follows an answer to a reset of tenant `t`. The answer reports this tenant and this number of superblocks.
    pub(crate) fn drop_all(
        &mut self,
        owners: &mut [Option<Owner>],
        t: u32,
        tenant: u8,
        superblocks: u16,
    ) -> Result<(), Failure>
        ensures judged { (w : Known) → IsVerdictFor (On.Admin (Do.Reset t)) (Say.WasReset tenant superblocks)
            (record w { owners = owners.old }) self.old self.new result }
        ensures owners { AreOwnersAfter (On.Admin (Do.Reset t)) (Say.WasReset tenant superblocks) owners.old owners.new result }
    {
        let is_counted = are_counted(owners, t, tenant, superblocks);
        on_answer(None, Promise::Owners, is_counted)?;
        self.held.reset();
        self.left.reset();
        self.may_have_empty = [false; CACHES];
        self.last_report = None;
        give_up_all(owners, t);
        Ok(())
    }

    /// Judges and follows an answer to a move of a slot of tenant `t`. The answer reports this tenant, the slot `named` and this
    /// superblock.
    pub(crate) fn put_over(
        &self,
        owners: &mut [Option<Owner>],
        t: u32,
        slot: u32,
        tenant: u8,
        named: u16,
        superblock: u16,
    ) -> Result<(), Failure>
        ensures judged { (w : Known) → IsVerdictFor (On.Admin (Do.Move t slot)) (Say.Moved tenant named superblock)
            (record w { owners = owners.old }) self.now self.now result }
        ensures owners { AreOwnersAfter (On.Admin (Do.Move t slot)) (Say.Moved tenant named superblock) owners.old owners.new
            result }
    {
        let is_named = is_slot_named(t, slot, tenant, named);
        let is_right = both(is_named, is_unowned(owners, superblock));
        on_answer(self.due_of_move(owners, slot), Promise::Owners, is_right)?;
        give_up_slot(owners, t, slot);
        set_owner(owners, superblock, tenant, named);
        Ok(())
    }

    /// Judges a refusal of the command. Any other answer breaks the promise `Form`, since answers that fit the command are judged
    /// elsewhere.
    pub(crate) fn judge_admin_refusal(
        &self,
        owners: &[Option<Owner>],
        command: &AdminCommand,
        answer: &Answer<'_>,
    ) -> Result<(), Failure>
        requires { IsUnfit (On.Admin command.now) answer.now }
        ensures judged { (w : Known) → IsVerdictFor (On.Admin command.now) (body_of_answer answer.now)
            (record w { owners = owners.now }) self.now self.now result }
        ensures owners { AreOwnersAfter (On.Admin command.now) (body_of_answer answer.now) owners.now owners.now result }
    {
        let Answer::Refused(refusal) = answer else {
            return Err(Failure::Broken(Promise::Form));
        };
        match command {
            AdminCommand::Grant { .. } => {
                on_refusal(*refusal, due_of_grant(owners), false, false)
            }
            AdminCommand::TakeBack { slot, .. } => self.judge_slot_kept(*slot, *refusal),
            AdminCommand::Move { slot, .. } => {
                on_refusal(*refusal, self.due_of_move(owners, *slot), false, false)
            }
            _ => on_refusal(*refusal, None, false, false),
        }
    }

    /// Returns the refusal that must come in reply to the command, if any.
    #[tactic(auto, unfolding(promise_core::specs::Promises::due))]
    pub(crate) fn due_of_admin(
        &self,
        owners: &[Option<Owner>],
        command: &AdminCommand,
    ) -> Option<Refusal>
        ensures { (w : Known) → result
            ≡ due (On.Admin command.now) (known_at self.now (record w { owners = owners.now })) (state_of self.now) }
    {
        match command {
            AdminCommand::Grant { .. } => due_of_grant(owners),
            AdminCommand::TakeBack { slot, .. } => self.due_of_take_back(*slot),
            AdminCommand::Move { slot, .. } => self.due_of_move(owners, *slot),
            AdminCommand::Reset { .. } | AdminCommand::Pool => None,
        }
    }

    /// Judges a refusal to take back the slot.
    fn judge_slot_kept(&self, slot: u32, refusal: Refusal) -> Result<(), Failure>
        ensures { (t : ℕ) (w : Known)
            → IsVerdictFor (On.Admin (Do.TakeBack t slot)) (Say.Refused refusal) w self.now self.now result }
    {
        match self.held.held_slot(slot) {
            Some(slot) => {
                let is_busy = self.held.is_slot_busy(self.left.order(), slot);
                let may_be_busy = self.may_be_busy(is_busy);
                let due = due_if(is_busy, Refusal::SlotBusy);
                on_refusal(refusal, due, false, may_be_busy)
            }
            None => on_refusal(refusal, Some(Refusal::NoSlot), false, false),
        }
    }

    /// Returns whether the slot may be busy, because a frame of it is taken (`is_busy`) or because a cache may have an empty
    /// slab.
    pub(crate) fn may_be_busy(&self, is_busy: bool) -> bool
        ensures { result ≡ (is_busy || list_any (λ c. slice_index_or self.now.may_have_empty c.number false) self.now.has.caches) }
    {
        is_busy || self.held.may_have_some_empty(&self.may_have_empty)
    }

    /// Returns the refusal that must come in reply to a take-back of the slot, if any.
    fn due_of_take_back(&self, slot: u32) -> Option<Refusal>
        ensures { (t : ℕ) (w : Known) → result ≡ due (On.Admin (Do.TakeBack t slot)) (known_at self.now w) (state_of self.now) }
    {
        match self.held.held_slot(slot) {
            Some(slot) => {
                let is_busy = self.held.is_slot_busy(self.left.order(), slot);
                due_if(is_busy, Refusal::SlotBusy)
            }
            None => Some(Refusal::NoSlot),
        }
    }

    /// Returns the refusal that must come in reply to a move of the slot, if any.
    #[tactic(auto, unfolding(promise_core::specs::Promises::due))]
    fn due_of_move(&self, owners: &[Option<Owner>], slot: u32) -> Option<Refusal>
        ensures { (t : ℕ) (w : Known) → result
            ≡ due (On.Admin (Do.Move t slot)) (known_at self.now (record w { owners = owners.now })) (state_of self.now) }
    {
        if !self.held.has_slot(slot) {
            Some(Refusal::NoSlot)
        } else if are_all_owned(owners) {
            Some(Refusal::PoolEmpty)
        } else {
            None
        }
    }
}

/// Returns the refusal that must come in reply to a grant, if any.
#[tactic(auto, unfolding(promise_core::specs::Promises::due))]
fn due_of_grant(owners: &[Option<Owner>]) -> Option<Refusal>
    ensures { (t : ℕ) (w : Known) (s : State) → result ≡ due (On.Admin (Do.Grant t)) (record w { owners = owners.now }) s }
{
    due_if(are_all_owned(owners), Refusal::PoolEmpty)
}
