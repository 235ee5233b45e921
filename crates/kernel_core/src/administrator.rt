//! The commands of the administrator: grants, take-backs, resets and moves of superblocks, and the table of owners.

ghost use Rattle.std.specs.Prelude.{◌≡◌, ℕ, ◌<◌, ◌≤◌, false, None, length, IfOk};
ghost use Rattle.space_core.specs.Content.{superblock_at};
ghost use Rattle.words_core.specs.Requests.{body_of_answer, HasFewBytes, has_bytes};
ghost use Rattle.words_core.specs.declared.event.Event.TheVariants as On;
ghost use Rattle.words_core.specs.declared.event.AdminCommand.TheVariants as Do;
ghost use Rattle.words_core.specs.declared.reply.Addressee.TheVariants.{Admin};
ghost use Rattle.words_core.specs.declared.reply.Body.TheVariants as Say;
ghost use Rattle.model_core.specs.declared.limits.TheConstants.{MAX_SUPERBLOCKS, WIDE_SUPERBLOCKS};
ghost use Rattle.kernel_core.specs.Content.{PartsAgree};
ghost use Rattle.kernel_core.specs.Steps.{Steps, to_admin};
ghost use Rattle.kernel_core.specs.GivenUp.{GivesUp};

use crate::Kernel;
use arrayvec::ArrayVec;
use model_core::owner::Owner;
use space_core::{MoveRefusal, PoolEmpty, Space};
use words_core::{Addressee, Answer, Body, OWNERS, Refusal, Reply};

impl Kernel {
    /// Grants the tenant the first superblock without an owner, in the lowest slot that the tenant does not hold.
    ///
    /// Refuses with `NoTenant`, then with `PoolEmpty` if every superblock has an owner.
    pub(crate) fn grant(&mut self, tenant: u32) -> Result<Answer<'static>, Refusal>
        ensures steps { PartsAgree self.new
            → Steps self.old (On.Admin (Do.Grant tenant)) self.new (to_admin result) }
        ensures few { IfOk result (λ answer. HasFewBytes answer) }
        ensures bytes { IfOk result (λ answer. has_bytes answer ≡ false) }
    {
        let Some(t) = self.tenant(tenant) else {
            return Err(Refusal::NoTenant);
        };
        self.laws();
        let Ok((slot, superblock)) = self.space.grant(t) else {
            return Err(Refusal::PoolEmpty);
        };
        self.buddy.add_slot(t, slot, superblock);
        Ok(Answer::Granted {
            tenant: t,
            slot,
            superblock,
        })
    }

    /// Takes back a slot of the tenant.
    ///
    /// Refuses with `NoTenant`, then with `NoSlot` if the tenant does not hold the slot, then with `SlotBusy` if a frame of the
    /// slot is in a page block or in a slab, even an empty slab.
    pub(crate) fn take_back(&mut self, tenant: u32, slot: u32) -> Result<Answer<'static>, Refusal>
        ensures steps { PartsAgree self.new
            → Steps self.old (On.Admin (Do.TakeBack tenant slot)) self.new (to_admin result) }
        ensures few { IfOk result (λ answer. HasFewBytes answer) }
        ensures bytes { IfOk result (λ answer. has_bytes answer ≡ false) }
    {
        let Some(t) = self.tenant(tenant) else {
            return Err(Refusal::NoTenant);
        };
        self.laws();
        let Some(superblock) = self.space.machine_of(t, slot) else {
            return Err(Refusal::NoSlot);
        };
        let Ok(()) = self.buddy.drop_slot(t, slot as u16) else {
            return Err(Refusal::SlotBusy);
        };
        let Ok(_) = self.space.take_back(t, slot) else {
            unreachable!()
        };
        Ok(Answer::TakenBack(superblock))
    }

    /// Takes back everything that the tenant has, including its caches, and returns the number of superblocks that it had.
    /// Refuses only with `NoTenant`.
    pub(crate) fn reset(&mut self, tenant: u32) -> Result<Answer<'static>, Refusal>
        ensures steps { PartsAgree self.new
            → Steps self.old (On.Admin (Do.Reset tenant)) self.new (to_admin result) }
        ensures few { IfOk result (λ answer. HasFewBytes answer) }
        ensures bytes { IfOk result (λ answer. has_bytes answer ≡ false) }
    {
        let Some(t) = self.tenant(tenant) else {
            return Err(Refusal::NoTenant);
        };
        self.laws();
        let end = self.buddy.slots_end(t);
        self.buddy.reset(t);
        self.slabs.reset(t);
        let superblocks = give_up(&mut self.space, end, t);
        Ok(Answer::WasReset {
            tenant: t,
            superblocks,
        })
    }

    /// Moves a slot of the tenant to the first superblock without an owner. All bytes of the slot are copied, so nothing changes
    /// for the tenant.
    ///
    /// Refuses with `NoTenant`, then with `NoSlot` if the tenant does not hold the slot, then with `PoolEmpty` if every
    /// superblock has an owner.
    pub(crate) fn move_slot(&mut self, tenant: u32, slot: u32) -> Result<Answer<'static>, Refusal>
        ensures steps { PartsAgree self.new
            → Steps self.old (On.Admin (Do.Move tenant slot)) self.new (to_admin result) }
        ensures few { IfOk result (λ answer. HasFewBytes answer) }
        ensures bytes { IfOk result (λ answer. has_bytes answer ≡ false) }
    {
        let Some(t) = self.tenant(tenant) else {
            return Err(Refusal::NoTenant);
        };
        self.laws();
        let (from, to) = match self.space.move_slot(t, slot) {
            Ok(moved) => moved,
            Err(MoveRefusal::NoSlot) => return Err(Refusal::NoSlot),
            Err(MoveRefusal::PoolEmpty) => return Err(Refusal::PoolEmpty),
        };
        self.buddy.move_slot(t, slot as u16, to);
        self.slabs.move_slot(t, from, to);
        Ok(Answer::Moved {
            tenant: t,
            slot: slot as u16,
            superblock: to,
        })
    }

    /// Returns the reply to the event `pool`, with the table of owners. [`Kernel::step`] returns the same reply for that event.
    ///
    /// A reply can list at most 256 superblocks. [`Kernel::owners`] lends the owners of any machine.
    #[cold]
    #[inline(never)]
    pub fn pool(&self) -> Reply
        requires { self.now.superblocks ≤ MAX_SUPERBLOCKS }
        ensures { Steps self.now (On.Admin Do.Pool) self.now result }
    {
        Reply {
            addressee: Addressee::Admin,
            body: Body::Owners(copied(self.owners())),
        }
    }

    /// Borrows the owners of all superblocks, indexed by superblock. They are the contents of the reply of [`Kernel::pool`].
    pub fn owners(&self) -> &[Option<Owner>]
        ensures steps { Steps self.now (On.Admin Do.Pool) self.now
            (record { addressee = Admin; body = Say.Owners (record { items = result.now }) }) }
        ensures rows { length result.now ≡ self.now.superblocks }
        ensures few { length result.now ≤ WIDE_SUPERBLOCKS }
    {
        self.laws();
        self.space.owners()
    }
}

/// Returns a copy of these owners.
fn copied(owners: &[Option<Owner>]) -> ArrayVec<Option<Owner>, OWNERS>
    requires { length owners.now ≤ MAX_SUPERBLOCKS }
    ensures { result.items ≡ owners.now }
{
    let mut copied = ArrayVec::new();
    let taken = copied.try_extend_from_slice(owners);
    prove!(taken.is_ok());
    copied
}

/// Takes back all superblocks of tenant `t` and returns their number. Each slot that the tenant holds is below `end`.
fn give_up(space: &mut Space, end: u16, t: u8) -> u16
    requires tenant { t < length space.old.slots }
    requires end { end ≤ length space.old.owners }
    requires rest { (u : ℕ) → end ≤ u → superblock_at space.old.slots t u ≡ None }
    ensures { GivesUp space.old space.new t result }
{
    space.laws();
    let mut count = 0;
    for slot in 0..end {
        space.laws();
        let Ok(_) = space.take_back(t, u32::from(slot)) else {
            continue;
        };
        count += 1;
    }
    space.laws();
    count
}
