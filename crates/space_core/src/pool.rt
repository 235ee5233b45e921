//! The pool and the mapping in both directions: superblocks with their owners and marks, and the slots of each tenant.

ghost use Rattle.std.specs.Prelude.{◌≡◌, ℕ, ◌<◌, ◌↔◌, Some, None, length, position, is_none, count_by, replicate, option_map, IsSome, IfSome, IfOk, OnErr, MatchResult, vec_len};
ghost use Rattle.space_core.specs.Content.{bank, owner_at, mark_at, slots_of, superblock_at};
ghost use Rattle.space_core.specs.Changes.{IsLeastSlot, with_entry, with_grant, with_take_back, with_move};
ghost use Rattle.space_core.specs.Tables.{stored_rows};

use crate::banks::{clear_bank, copy_bank};
use crate::seats::{NO_SLOT, set_seat};
use crate::{MoveRefusal, NoSlot, PoolEmpty, Space};
use model_core::owner::Owner;
use std::alloc::{AllocError, Global};

impl Space {
    /// Gives the least superblock without an owner to tenant `t`, as the least slot that the tenant does not
    /// hold, and returns the slot and the superblock. The slot reads as zero.
    ///
    /// Returns `PoolEmpty` and changes nothing if every superblock has an owner.
    pub fn grant(&mut self, t: u8) -> Result<(u16, u16), PoolEmpty>
        requires { t < length self.old.slots }
        ensures superblock { MatchResult result
            (λ p. position is_none self.old.owners ≡ Some p.1) (λ _. position is_none self.old.owners ≡ None) }
        ensures slot { IfOk result (λ p. IsLeastSlot self.old.slots t p.0) }
        ensures below { IfOk result (λ p. (p.0 < length self.old.owners) × (p.1 < length self.old.owners)) }
        ensures ok { IfOk result (λ p. self.new ≡ with_grant self.old t p.0 p.1) }
        ensures fresh { IfOk result (λ p. bank self.new.banks p.1 ≡ replicate self.new.unit 0) }
        ensures err { OnErr result (self.new ≡ self.old) }
    {
        let m = self.least_unowned().ok_or(PoolEmpty)?;
        let u = self.least_slot(t);
        clear_bank(&mut self.banks, usize::from(m));
        self.marks[usize::from(m)] = false;
        self.owners[usize::from(m)] = Some(Owner { tenant: t, slot: u });
        set_slot(&mut self.slots, t, usize::from(u), Some(m));
        set_seat(&mut self.seats, t, usize::from(m), u);
        self.vacancy.fill(t, u, m);
        Ok((u, m))
    }

    /// Takes back a slot of tenant `t` and returns its superblock. The superblock keeps its bytes and is marked: after its next
    /// grant it reads as zero.
    ///
    /// Returns `NoSlot` and changes nothing if the tenant does not hold the slot.
    pub fn take_back(&mut self, t: u8, slot: u32) -> Result<u16, NoSlot>
        requires { t < length self.old.slots }
        ensures superblock { MatchResult result
            (λ m. superblock_at self.old.slots t slot ≡ Some m) (λ _. superblock_at self.old.slots t slot ≡ None) }
        ensures below { IfOk result (λ m. m < length self.old.owners) }
        ensures ok { IfOk result (λ m. self.new ≡ with_take_back self.old t slot m) }
        ensures err { OnErr result (self.new ≡ self.old) }
    {
        let m = self.machine_of(t, slot).ok_or(NoSlot)?;
        self.marks[usize::from(m)] = true;
        self.owners[usize::from(m)] = None;
        set_slot(&mut self.slots, t, slot as usize, None);
        set_seat(&mut self.seats, t, usize::from(m), NO_SLOT);
        self.vacancy.empty(t, slot as u16, m);
        Ok(m)
    }

    /// Moves a slot of tenant `t` to the least superblock without an owner, and returns the old and the new superblock. All bytes
    /// are copied, so the tenant reads what it read before. The old superblock keeps its bytes and is marked: after its next grant
    /// it reads as zero.
    ///
    /// Returns `NoSlot` if the tenant does not hold the slot, or else `PoolEmpty` if every superblock has an owner. In both cases
    /// nothing changes.
    pub fn move_slot(&mut self, t: u8, slot: u32) -> Result<(u16, u16), MoveRefusal>
        requires { t < length self.old.slots }
        ensures from { IfOk result (λ p. superblock_at self.old.slots t slot ≡ Some p.0) }
        ensures to { IfOk result (λ p. position is_none self.old.owners ≡ Some p.1) }
        ensures below { IfOk result (λ p. (p.0 < length self.old.owners) × (p.1 < length self.old.owners)) }
        ensures ok { IfOk result (λ p. self.new ≡ with_move self.old t slot p.0 p.1) }
        ensures no_slot { (result ≡ Err MoveRefusal.NoSlot) ↔ (superblock_at self.old.slots t slot ≡ None) }
        ensures pool_empty { (result ≡ Err MoveRefusal.PoolEmpty)
            ↔ (IsSome (superblock_at self.old.slots t slot) × (position is_none self.old.owners ≡ None)) }
        ensures err { OnErr result (self.new ≡ self.old) }
    {
        let from = self.machine_of(t, slot).ok_or(MoveRefusal::NoSlot)?;
        let to = self.least_unowned().ok_or(MoveRefusal::PoolEmpty)?;
        let (source, target) = (usize::from(from), usize::from(to));
        copy_bank(&mut self.banks, source, target);
        self.marks[source] = true;
        self.marks[target] = false;
        self.owners.swap(source, target);
        set_slot(&mut self.slots, t, slot as usize, Some(to));
        set_seat(&mut self.seats, t, source, NO_SLOT);
        set_seat(&mut self.seats, t, target, slot as u16);
        self.vacancy.pass(from, to);
        Ok((from, to))
    }

    /// Returns the superblock in a slot of tenant `t`, or `None` if the tenant does not hold the slot.
    pub fn machine_of(&self, t: u8, slot: u32) -> Option<u16>
        requires { t < length self.now.slots }
        ensures value { result ≡ superblock_at self.now.slots t slot }
        ensures below { IfSome result (λ m. m < length self.now.owners) }
    {
        self.laws();
        self.row(t).get(slot as usize).copied().flatten()
    }

    /// Returns the slot of tenant `t` that uses superblock `m`, or `None` if no slot of the tenant does. Reads only the tenant's
    /// own row of `seats`.
    pub fn slot_under(&self, t: u8, m: u16) -> Option<u16>
        requires tenant { t < length self.now.slots }
        requires superblock { m < length self.now.owners }
        ensures { (u : ℕ) → (result ≡ Some u) ↔ (superblock_at self.now.slots t u ≡ Some m) }
    {
        let seat = self.seats[usize::from(t)][usize::from(m)];
        if seat == NO_SLOT {
            return None;
        }
        Some(seat)
    }

    /// Returns the owner of superblock `m`, if it has one.
    pub fn owner_of(&self, m: u16) -> Option<Owner>
        requires { m < length self.now.owners }
        ensures { result ≡ owner_at self.now.owners m }
    {
        self.owners[usize::from(m)]
    }

    /// Returns the owner of superblock `m` as tenant and slot, if it has one.
    pub fn owner(&self, m: u16) -> Option<(u8, u16)>
        requires { m < length self.now.owners }
        ensures { result ≡ option_map (λ owner. (owner.tenant, owner.slot)) (owner_at self.now.owners m) }
    {
        self.owner_of(m).map(|owner| (owner.tenant, owner.slot))
    }

    /// Returns the owner of each superblock.
    pub fn owners(&self) -> &[Option<Owner>]
        ensures { result.now ≡ self.now.owners }
    {
        self.owners.as_slice()
    }

    /// Returns true if superblock `m` is marked: it lost its owner and keeps that owner's bytes, but after its next grant it reads
    /// as zero.
    pub fn is_marked(&self, m: u16) -> bool
        requires { m < length self.now.owners }
        ensures { result ≡ mark_at self.now.marks m }
    {
        self.marks[usize::from(m)]
    }

    /// Returns the number of superblocks without an owner.
    pub fn unowned(&self) -> u16
        ensures { result ≡ count_by is_none self.now.owners }
    {
        self.owners.iter().filter(|owner| owner.is_none()).count() as u16
    }

    /// Returns the number of superblocks, at most `WIDE_SUPERBLOCKS`.
    pub fn superblocks(&self) -> u16
        ensures { result ≡ length self.now.owners }
    {
        self.laws();
        self.owners.len() as u16
    }

    /// Returns the number of tenants, at most `WIDE_TENANTS`.
    pub fn tenants(&self) -> u8
        ensures { result ≡ length self.now.slots }
    {
        self.laws();
        self.slots.len() as u8
    }

    /// Returns the slots of tenant `t`.
    fn row(&self, t: u8) -> &[Option<u16>]
        requires { t < length self.now.slots }
        ensures { result.now ≡ slots_of self.now.slots t }
    {
        self.slots[usize::from(t)].as_slice()
    }

    /// Returns the least superblock without an owner, or `None` if every superblock has one.
    fn least_unowned(&self) -> Option<u16>
        ensures value { result ≡ position is_none self.now.owners }
        ensures below { IfSome result (λ m. m < length self.now.owners) }
    {
        self.vacancy.least_unowned()
    }

    /// Returns the least slot that tenant `t` does not hold. Some superblock must have no owner, which ensures that the tenant
    /// has an empty slot.
    fn least_slot(&self, t: u8) -> u16
        requires tenant { t < length self.now.slots }
        requires pool { IsSome (position is_none self.now.owners) }
        ensures slot { IsLeastSlot self.now.slots t result }
        ensures below { result < length self.now.owners }
    {
        self.laws();
        self.vacancy.least_vacant(t).unwrap()
    }
}

/// Sets the superblock of slot `u` of tenant `t`; `None` empties the slot.
pub(crate) fn set_slot(slots: &mut Vec<Vec<Option<u16>>>, t: u8, u: usize, to: Option<u16>)
    requires tenant { t < vec_len slots.old }
    requires slot { u < length (slots_of (stored_rows slots.old) t) }
    ensures { stored_rows slots.new ≡ with_entry (stored_rows slots.old) t u to }
{
    slots[usize::from(t)][u] = to;
}

/// Makes `superblocks` empty slots for each of `tenants` tenants.
pub(crate) fn make_rows(
    alloc: Global,
    tenants: usize,
    superblocks: usize,
) -> Result<Vec<Vec<Option<u16>>>, AllocError>
    ensures { IfOk result (λ rows. stored_rows rows ≡ replicate tenants (replicate superblocks None)) }
{
    let mut rows = Vec::with_capacity(alloc, tenants)?;
    for _ in 0..tenants {
        rows.push(vec![in alloc; None; superblocks]?)?;
    }
    Ok(rows)
}
