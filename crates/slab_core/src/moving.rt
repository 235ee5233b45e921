//! Removes all slabs of a tenant, and moves slabs to another superblock.

ghost use Rattle.std.specs.Prelude.{◌≡◌, ℕ, ◌+◌, ◌*◌, ◌^◌, ◌<◌, ◌≤◌, Some, None, length};
ghost use Rattle.klist_core.specs.Places.{place_at};
ghost use Rattle.space_core.specs.Content as spaces;
ghost use Rattle.space_core.specs.Changes.{with_move};
ghost use Rattle.buddy_core.specs.Content as buddies;
ghost use Rattle.slab_tables.specs.Content.{IsTenant};
ghost use Rattle.slab_tables.specs.Changes.{IsReset, IsMoved};
ghost use Rattle.machine_changes.specs.Shows.{Agree};
ghost use Rattle.machine_changes.specs.Slots.{HoldTogether};

use crate::Slabs;

impl Slabs {
    /// Removes all caches of tenant `t` with their slabs. All other tenants keep theirs.
    ///
    /// Changes no byte of memory and frees no block: the caller also resets the buddy system of the tenant.
    pub fn reset(&mut self, t: u8)
        requires tenant { IsTenant self.old t }
        ensures reset { IsReset self.old self.new t }
        ensures agree { (r : spaces.Content) (b : buddies.Content) → Agree r b self.old → Agree r b self.new }
    {
        self.tables.reset(t);
    }

    /// Moves all slabs of superblock `from`, with their state, to the same frames of superblock `to`, which has no slab. The
    /// caches do not change, and the slabs keep their first frames in the numbering of tenant `t`.
    ///
    /// Changes no byte of memory. Call [`space_core::Space::move_slot`] and [`buddy_core::Buddy::move_slot`] first, with the same
    /// tenant and superblocks. The memory, the buddy systems and the slabs then agree again.
    pub fn move_slot(&mut self, t: u8, from: u16, to: u16)
        requires tenant { IsTenant self.old t }
        requires from { (from + 1) * 2 ^ self.old.top ≤ length self.old.lists.places }
        requires to { (to + 1) * 2 ^ self.old.top ≤ length self.old.lists.places }
        requires free { (i : ℕ) → i < 2 ^ self.old.top → place_at self.old.lists.places (to * 2 ^ self.old.top + i) ≡ None }
        ensures moved { IsMoved self.old self.new from to }
        ensures agree { (r : spaces.Content) (b : buddies.Content) (u : ℕ) → HoldTogether r b self.old
            → spaces.superblock_at r.slots t u ≡ Some from → to < length r.owners → spaces.owner_at r.owners to ≡ None
            → Agree (with_move r t u from to) (buddies.with_holding t (buddies.with_slot u to (buddies.holding_of t b)) b) self.new }
    {
        // If `from` and `to` are equal, this superblock has no slab, so there is nothing to move.
        if from == to {
            return;
        }
        self.tables.move_slot(from, to);
    }
}
