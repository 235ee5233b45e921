//! Slots that cannot be busy.

ghost use Rattle.std.specs.Prelude.{◌≡◌, ◌≤◌};
ghost use Rattle.model_core.specs.declared.limits.TheConstants.{MAX_ORDER};
ghost use Rattle.reply_judge.specs.Idle.{idle_slot};
ghost use Rattle.reply_judge.specs.Seen.{state_of};

use crate::tenant::Tenant;

impl Tenant {
    /// Returns the slot if the tenant holds it, no frame of it is taken, and no cache may have an empty slab. Slots have
    /// `2^order` frames.
    #[tactic(auto, unfolding(crate::specs::Idle::idle_slot))]
    pub(crate) fn idle_slot(&self, order: u8, slot: u32) -> Option<u16>
        requires { order ≤ MAX_ORDER }
        ensures { result ≡ idle_slot order (state_of self.now) slot }
    {
        let slot = self.held.held_slot(slot)?;
        let is_busy = self.held.is_slot_busy(order, slot);
        if self.may_be_busy(is_busy) {
            None
        } else {
            Some(slot)
        }
    }
}
