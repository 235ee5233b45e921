//! A law that holds if the memory, the buddy systems and the slabs agree.

ghost use Rattle.std.specs.Prelude.{◌<◌, length};
ghost use Rattle.machine_changes.specs.Shows.{Agree};
ghost use Rattle.machine_changes.specs.Slots.{HoldTogether};
ghost use Rattle.machine_changes.specs.Steady.{IsSteady};

use crate::Slabs;
use buddy_core::Buddy;
use space_core::Space;

impl Slabs {
    /// A law: if the parts agree, the invariants of each part hold. `IsSteady`, which the laws of `machine_changes` require,
    /// holds for tenant `t`. The call does nothing.
    pub fn laws_with(&self, space: &Space, buddy: &Buddy, t: u8)
        requires tenant { t < length space.now.slots }
        requires agree { Agree space.now buddy.now self.now }
        ensures parts { HoldTogether space.now buddy.now self.now }
        ensures steady { IsSteady space.now buddy.now self.now t }
    {
        self.tables.laws();
        space.laws();
        buddy.laws();
    }
}
