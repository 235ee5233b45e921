//! Giving back an object.

ghost use Rattle.std.specs.Prelude.{◌≡◌, ◌<◌, length, OnErr};
ghost use Rattle.model_core.specs.Machine.{Machine};
ghost use Rattle.model_core.specs.CacheOperations.{give_step};
ghost use Rattle.machine_changes.specs.Shows.{Agree, ShowsMachine};
ghost use Rattle.machine_changes.specs.Keeps.{Spares};

use crate::Slabs;
use crate::objects::TenantCache;
use buddy_core::Buddy;
use model_core::refusals::GiveRefusal;
use space_core::Space;

impl Slabs {
    /// Gives back the object of cache `c` of tenant `t` that begins at `place`. The bytes of the object do not change.
    ///
    /// Refuses with `NoCache` if the tenant has no such cache, then with `NotAnObject` if no live object of the cache begins at
    /// `place`. A refused call changes nothing.
    // Always inlined, so that the kernel's give and this function are one function.
    #[inline(always)]
    pub fn give(
        &mut self,
        space: &mut Space,
        buddy: &Buddy,
        t: u8,
        c: u32,
        place: u32,
    ) -> Result<(), GiveRefusal>
        requires tenant { t < length space.old.slots }
        requires agree { Agree space.old buddy.now self.old }
        ensures answer { (m : Machine) → ShowsMachine space.old buddy.now self.old t m → result ≡ (give_step c place m).answer }
        ensures shows { (m : Machine) → ShowsMachine space.old buddy.now self.old t m
            → ShowsMachine space.new buddy.now self.new t (give_step c place m).machine }
        ensures spares { Spares t space.old space.new buddy.now buddy.now self.old self.new }
        ensures agree { Agree space.new buddy.now self.new }
        ensures refused { OnErr result ((space.new ≡ space.old) × (self.new ≡ self.old)) }
    {
        self.laws_with(space, buddy, t);
        let kept = *self.tables.cache(t, c).ok_or(GiveRefusal::NoCache)?;
        let cache = TenantCache {
            tenant: t,
            number: c,
            kept: &kept,
        };
        let object = self
            .locate(space, cache, place)
            .ok_or(GiveRefusal::NotAnObject)?;
        if !self.clear_bit(space, cache, object) {
            return Err(GiveRefusal::NotAnObject);
        }
        self.recount(cache, object, false);
        Ok(())
    }
}
