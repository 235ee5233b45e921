//! Finds the live object that begins at a place, for a caller that lends the object's bytes.

ghost use Rattle.std.specs.Prelude.{◌≡◌, ◌<◌, length, Err, IsSome, IfSome, IfOk, IfErr};
ghost use Rattle.model_core.specs.Machine.{Machine};
ghost use Rattle.model_core.specs.CacheOperations.{give_step};
ghost use Rattle.slab_tables.specs.Content.{IsTenant, cache_at};
ghost use Rattle.machine_changes.specs.Shows.{Agree, ShowsMachine};
ghost use Rattle.machine_changes.specs.Changes.{Found};
ghost use Rattle.machine_changes.specs.Objects.{HasRange};
ghost use Rattle.slab_core.specs.Lending.{HasObject};

use crate::Slabs;
use crate::objects::TenantCache;
use buddy_core::Buddy;
use model_core::refusals::GiveRefusal;
use space_core::Space;

impl Slabs {
    /// Returns the size in bytes of the live object of cache `c` of tenant `t` that begins at `place`.
    ///
    /// Refuses in the same cases as [`Slabs::give`]: with `NoCache` if the tenant has no such cache, then with `NotAnObject` if
    /// no live object of the cache begins at `place`.
    pub fn object_bytes(
        &self,
        space: &Space,
        buddy: &Buddy,
        t: u8,
        c: u32,
        place: u32,
    ) -> Result<u32, GiveRefusal>
        requires tenant { t < length space.now.slots }
        requires agree { Agree space.now buddy.now self.now }
        ensures object { IfOk result (λ bytes. (m : Machine) → ShowsMachine space.now buddy.now self.now t m → HasObject m c place bytes) }
        ensures range { IfOk result (λ bytes. (o : Found) × HasRange space.now self.now t place bytes o) }
        ensures refused { IfErr result (λ refusal. (m : Machine) → ShowsMachine space.now buddy.now self.now t m
            → (give_step c place m).answer ≡ Err refusal) }
    {
        self.laws_with(space, buddy, t);
        let Some(kept) = self.tables.cache(t, c) else {
            return Err(GiveRefusal::NoCache);
        };
        let cache = TenantCache {
            tenant: t,
            number: c,
            kept,
        };
        let Some(_object) = self.find(space, cache, place) else {
            return Err(GiveRefusal::NotAnObject);
        };
        Ok(kept.layout.size())
    }

    /// Returns the size in bytes of the objects of cache `c` of tenant `t`.
    #[inline(always)]
    pub fn object_size(&self, t: u8, c: u32) -> u32
        requires tenant { IsTenant self.now t }
        requires cache { IsSome (cache_at self.now t c) }
        ensures { IfSome (cache_at self.now t c) (λ cache. result ≡ cache.layout.size) }
    {
        self.tables.cache(t, c).unwrap().layout.size()
    }
}
