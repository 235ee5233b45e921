//! Making caches.

ghost use Rattle.std.specs.Prelude.{◌≡◌, ◌≢◌, ℕ, IfNone};
ghost use Rattle.model_core.specs.Machine.{Machine};
ghost use Rattle.model_core.specs.CacheOperations.{create_step};
ghost use Rattle.space_core.specs.Content as spaces;
ghost use Rattle.buddy_core.specs.Content as buddies;
ghost use Rattle.slab_tables.specs.Content.{IsTenant};
ghost use Rattle.machine_changes.specs.Shows.{ShowsMachine, Agree};
ghost use Rattle.machine_changes.specs.Keeps.{Keeps};

use crate::Slabs;
use layout_core::{Layout, Pattern};
use model_core::limits::MAX_CACHES;

impl Slabs {
    /// Makes a cache of tenant `t` for objects of this layout, which are constructed with the pattern. Returns the number of the
    /// cache: the lowest that no other cache of the tenant has.
    ///
    /// Returns `None` if the tenant already has `MAX_CACHES` caches. Accesses no memory of the tenant.
    pub fn create(&mut self, t: u8, layout: Layout, pattern: Pattern) -> Option<u8>
        requires tenant { IsTenant self.old t }
        ensures answer { (r : spaces.Content) (b : buddies.Content) (m : Machine) → ShowsMachine r b self.old t m
            → result ≡ (create_step MAX_CACHES layout.size layout.align pattern m).answer }
        ensures shows { (r : spaces.Content) (b : buddies.Content) (m : Machine) → ShowsMachine r b self.old t m
            → ShowsMachine r b self.new t (create_step MAX_CACHES layout.size layout.align pattern m).machine }
        ensures others { (r : spaces.Content) (b : buddies.Content) (u : ℕ) → u ≢ t → Keeps r r b b self.old self.new u }
        ensures agree { (r : spaces.Content) (b : buddies.Content) → Agree r b self.old → Agree r b self.new }
        ensures refused { IfNone result (self.new ≡ self.old) }
    {
        self.tables.laws();
        self.tables.create(t, layout, pattern)
    }
}
