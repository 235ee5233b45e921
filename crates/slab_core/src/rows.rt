//! The rows of a report: one for each cache.

ghost use Rattle.std.specs.Prelude.{◌≡◌, ◌<◌, length, option_map};
ghost use Rattle.model_core.specs.declared.limits.TheConstants.{MAX_CACHES};
ghost use Rattle.model_core.specs.Machine.{Machine};
ghost use Rattle.model_core.specs.Slabs.{cache_of};
ghost use Rattle.model_core.specs.Reports.{row_of_cache, rows_of_caches};
ghost use Rattle.space_core.specs.Content as spaces;
ghost use Rattle.buddy_core.specs.Content as buddies;
ghost use Rattle.slab_tables.specs.Content.{IsTenant};
ghost use Rattle.machine_changes.specs.Shows.{Agree, ShowsMachine};
ghost use Rattle.machine_changes.specs.Steady.{IsSteady};

use crate::{CacheRow, Slabs};
use arrayvec::ArrayVec;
use slab_tables::Kind;

impl Slabs {
    /// Returns the row of each cache of tenant `t`, in ascending order of the caches' numbers.
    pub fn rows(&self, t: u8) -> ArrayVec<CacheRow, 32>
        requires { IsTenant self.now t }
        ensures { (r : spaces.Content) (b : buddies.Content) (m : Machine) → Agree r b self.now → IsSteady r b self.now t → ShowsMachine r b self.now t m
            → result.items ≡ rows_of_caches m }
    {
        let mut rows = ArrayVec::new();
        for c in 0..self.tables.caches_below(t) as u8 {
            if let Some(row) = self.row(t, c) {
                rows.push(row);
            }
        }
        rows
    }

    /// Returns the row of cache `c` of tenant `t`, or `None` if there is no such cache.
    fn row(&self, t: u8, c: u8) -> Option<CacheRow>
        requires tenant { IsTenant self.now t }
        requires cache { c < MAX_CACHES }
        ensures { (r : spaces.Content) (b : buddies.Content) (m : Machine) → Agree r b self.now → IsSteady r b self.now t → ShowsMachine r b self.now t m
            → result ≡ option_map row_of_cache (cache_of m c) }
    {
        self.tables.laws();
        let _cache = self.tables.cache(t, c.into())?;
        Some(CacheRow {
            cache: c,
            full: self.tables.count(t, c.into(), Kind::Full),
            partial: self.tables.count(t, c.into(), Kind::Partial),
            empty: self.tables.count(t, c.into(), Kind::Empty),
            live: self.tables.live(t, c.into()),
        })
    }
}
