//! The numbers of the lists of slabs.

ghost use Rattle.std.specs.Prelude.{◌≡◌, ◌<◌, ◌/◌, ◌%◌, ◌==◌};
ghost use Rattle.model_core.specs.declared.limits.TheConstants.{MAX_CACHES};
ghost use Rattle.klist_core.specs.Places.{in_three};
ghost use Rattle.slab_tables.specs.Content.{index_of_cache, head_of, kind_number};

use crate::kind::Kind;
use crate::places::index_of;
use model_core::limits::MAX_CACHES;

/// A list with all slabs of one kind in a cache. The list of the full slabs has the number `3 * (32 * tenant + cache)`. The list
/// of the partial slabs has the next number, and the list of the empty slabs has the number after that.
///
/// The lists of [`klist_core`] come in threes, and the first of each three is loose: it is not linked in the order of its keys.
/// Each cache has one such three, so the list of its full slabs is loose. That is enough for the full slabs, because no call
/// needs the first full slab. It also saves time, since slabs fill up often, and a slab is added to a loose list without a search
/// for its position.
#[derive(Clone, Copy, Debug, PartialEq, Eq)]
pub struct ListId {
    pub number: u32,
}

impl ListId {
    /// Returns the list of the slabs of this kind in cache `c` of tenant `t`.
    #[inline(always)]
    pub fn of(t: u8, c: u32, kind: Kind) -> ListId
        requires { c < MAX_CACHES }
        ensures { result.number ≡ head_of t c (kind_number kind) }
    {
        ListId {
            number: 3 * index_of(t, c) as u32 + kind.number(),
        }
    }

    /// Returns the number of the list's cache, from 0 to 31.
    pub fn cache(self) -> u32
        ensures { result ≡ self.number / 3 % MAX_CACHES }
    {
        self.number / 3 % u32::from(MAX_CACHES)
    }

    /// Returns true if this is one of the three lists of cache `c` of tenant `t`.
    ///
    /// The subtraction wraps around, so one comparison excludes the lists before these three as well as those after them.
    #[inline(always)]
    pub fn is_of(self, t: u8, c: u32) -> bool
        requires { c < MAX_CACHES }
        ensures { result ≡ (self.number / 3 == index_of_cache t c) }
    {
        self.number.wrapping_sub(3 * index_of(t, c) as u32) < 3
    }

    /// Returns the kind of the list's slabs.
    pub fn kind(self) -> Kind
        ensures { kind_number result ≡ in_three self.number }
    {
        match self.number % 3 {
            0 => Kind::Full,
            1 => Kind::Partial,
            _ => Kind::Empty,
        }
    }
}
