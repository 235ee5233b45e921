//! Finds the live object that contains a range of bytes.

ghost use Rattle.std.specs.Prelude.{◌≡◌, ◌↔◌, true, ◌/◌, ◌<◌, false, Some, length, MatchOption};
ghost use Rattle.model_core.specs.declared.limits.TheConstants.{FRAME_BYTES};
ghost use Rattle.model_core.specs.Blocks.{block, HasFrame};
ghost use Rattle.buddy_core.specs.Content as buddies;
ghost use Rattle.buddy_core.specs.Content.{holding_of, taken_of};
ghost use Rattle.slab_tables.specs.declared.cache.Cache as own;
ghost use Rattle.machine_changes.specs.Shows.{machine_frame_of, has_slab, IsSlab, Agree};
ghost use Rattle.machine_changes.specs.Changes.{Found};
ghost use Rattle.machine_changes.specs.Steady.{IsSteady};
ghost use Rattle.machine_changes.specs.Objects.{HasRange, HasNone};
ghost use Rattle.slab_core.specs.Reaching.{IsAround};

use crate::Slabs;
use crate::objects::{Object, Slab, TenantCache};
use buddy_core::Buddy;
use model_core::limits::FRAME_BYTES;
use slab_tables::ListId;
use space_core::Space;

/// The place, size and cache of a live object.
#[derive(Clone, Copy, Debug, PartialEq, Eq)]
pub struct ObjectSpan {
    /// The number of the object's cache.
    pub cache: u32,
    /// The place of the object's first byte.
    pub place: u32,
    /// The object's size in bytes.
    pub bytes: u32,
}

impl Slabs {
    /// Returns true if the `len` bytes of tenant `t` that begin at `place` lie inside one live object. Returns false if `len` is
    /// 0.
    pub fn object_at(&self, space: &Space, buddy: &Buddy, t: u8, place: u32, len: u32) -> bool
        requires tenant { t < length space.now.slots }
        requires agree { Agree space.now buddy.now self.now }
        ensures { (result ≡ true) ↔ ((o : Found) × HasRange space.now self.now t place len o) }
    {
        self.laws_with(space, buddy, t);
        let Some((first, order)) = buddy.block_of(t, place / FRAME_BYTES) else {
            return false;
        };
        let Some(machine_frame) = self.machine_frame(space, t, first) else {
            return false;
        };
        self.object_in(space, buddy, t, first, machine_frame, order, place, len)
    }

    /// Returns the same as [`Slabs::object_at`], for a caller that has already looked up the taken block around `place`. The
    /// block has `2^order` frames and begins at frame `first` of the tenant, whose machine frame is `machine_frame`.
    pub fn object_in(
        &self,
        space: &Space,
        buddy: &Buddy,
        t: u8,
        first: u32,
        machine_frame: u32,
        order: u8,
        place: u32,
        len: u32,
    ) -> bool
        requires tenant { t < length space.now.slots }
        requires agree { Agree space.now buddy.now self.now }
        requires machine_frame { machine_frame_of self.now.top space.now.slots t first ≡ Some machine_frame }
        requires below { machine_frame < length self.now.lists.places }
        requires taken { taken_of (holding_of t buddy.now) first ≡ Some order }
        requires around { HasFrame (block first order) (place / FRAME_BYTES) }
        ensures { (result ≡ true) ↔ ((o : Found) × HasRange space.now self.now t place len o) }
    {
        self.object_around(space, buddy, t, first, machine_frame, order, place, len)
            .is_some()
    }

    /// Returns the live object that contains the `len` bytes that begin at `place`. Returns `None` if no live object contains
    /// them all, or if `len` is 0. The caller has already looked up the taken block around `place`, as for [`Slabs::object_in`].
    #[inline(always)]
    pub fn object_around(
        &self,
        space: &Space,
        buddy: &Buddy,
        t: u8,
        first: u32,
        machine_frame: u32,
        order: u8,
        place: u32,
        len: u32,
    ) -> Option<ObjectSpan>
        requires tenant { t < length space.now.slots }
        requires agree { Agree space.now buddy.now self.now }
        requires machine_frame { machine_frame_of self.now.top space.now.slots t first ≡ Some machine_frame }
        requires below { machine_frame < length self.now.lists.places }
        requires taken { taken_of (holding_of t buddy.now) first ≡ Some order }
        requires around { HasFrame (block first order) (place / FRAME_BYTES) }
        ensures { MatchOption result (HasNone space.now self.now t place len) (IsAround space.now self.now t place len) }
    {
        self.laws_with(space, buddy, t);
        let _ = order;
        let slab = Slab {
            first,
            machine_frame,
        };
        let c = self.slab_at(space, t, slab)?;
        let kept = self.tables.cache(t, c).unwrap();
        let colour = self.tables.kept_of(machine_frame).colour;
        let index = kept
            .layout
            .holder(colour, place - FRAME_BYTES * first, len)?;
        let cache = TenantCache {
            tenant: t,
            number: c,
            kept,
        };
        if !self.is_live_object(space, cache, Object { slab, index }) {
            return None;
        }
        Some(ObjectSpan {
            cache: c,
            place: FRAME_BYTES * first + kept.layout.offset(colour, index),
            bytes: kept.layout.size(),
        })
    }

    /// Returns the number of the cache that `slab` of tenant `t` belongs to, or `None` if no slab begins at the machine frame of
    /// `slab`. Only the contract uses `space` and `t`.
    fn slab_at(&self, space: &Space, t: u8, slab: Slab) -> Option<u32>
        requires steady { (b : buddies.Content) × IsSteady space.now b self.now t }
        requires machine_frame { machine_frame_of self.now.top space.now.slots t slab.first ≡ Some slab.machine_frame }
        requires below { slab.machine_frame < length self.now.lists.places }
        ensures { MatchOption result (has_slab self.now (Some slab.machine_frame) ≡ false)
            (λ c. (cache : own.Cache) × IsSlab space.now self.now t c slab.first slab.machine_frame cache) }
    {
        let (number, _) = self.tables.place_of(slab.machine_frame)?;
        Some(ListId { number }.cache())
    }
}
