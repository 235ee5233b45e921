//! Frees what begins at a place: gives the object, or frees the page block.

ghost use Rattle.std.specs.Prelude.{◌≡◌, ◌<◌, List, ℕ, slice_index_or, IfSome, IsSome, MatchOption};
ghost use Rattle.slab_tables.specs.Content.{cache_at};

use crate::Kernel;
use crate::holders::Holder;
use model_core::limits::{FRAME_BYTES, WIDE_ORDER};
use words_core::{CACHES, Refusal};

impl Kernel {
    ghost use Rattle.kernel_core.specs.Releasing.{FreesOf, ReleasesOf, Releases};

    /// Gives the tenant's live object, or frees the tenant's live page block, that begins at `place`. Returns what it was.
    ///
    /// `sizes` has, for each cache number, the size in bytes of the objects that may be given. An object is refused if its cache
    /// has another size there; 0 refuses every object of the cache.
    ///
    /// Refuses with `NoTenant`, then with `OutOfReach` if no live object or page block contains the byte at `place`, then with
    /// `NotABlock` if it is a page block that begins before `place`, and with `NotAnObject` if it is an object that begins before
    /// `place` or may not be given. A refused call changes nothing.
    #[inline(always)]
    pub fn release(
        &mut self,
        tenant: u32,
        place: u32,
        sizes: &[u16; CACHES],
    ) -> Result<Holder, Refusal>
        ensures { Releases self.old tenant place sizes.now self.new result }
    {
        let Some(t) = self.tenant(tenant) else {
            return Err(Refusal::NoTenant);
        };
        self.laws();
        let outcome = self.release_of(t, place, sizes);
        self.laws();
        outcome
    }

    /// Does the same as [`Kernel::release`] for tenant `t`, which must exist.
    #[inline(always)]
    fn release_of(&mut self, t: u8, place: u32, sizes: &[u16; CACHES]) -> Result<Holder, Refusal>
        requires { t < self.old.tenants }
        ensures { ReleasesOf self.old t place sizes.now self.new result }
    {
        if let Some(block) = self.free_at(t, place) {
            return Ok(block);
        }
        if let Some(object) = self.give_at(t, place, sizes) {
            return Ok(object);
        }
        self.release_found(t, place, sizes)
    }

    /// Frees the page block of tenant `t` that begins at `place`. Returns `None` and changes nothing if none begins there.
    #[inline(always)]
    fn free_at(&mut self, t: u8, place: u32) -> Option<Holder>
        requires { t < self.old.tenants }
        ensures { MatchOption result (self.new ≡ self.old)
            (λ holder. (sizes : List ℕ) → FreesOf self.old t place sizes self.new holder) }
    {
        self.laws();
        if place % FRAME_BYTES != 0 {
            return None;
        }
        let Ok(order) = self.free(t, place / FRAME_BYTES) else {
            return None;
        };
        Some(Holder {
            cache: None,
            place,
            bytes: FRAME_BYTES << order.min(WIDE_ORDER),
        })
    }

    /// Gives the object of tenant `t` that begins at `place`, if its cache has this size in `sizes`. Returns `None` and changes
    /// nothing if it finds none. It looks only at the cache of the slab that has the frame of `place`.
    #[inline(always)]
    fn give_at(&mut self, t: u8, place: u32, sizes: &[u16; CACHES]) -> Option<Holder>
        requires { t < self.old.tenants }
        ensures { MatchOption result (self.new ≡ self.old) (FreesOf self.old t place sizes.now self.new) }
    {
        self.laws();
        let cache = self.cache_around(t, place)?;
        let bytes = self.slabs.object_size(t, cache);
        if size_for(sizes, cache) != bytes {
            return None;
        }
        let Ok(()) = self.give(t, cache, place) else {
            return None;
        };
        Some(Holder {
            cache: Some(cache),
            place,
            bytes,
        })
    }

    /// Returns the number of the cache whose slab has the frame of `place`, or `None` if no slab of tenant `t` has it.
    #[inline(always)]
    fn cache_around(&self, t: u8, place: u32) -> Option<u32>
        requires { t < self.now.tenants }
        ensures { IfSome result (λ c. IsSome (cache_at self.now.slabs t c)) }
    {
        self.laws();
        let frame = place / FRAME_BYTES;
        let superblock = self.space.machine_of(t, frame >> self.order())?;
        let (first, _) = self.buddy.block_in(superblock, t, frame)?;
        let list = self.list_in(superblock, t, first)?;
        Some(list.cache())
    }

    /// Does the same as [`Kernel::release`] for tenant `t`, by a lookup of what contains the byte at `place`.
    // Never inlined: the calls before it serve all requests that are not refused.
    #[cold]
    #[inline(never)]
    fn release_found(&mut self, t: u8, place: u32, sizes: &[u16; CACHES]) -> Result<Holder, Refusal>
        requires { t < self.old.tenants }
        ensures { ReleasesOf self.old t place sizes.now self.new result }
    {
        self.laws();
        let Some(holder) = self.holder_of(t, place) else {
            return Err(Refusal::OutOfReach);
        };
        match holder.cache {
            None => {
                if holder.place != place {
                    return Err(Refusal::NotABlock);
                }
                self.free(t, place / FRAME_BYTES)?;
            }
            Some(cache) => {
                if holder.place != place || size_for(sizes, cache) != holder.bytes {
                    return Err(Refusal::NotAnObject);
                }
                self.give(t, cache, place)?;
            }
        }
        Ok(holder)
    }
}

/// Returns the size of a cache in `sizes`, or 0 if `sizes` does not have the cache.
#[inline(always)]
fn size_for(sizes: &[u16; CACHES], cache: u32) -> u32
    ensures { result ≡ slice_index_or sizes.now cache 0 }
{
    match sizes.get(cache as usize) {
        Some(size) => u32::from(*size),
        None => 0,
    }
}
