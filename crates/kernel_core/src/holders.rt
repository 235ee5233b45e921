//! The live object or page block that a byte lies in.

ghost use Rattle.std.specs.Prelude.{◌≡◌, ◌<◌, false, MatchOption, IfOk, IfErr};
ghost use Rattle.model_core.specs.Machine.{Machine};
ghost use Rattle.model_core.specs.Reach.{in_reach};
ghost use Rattle.words_core.specs.declared.reply.Refusal.TheVariants.{OutOfReach};

use crate::Kernel;
use model_core::limits::FRAME_BYTES;
use words_core::Refusal;

/// A live object or a live page block.
#[derive(Clone, Copy, Debug, PartialEq, Eq)]
pub struct Holder {
    /// The number of the object's cache, or `None` for a page block.
    pub cache: Option<u32>,
    /// The place of the first byte of the object or block.
    pub place: u32,
    /// The size of the object or block in bytes.
    pub bytes: u32,
}

impl Kernel {
    ghost use Rattle.kernel_core.specs.Shows.{ShowsMachine};
    ghost use Rattle.kernel_core.specs.Lending.{IsNotLent};
    ghost use Rattle.kernel_core.specs.Holders.{IsHolder};
    ghost use Rattle.kernel_core.specs.Lookups.{HolderOf, FoundHolder, found_or_refused, AnswersLookup};

    /// Returns the tenant's live object or live page block that contains the byte at `place`.
    ///
    /// Refuses with `NoTenant`, then with `OutOfReach` if no live object or live page block contains the byte.
    #[inline(always)]
    pub fn holder(&self, tenant: u32, place: u32) -> Result<Holder, Refusal>
        ensures answers { AnswersLookup self.now tenant (HolderOf place) (found_or_refused FoundHolder result) }
        ensures tenant { IfOk result (λ holder. tenant < self.now.tenants) }
        ensures holder { IfOk result (λ holder. (m : Machine) → ShowsMachine self.now tenant m → IsHolder m place holder) }
        ensures refused { IfErr result (IsNotLent self.now tenant (λ refusal. (refusal ≡ OutOfReach)
            × ((m : Machine) → ShowsMachine self.now tenant m → in_reach m place 1 ≡ false))) }
    {
        let Some(t) = self.tenant(tenant) else {
            return Err(Refusal::NoTenant);
        };
        self.laws();
        self.holder_of(t, place).ok_or(Refusal::OutOfReach)
    }

    /// Returns the live object or live page block of tenant `t` that contains the byte at `place`, or `None` if none does.
    #[inline(always)]
    pub(crate) fn holder_of(&self, t: u8, place: u32) -> Option<Holder>
        requires { t < self.now.tenants }
        ensures { (m : Machine) → ShowsMachine self.now t m
            → MatchOption result (in_reach m place 1 ≡ false) (IsHolder m place) }
    {
        self.laws();
        let frame = place / FRAME_BYTES;
        let superblock = self.space.machine_of(t, frame >> self.order())?;
        let (first, order) = self.buddy.block_in(superblock, t, frame)?;
        let machine_frame = self.machine_frame_in(superblock, t, first);
        if self.slabs.is_slab_in(machine_frame) {
            let object = self.slabs.object_around(
                &self.space,
                &self.buddy,
                t,
                first,
                machine_frame,
                order,
                place,
                1,
            )?;
            return Some(Holder {
                cache: Some(object.cache),
                place: object.place,
                bytes: object.bytes,
            });
        }
        Some(Holder {
            cache: None,
            place: FRAME_BYTES * first,
            bytes: FRAME_BYTES << order,
        })
    }
}
