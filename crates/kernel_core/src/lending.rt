//! Lends a tenant's bytes in place, to be read and written.

ghost use Rattle.std.specs.Prelude.{◌≡◌, ◌/◌, false, Some, IfOk, IfErr};
ghost use Rattle.std.specs.Borrow.{sem};
ghost use Rattle.model_core.specs.declared.limits.TheConstants.{FRAME_BYTES};
ghost use Rattle.model_core.specs.Blocks.{IsTaken};
ghost use Rattle.model_core.specs.Machine.{Machine, order_in};
ghost use Rattle.model_core.specs.Reach.{in_reach};
ghost use Rattle.model_core.specs.CacheOperations.{give_step};
ghost use Rattle.space_core.specs.Windows.{home_of, window_of};
ghost use Rattle.slab_core.specs.Lending.{HasObject};
ghost use Rattle.words_core.specs.declared.event.Event.TheVariants as On;
ghost use Rattle.words_core.specs.declared.event.Command.TheVariants as Command;
ghost use Rattle.words_core.specs.declared.reply.Body.TheVariants.{Frame, Object, Refused};
ghost use Rattle.words_core.specs.declared.reply.Refusal.TheVariants.{OutOfReach};
ghost use Rattle.world_core.specs.PrivateStep.{give_body};
ghost use Rattle.kernel_core.specs.Lending.{LendsWithin};

use crate::Kernel;
use model_core::limits::FRAME_BYTES;
use space_core::Space;
use words_core::Refusal;

/// Bytes of a tenant that lie inside one live page block or one live object. They can be lent until the block is freed, the
/// object is given back, the slot is moved or the tenant is reset.
#[derive(Clone, Copy, Debug, PartialEq, Eq)]
pub struct Span {
    pub tenant: u8,
    /// The first place.
    pub place: u32,
    /// The number of bytes.
    pub bytes: u32,
    /// The superblock that contains the bytes.
    pub superblock: u16,
}

impl Kernel {
    ghost use Rattle.kernel_core.specs.Shows.{ShowsMachine};
    ghost use Rattle.kernel_core.specs.Steps.{Steps, body_of};
    ghost use Rattle.kernel_core.specs.Lookups.{RangeAt, PageAround, ObjectAt, found_or_refused, range_in, page_in, object_of, AnswersLookup};
    ghost use Rattle.kernel_core.specs.Lending.{LendsSpan, IsLive, IsLent, HasBlock, IsBlockSpan, IsNotLent, reply_for};

    /// Lends the bytes of a span in place, to be read and written. When the borrow ends, the span has the bytes that were left
    /// there, and everything else is as before.
    pub fn lend(&mut self, span: Span) -> &mut [u8]
        requires { IsLive self.old span }
        ensures* writes_back { sem 𝓛 (LendsSpan self.entry span result) }
        ensures lent { IsLent self.old span.tenant span.place span.bytes result.now }
    {
        self.laws();
        lend_within(
            &mut self.space,
            span.superblock,
            span.tenant,
            span.place,
            span.bytes,
        )
    }

    /// Returns the span of the `len` bytes of a tenant that begin at `place`.
    ///
    /// Refuses with `NoTenant`, then with `OutOfReach` if `len` is 0 or the bytes do not lie inside one live page block or one
    /// live object.
    pub fn span(&self, tenant: u32, place: u32, len: u32) -> Result<Span, Refusal>
        ensures answers { AnswersLookup self.now tenant (RangeAt place len) (found_or_refused range_in result) }
        ensures live { IfOk result (λ span. IsLive self.now span) }
        ensures asked { IfOk result (λ span. (span.tenant ≡ tenant) × ((span.place ≡ place) × (span.bytes ≡ len))) }
        ensures refused { IfErr result (IsNotLent self.now tenant (λ refusal. (refusal ≡ OutOfReach)
            × ((m : Machine) → ShowsMachine self.now tenant m → in_reach m place len ≡ false))) }
    {
        let Some(t) = self.tenant(tenant) else {
            return Err(Refusal::NoTenant);
        };
        self.laws();
        let Some(superblock) = self.reached(t, place, len) else {
            return Err(Refusal::OutOfReach);
        };
        Ok(Span {
            tenant: t,
            place,
            bytes: len,
            superblock,
        })
    }

    /// Returns the span of all bytes of the tenant's live page block around `place`.
    ///
    /// Refuses with `NoTenant`, then with `OutOfReach` if `place` is in no live page block. A slab is not a page block.
    pub fn block_span(&self, tenant: u32, place: u32) -> Result<Span, Refusal>
        ensures answers { AnswersLookup self.now tenant (PageAround place) (found_or_refused page_in result) }
        ensures live { IfOk result (λ span. IsLive self.now span) }
        ensures block { IfOk result (λ span. (span.tenant ≡ tenant)
            × ((m : Machine) → ShowsMachine self.now tenant m → HasBlock m place span.place span.bytes)) }
        ensures refused { IfErr result (IsNotLent self.now tenant (λ refusal. (refusal ≡ OutOfReach)
            × ((m : Machine) → ShowsMachine self.now tenant m → IsTaken (order_in m.blocks) (place / FRAME_BYTES) → ⊥))) }
    {
        let Some(t) = self.tenant(tenant) else {
            return Err(Refusal::NoTenant);
        };
        self.laws();
        let frame = place / FRAME_BYTES;
        let Some(superblock) = self.space.machine_of(t, frame >> self.order()) else {
            return Err(Refusal::OutOfReach);
        };
        let Some((first, order)) = self.buddy.block_in(superblock, t, frame) else {
            return Err(Refusal::OutOfReach);
        };
        let machine_frame = self.machine_frame_in(superblock, t, first);
        if self.slabs.is_slab_in(machine_frame) {
            return Err(Refusal::OutOfReach);
        }
        Ok(Span {
            tenant: t,
            place: FRAME_BYTES * first,
            bytes: FRAME_BYTES << order,
            superblock,
        })
    }

    /// Returns the span of all bytes of the live object of a cache that begins at `place`.
    ///
    /// Refuses with `NoTenant`, then in the same cases as a `give` of the object: with `NoCache`, then with `NotAnObject`.
    pub fn object_span(&self, tenant: u32, cache: u32, place: u32) -> Result<Span, Refusal>
        ensures answers { AnswersLookup self.now tenant (ObjectAt cache place) (found_or_refused (object_of cache) result) }
        ensures live { IfOk result (λ span. IsLive self.now span) }
        ensures object { IfOk result (λ span. (span.tenant ≡ tenant) × ((span.place ≡ place)
            × ((m : Machine) → ShowsMachine self.now tenant m → HasObject m cache place span.bytes))) }
        ensures refused { IfErr result (IsNotLent self.now tenant (λ refusal.
            (m : Machine) → ShowsMachine self.now tenant m → give_body (give_step cache place m).answer ≡ Refused refusal)) }
    {
        let Some(t) = self.tenant(tenant) else {
            return Err(Refusal::NoTenant);
        };
        self.laws();
        let bytes = self
            .slabs
            .object_bytes(&self.space, &self.buddy, t, cache, place)?;
        let slot = place / FRAME_BYTES >> self.order();
        let superblock = self.space.machine_of(t, slot).unwrap();
        Ok(Span {
            tenant: t,
            place,
            bytes,
            superblock,
        })
    }

    /// Takes a page block of `2^order` frames for a tenant, and returns the span of all its bytes.
    ///
    /// Refuses with `NoTenant`, then in the same cases as an `alloc`.
    pub fn alloc_span(&mut self, tenant: u32, order: u32) -> Result<Span, Refusal>
        ensures steps { Steps self.old (On.Tenant tenant (Command.Alloc order)) self.new
            (reply_for self.old tenant (body_of (λ span. Frame (span.place / FRAME_BYTES)) result)) }
        ensures block { IfOk result (λ span. IsBlockSpan span tenant (span.place / FRAME_BYTES) order) }
        ensures live { IfOk result (λ span. IsLive self.new span) }
    {
        let Some(t) = self.tenant(tenant) else {
            return Err(Refusal::NoTenant);
        };
        self.laws();
        let block = self.alloc_block(t, order)?;
        self.laws();
        Ok(Span {
            tenant: t,
            place: FRAME_BYTES * block.first,
            bytes: FRAME_BYTES << order,
            superblock: block.superblock,
        })
    }

    /// Takes an object of a cache for a tenant, and returns the span of all its bytes.
    ///
    /// Refuses with `NoTenant`, then in the same cases as a `take`.
    #[inline(always)]
    pub fn take_span(&mut self, tenant: u32, cache: u32) -> Result<Span, Refusal>
        ensures steps { Steps self.old (On.Tenant tenant (Command.Take cache)) self.new
            (reply_for self.old tenant (body_of (λ span. Object span.place) result)) }
        ensures object { IfOk result (λ span. (span.tenant ≡ tenant)
            × ((m : Machine) → ShowsMachine self.new tenant m → HasObject m cache span.place span.bytes)) }
        ensures live { IfOk result (λ span. IsLive self.new span) }
    {
        let Some(t) = self.tenant(tenant) else {
            return Err(Refusal::NoTenant);
        };
        self.laws();
        let taken = self.take_object(t, cache)?;
        self.laws();
        Ok(Span {
            tenant: t,
            place: taken.place,
            bytes: taken.size,
            superblock: taken.superblock,
        })
    }
}

/// Lends the bytes of a range of tenant `t` that lies in this superblock. The bytes left there have the same length.
#[inline(always)]
fn lend_within(space: &mut Space, superblock: u16, t: u8, place: u32, len: u32) -> &mut [u8]
    requires { home_of space.old t place len ≡ Some superblock }
    ensures* writes_back { sem 𝓛 (LendsWithin space.entry t place len result) }
    ensures value { window_of space.old t place len ≡ Some result.now }
{
    space.window_in(superblock, t, place, len)
}
