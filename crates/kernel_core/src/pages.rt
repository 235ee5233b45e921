//! A tenant's commands on page blocks and bytes.

ghost use Rattle.std.specs.Prelude.{◌≡◌, ◌↔◌, true, ◌*◌, ◌/◌, ◌^◌, ◌<◌, ◌≤◌, Some, length, IfOk, MatchOption};
ghost use Rattle.model_core.specs.declared.limits.TheConstants.{WIDE_ORDER};
ghost use Rattle.space_core.specs.Windows.{home_of, window_of, with_window};
ghost use Rattle.machine_changes.specs.Pages.{IsInReach};
ghost use Rattle.machine_changes.specs.Slots.{HoldTogether};
ghost use Rattle.slab_core.specs.Lending.{IsPageAt, IsReservedPage};
ghost use Rattle.words_core.specs.declared.event.Command.TheVariants as Command;
ghost use Rattle.words_core.specs.declared.reply.Body.TheVariants.{Frame, Freed, Bytes, Written};
ghost use Rattle.kernel_core.specs.Content.{superblock_at};
ghost use Rattle.kernel_core.specs.Steps.{StepsMachine, body_of};

use crate::Kernel;
use buddy_core::ReservedBlock;
use model_core::limits::{FRAME_BYTES, MAX_BYTES};
use space_core::Space;
use words_core::Refusal;

impl Kernel {
    /// Takes a page block of `2^order` frames and returns its first frame. If no free block is large enough, but one would be
    /// after all empty slabs of the tenant are freed, frees these slabs first.
    #[inline(always)]
    pub(crate) fn alloc(&mut self, t: u8, order: u32) -> Result<u32, Refusal>
        requires { t < self.old.tenants }
        ensures steps { StepsMachine self.old t (Command.Alloc order) self.new (body_of Frame result) }
        ensures page { IfOk result (λ frame. IsPageAt self.new.space self.new.buddy self.new.slabs t frame order) }
    {
        if order > u32::from(self.buddy.order()) {
            return Err(Refusal::BadOrder);
        }
        let k = order as u8;
        self.slabs
            .reserve_by_need(&mut self.space, &mut self.buddy, t, k)
            .ok_or(Refusal::NoFrames)
    }

    /// Does the same as [`Kernel::alloc`]. It also returns all that a caller needs to lend the block.
    #[inline(always)]
    pub(crate) fn alloc_block(&mut self, t: u8, order: u32) -> Result<ReservedBlock, Refusal>
        requires { t < self.old.tenants }
        ensures steps { StepsMachine self.old t (Command.Alloc order) self.new (body_of (λ block. Frame block.first) result) }
        ensures page { IfOk result (IsReservedPage self.new.space self.new.buddy self.new.slabs t order) }
    {
        if order > u32::from(self.buddy.order()) {
            return Err(Refusal::BadOrder);
        }
        self.slabs
            .reserve_block_by_need(&mut self.space, &mut self.buddy, t, order as u8)
            .ok_or(Refusal::NoFrames)
    }

    /// Frees the page block that begins at a frame and returns its order. The bytes of the block do not change.
    #[inline(always)]
    pub(crate) fn free(&mut self, t: u8, frame: u32) -> Result<u8, Refusal>
        requires { t < self.old.tenants }
        ensures { StepsMachine self.old t (Command.Free frame) self.new (body_of Freed result) }
    {
        self.laws();
        let Some(superblock) = self.space.machine_of(t, frame >> self.order()) else {
            return Err(Refusal::NotABlock);
        };
        let machine_frame = self.machine_frame_in(superblock, t, frame);
        if self.slabs.is_slab_in(machine_frame) {
            return Err(Refusal::NotABlock);
        }
        self.buddy
            .release_in(superblock, t, frame)
            .ok_or(Refusal::NotABlock)
    }

    /// Borrows the `len` bytes that begin at `place`.
    ///
    /// Refuses with `BadLength` unless `len` is 1 to 64, then with `OutOfReach` if the bytes are not inside one live page block
    /// or one live object of the tenant.
    #[inline(always)]
    pub(crate) fn read(&self, t: u8, place: u32, len: u32) -> Result<&[u8], Refusal>
        requires { t < self.now.tenants }
        ensures steps { StepsMachine self.now t (Command.Read place len) self.now
            (body_of (λ bytes. Bytes (record { items = bytes.now })) result) }
        ensures few { IfOk result (λ bytes. length bytes.now ≤ MAX_BYTES) }
    {
        if len < 1 || len > MAX_BYTES as u32 {
            return Err(Refusal::BadLength);
        }
        let Some(superblock) = self.reached(t, place, len) else {
            return Err(Refusal::OutOfReach);
        };
        Ok(lent(&self.space, superblock, self.order(), t, place, len))
    }

    /// Writes at most 64 bytes, beginning at `place`, and returns their number.
    ///
    /// Refuses with `OutOfReach` if `bytes` is empty, or if the range is not inside one live page block or one live object of the
    /// tenant. A refused call writes nothing.
    #[inline(always)]
    pub(crate) fn write(&mut self, t: u8, place: u32, bytes: &[u8]) -> Result<u32, Refusal>
        requires tenant { t < self.old.tenants }
        requires few { length bytes.now ≤ MAX_BYTES }
        ensures steps { StepsMachine self.old t (Command.Write place (record { items = bytes.now })) self.new
            (body_of Written result) }
        ensures count { IfOk result (λ count. count ≡ length bytes.now) }
    {
        let len = bytes.len() as u32;
        let Some(superblock) = self.reached(t, place, len) else {
            return Err(Refusal::OutOfReach);
        };
        store(&mut self.space, superblock, t, place, bytes);
        Ok(len)
    }

    /// Returns the superblock of a range of tenant `t`, or `None` if the range is empty or is not inside one live page block or
    /// one live object.
    #[inline(always)]
    pub(crate) fn reached(&self, t: u8, place: u32, len: u32) -> Option<u16>
        requires { t < self.now.tenants }
        ensures reach { MatchOption result (IsInReach self.now.space self.now.buddy self.now.slabs t place len → ⊥)
            (λ m. IsInReach self.now.space self.now.buddy self.now.slabs t place len × (home_of self.now.space t place len ≡ Some m)) }
        ensures together { HoldTogether self.now.space self.now.buddy self.now.slabs }
        ensures known { t < length self.now.buddy.tenants }
    {
        self.laws();
        let slot = place / FRAME_BYTES >> self.order();
        let superblock = self.space.machine_of(t, slot)?;
        if !self.is_in_reach(superblock, t, place, len) {
            return None;
        }
        Some(superblock)
    }

    /// Returns true if a range of tenant `t` is not empty and is inside one live page block or one live object. The caller knows
    /// that this superblock is in the slot of the range's first byte.
    #[inline(always)]
    fn is_in_reach(&self, superblock: u16, t: u8, place: u32, len: u32) -> bool
        requires tenant { t < self.now.tenants }
        requires under { superblock_at self.now t (place / FRAME_BYTES / 2 ^ self.now.order) ≡ Some superblock }
        ensures { (result ≡ true) ↔ IsInReach self.now.space self.now.buddy self.now.slabs t place len }
    {
        self.laws();
        if len == 0 {
            return false;
        }
        let Some((first, order)) = self.buddy.block_in(superblock, t, place / FRAME_BYTES) else {
            return false;
        };
        let machine_frame = self.machine_frame_in(superblock, t, first);
        if self.slabs.is_slab_in(machine_frame) {
            return self.slabs.object_in(
                &self.space,
                &self.buddy,
                t,
                first,
                machine_frame,
                order,
                place,
                len,
            );
        }
        let end = u64::from(place) + u64::from(len);
        end <= u64::from(FRAME_BYTES) * (u64::from(first) + (1 << order))
    }
}

/// Borrows a range of tenant `t` that is in this superblock of `2^order` frames. Only the contract uses `t`.
#[inline(always)]
fn lent(space: &Space, superblock: u16, order: u32, t: u8, place: u32, len: u32) -> &[u8]
    requires order { order ≤ WIDE_ORDER }
    requires unit { space.now.unit ≡ FRAME_BYTES * 2 ^ order }
    requires home { home_of space.now t place len ≡ Some superblock }
    ensures value { window_of space.now t place len ≡ Some result.now }
    ensures len { length result.now ≡ len }
{
    let _ = t;
    space.laws();
    let from = (place % (FRAME_BYTES << order)) as usize;
    &space.machine_bytes(superblock)[from..from + len as usize]
}

/// Writes bytes over a range of tenant `t` that is in this superblock.
fn store(space: &mut Space, superblock: u16, t: u8, place: u32, bytes: &[u8])
    requires few { length bytes.now ≤ MAX_BYTES }
    requires home { home_of space.old t place (length bytes.now) ≡ Some superblock }
    ensures { space.new ≡ with_window space.old t place (length bytes.now) bytes.now }
{
    let len = bytes.len() as u32;
    space
        .window_in(superblock, t, place, len)
        .copy_from_slice(bytes);
}
