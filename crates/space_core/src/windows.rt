//! Access to a tenant's bytes by place: windows that are borrowed for reading or writing, and single bytes.

ghost use Rattle.std.specs.Prelude.{◌≡◌, ◌≢◌, ◌+◌, ◌/◌, ◌%◌, ◌<◌, ◌≤◌, Some, None, length, replicate, option_map, IsSome, IfSome, slice_range};
ghost use Rattle.std.specs.Borrow.{sem};
ghost use Rattle.space_core.specs.Content.{bank, owner_at, superblock_at};
ghost use Rattle.space_core.specs.Windows.{home_of, window_of, with_window, byte_at, with_byte};
ghost use Rattle.space_core.specs.Lending.{LendsWindow, LendsPart};

use crate::Space;
use crate::banks::{set_byte_at, write_out};

impl Space {
    /// Borrows the `len` bytes of tenant `t` that begin at `place`. Returns `None` if `len` is 0 or the range is not inside one
    /// slot that the tenant holds.
    pub fn window(&self, t: u8, place: u32, len: u32) -> Option<&[u8]>
        requires { t < length self.now.slots }
        ensures value { option_map (λ bytes. bytes.now) result ≡ window_of self.now t place len }
        ensures len { IfSome result (λ bytes. length bytes.now ≡ len) }
    {
        let at = self.within(place);
        if len == 0 || u64::from(at) + u64::from(len) > u64::from(self.unit) {
            return None;
        }
        let m = self.machine_of(t, self.slot_of(place))?;
        Some(part(self.bytes(usize::from(m)), at as usize, len as usize))
    }

    /// Borrows for writing the `len` bytes of tenant `t` that begin at `place`. The range must not be empty, and must lie in one
    /// slot that the tenant holds. When the borrow ends, the range has the written bytes, and the rest of RAM is unchanged.
    pub fn window_mut(&mut self, t: u8, place: u32, len: u32) -> &mut [u8]
        requires tenant { t < length self.old.slots }
        requires in_reach { IsSome (home_of self.old t place len) }
        ensures* writes_back { sem 𝓛 (LendsWindow self.entry t place len result) }
        ensures value { window_of self.old t place len ≡ Some result.now }
        ensures len { length result.now ≡ len }
    {
        let m = self.held(t, self.slot_of(place));
        self.window_in(m, t, place, len)
    }

    /// Does the same as [`Space::window_mut`], for a caller that knows that superblock `m` is in the slot of `place`. Only the
    /// contract uses `t`.
    #[inline(always)]
    pub fn window_in(&mut self, m: u16, t: u8, place: u32, len: u32) -> &mut [u8]
        requires { home_of self.old t place len ≡ Some m }
        ensures* writes_back { sem 𝓛 (LendsWindow self.entry t place len result) }
        ensures value { window_of self.old t place len ≡ Some result.now }
        ensures len { length result.now ≡ len }
    {
        let _ = t;
        self.laws();
        let at = self.within(place);
        self.part_mut(usize::from(m), at as usize, len as usize)
    }

    /// Sets the `len` bytes of tenant `t` that begin at `place` to zero. The range must not be empty, and must lie in one slot
    /// that the tenant holds.
    pub fn zero(&mut self, t: u8, place: u32, len: u32)
        requires tenant { t < length self.old.slots }
        requires in_reach { IsSome (home_of self.old t place len) }
        ensures { self.new ≡ with_window self.old t place len (replicate len 0) }
    {
        self.window_mut(t, place, len).fill(0);
    }

    /// Returns the byte at a place of tenant `t`, which must hold the slot of the place.
    pub fn byte(&self, t: u8, place: u32) -> u8
        requires tenant { t < length self.now.slots }
        requires held { IsSome (superblock_at self.now.slots t (place / self.now.unit)) }
        ensures { byte_at self.now t place ≡ Some result }
    {
        let m = self.held(t, self.slot_of(place));
        self.byte_in(m, t, place)
    }

    /// Returns the same as [`Space::byte`], for a caller that knows that superblock `m` is in the slot of `place`. Only the
    /// contract uses `t`.
    #[inline(always)]
    pub fn byte_in(&self, m: u16, t: u8, place: u32) -> u8
        requires { superblock_at self.now.slots t (place / self.now.unit) ≡ Some m }
        ensures { byte_at self.now t place ≡ Some result }
    {
        let _ = t;
        self.laws();
        let at = self.within(place);
        let m = usize::from(m);
        self.bytes(m)[at as usize]
    }

    /// Writes one byte at a place of tenant `t`. Superblock `m` must be in the slot of the place. Only the contract uses `t`.
    #[inline(always)]
    pub fn set_byte_in(&mut self, m: u16, t: u8, place: u32, byte: u8)
        requires { superblock_at self.old.slots t (place / self.old.unit) ≡ Some m }
        ensures { self.new ≡ with_byte self.old t place byte }
    {
        let _ = t;
        let at = self.within(place);
        let m = usize::from(m);
        write_out(&mut self.banks, m, self.unit as usize);
        set_byte_at(&mut self.banks, m, at as usize, byte);
    }

    /// Returns the number of bytes of a superblock.
    pub fn unit(&self) -> u32
        ensures { result ≡ self.now.unit }
    {
        self.unit
    }

    /// Returns all bytes of superblock `m`.
    pub fn machine_bytes(&self, m: u16) -> &[u8]
        requires { m < length self.now.owners }
        ensures value { result.now ≡ bank self.now.banks m }
        ensures len { length result.now ≡ self.now.unit }
    {
        self.bytes(usize::from(m))
    }

    /// Returns the slot of a place.
    #[inline(always)]
    fn slot_of(&self, place: u32) -> u32
        ensures { result ≡ place / self.now.unit }
    {
        place >> self.bits
    }

    /// Returns the offset of a place in its superblock.
    #[inline(always)]
    fn within(&self, place: u32) -> u32
        ensures { result ≡ place % self.now.unit }
    {
        place & (self.unit - 1)
    }

    /// Returns the superblock in a slot of tenant `t`, which must hold the slot.
    fn held(&self, t: u8, slot: u32) -> u16
        requires tenant { t < length self.now.slots }
        requires held { IsSome (superblock_at self.now.slots t slot) }
        ensures value { superblock_at self.now.slots t slot ≡ Some result }
        ensures below { result < length self.now.owners }
    {
        self.machine_of(t, slot).unwrap()
    }

    /// Returns all bytes of superblock `m`.
    fn bytes(&self, m: usize) -> &[u8]
        requires { m < length self.now.owners }
        ensures value { result.now ≡ bank self.now.banks m }
        ensures len { length result.now ≡ self.now.unit }
    {
        let stored = self.banks[m].as_slice();
        if stored.is_empty() {
            self.zeros.as_slice()
        } else {
            stored
        }
    }

    /// Borrows for writing the `len` bytes of superblock `m` that begin at offset `from`.
    fn part_mut(&mut self, m: usize, from: usize, len: usize) -> &mut [u8]
        requires in_bounds { m < length self.old.owners }
        requires owned { owner_at self.old.owners m ≢ None }
        requires within { from + len ≤ self.old.unit }
        ensures* writes_back { sem 𝓛 (LendsPart self.entry m from result) }
        ensures value { result.now ≡ slice_range (bank self.old.banks m) from (from + len) }
        ensures len { length result.now ≡ len }
    {
        write_out(&mut self.banks, m, self.unit as usize);
        let bank = &mut self.banks[m];
        bank.slice_mut(from..from + len)
    }
}

/// Returns the `len` bytes of `bytes` that begin at index `from`.
fn part(bytes: &[u8], from: usize, len: usize) -> &[u8]
    requires { from + len ≤ length bytes.now }
    ensures value { result.now ≡ slice_range bytes.now from (from + len) }
    ensures len { length result.now ≡ len }
{
    &bytes[from..from + len]
}
