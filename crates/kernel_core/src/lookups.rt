//! Lookups in a kernel, and the laws of every kernel.

ghost use Rattle.std.specs.Prelude.{◌≡◌, ◌↔◌, ℕ, ◌*◌, ◌^◌, ◌<◌, ◌≤◌, length, MatchOption, Some};
ghost use Rattle.model_core.specs.declared.limits.TheConstants.{FRAME_BYTES};
ghost use Rattle.model_core.specs.Owners.{owned_by};
ghost use Rattle.space_core.specs.Content.{mark_at, owner_at};
ghost use Rattle.machine_changes.specs.Slots.{HoldTogether};
ghost use Rattle.kernel_core.specs.Content.{PartsAgree, superblock_at, superblock_bytes};
ghost use Rattle.kernel_core.specs.Records.{RecordsStand};

use crate::Kernel;
use buddy_core::Buddy;
use slab_core::Slabs;
use space_core::Space;

impl Kernel {
    /// Returns the tenant with this number, or `None` if there is none.
    #[inline(always)]
    pub fn tenant(&self, tenant: u32) -> Option<u8>
        ensures { MatchOption result (self.now.tenants ≤ tenant) (λ t. (t ≡ tenant) × (t < self.now.tenants)) }
    {
        if tenant >= u32::from(self.buddy.tenants()) {
            return None;
        }
        Some(tenant as u8)
    }

    /// Returns the superblock in slot `slot` of tenant `t`, or `None` if the tenant does not hold the slot. The owner of the
    /// returned superblock is tenant `t` with slot `slot`.
    pub fn superblock_of(&self, t: u8, slot: u32) -> Option<u16>
        ensures value { result ≡ superblock_at self.now t slot }
        ensures owner { (m : ℕ) → (result ≡ Some m) ↔ (owner_at self.now.space.owners m ≡ Some (owned_by t slot)) }
    {
        self.laws();
        if t >= self.buddy.tenants() {
            return None;
        }
        self.space.machine_of(t, slot)
    }

    /// Returns the slot of tenant `tenant` that uses superblock `superblock`. Returns `None` if no slot of the tenant uses it, also
    /// if there is no such tenant or superblock. Reads no table that the administrator's calls for other tenants write.
    #[inline(always)]
    pub fn slot_under(&self, tenant: u32, superblock: u32) -> Option<u16>
        ensures { (u : ℕ) → (result ≡ Some u) ↔ (superblock_at self.now tenant u ≡ Some superblock) }
    {
        self.laws();
        let Some(t) = self.tenant(tenant) else {
            return None;
        };
        if superblock >= self.superblocks() {
            return None;
        }
        self.space.slot_under(t, superblock as u16)
    }

    /// Returns the `2^order * 4096` bytes of superblock `superblock`.
    pub fn machine_bytes(&self, superblock: u16) -> &[u8]
        requires { superblock < self.now.superblocks }
        ensures value { result.now ≡ superblock_bytes self.now superblock }
        ensures len { length result.now ≡ FRAME_BYTES * 2 ^ self.now.order }
    {
        self.space.machine_bytes(superblock)
    }

    /// Returns true if superblock `superblock` may have bytes of an earlier owner. After its next grant it reads as zero.
    pub fn is_marked(&self, superblock: u16) -> bool
        requires { superblock < self.now.superblocks }
        ensures { result ≡ mark_at self.now.space.marks superblock }
    {
        self.space.is_marked(superblock)
    }

    /// Returns the order of a superblock, which has `2^order` frames of 4096 bytes.
    pub fn order(&self) -> u32
        ensures { result ≡ self.now.order }
    {
        u32::from(self.buddy.order())
    }

    /// Returns the number of superblocks in the machine.
    pub fn superblocks(&self) -> u32
        ensures { result ≡ self.now.superblocks }
    {
        u32::from(self.buddy.superblocks())
    }

    /// Returns the number of tenants that share the machine. They are numbered from 0.
    pub fn tenants(&self) -> u32
        ensures { result ≡ self.now.tenants }
    {
        u32::from(self.buddy.tenants())
    }

    /// Returns the memory, with its pool and its mapping.
    pub fn space(&self) -> &Space
        ensures { result.now ≡ self.now.space }
    {
        &self.space
    }

    /// Returns the buddy systems: the held slots and the taken blocks of each tenant.
    pub fn buddy(&self) -> &Buddy
        ensures { result.now ≡ self.now.buddy }
    {
        &self.buddy
    }

    /// Returns the caches and slabs of all tenants.
    pub fn slabs(&self) -> &Slabs
        ensures { result.now ≡ self.now.slabs }
    {
        &self.slabs
    }

    /// A law: the parts of every kernel agree. The call does nothing.
    pub fn parts_agree(&self)
        ensures { PartsAgree self.now }
    {
        self.laws();
    }

    /// A law: in every kernel, also after [`Kernel::ask`], the last 32 bytes of each slab of small objects are the bitmap of its
    /// live objects. The call does nothing.
    pub fn records_stand(&self)
        ensures { RecordsStand self.now }
    {
        self.laws();
    }

    /// A law: the parts agree, and the invariants of each part hold. The call does nothing.
    pub(crate) fn laws(&self)
        ensures agree { PartsAgree self.now }
        ensures records { RecordsStand self.now }
        ensures together { HoldTogether self.now.space self.now.buddy self.now.slabs }
    {
        self.space.laws();
        self.buddy.laws();
        self.slabs.laws();
    }
}
