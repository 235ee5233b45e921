//! The choice of the free block from which an allocation is taken. It uses the tenant's counts and its summary.

ghost use Rattle.std.specs.Prelude.{◌≡◌, MatchOption};
ghost use Rattle.buddy_core.specs.Roots.{IsCounted, IsWithoutOrder, IsSource};
ghost use Rattle.buddy_core.specs.Summary.{summary_of};

use crate::summaries::Summary;
use crate::superblock::Superblock;
use crate::tenant::Tenant;

/// A slot of a tenant, the superblock in it, and the order of a free block there.
#[derive(Clone, Copy, Debug)]
pub struct Source {
    pub slot: u16,
    pub superblock: u16,
    pub order: u8,
}

/// Finds the least order of at least `k` in which the tenant has a free block, and returns the first slot with a free block of
/// that order. Returns `None` if no block of order `k` or more is free. Only the contract uses `superblocks`.
#[inline(always)]
pub fn find(superblocks: &[Superblock], tenant: &Tenant, summary: &Summary, k: u8) -> Option<Source>
    requires counted { IsCounted superblocks.now tenant.now }
    requires exact { summary.now ≡ summary_of superblocks.now tenant.now }
    ensures { MatchOption result (IsWithoutOrder superblocks.now tenant.now.slots k)
        (IsSource superblocks.now tenant.now.slots k) }
{
    let _ = superblocks;
    let order = tenant.least_free(k)?;
    let slot = summary.first(order)?;
    let superblock = tenant.superblock_at(u32::from(slot))?;
    Some(Source {
        slot,
        superblock,
        order,
    })
}
