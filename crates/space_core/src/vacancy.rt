//! Where a grant looks: the superblocks without an owner and the slots that each tenant does not hold, as sets whose least number
//! is found at once.

ghost use Rattle.std.specs.Prelude.{◌≡◌, ◌<◌, ◌≤◌, true, false, length, position, replicate, slice_set, IfOk, IfSome, vec_len};
ghost use Rattle.sets_core.specs.declared.TheConstants.{MAX_SIZE};
ghost use Rattle.space_core.specs.Vacancy.{vacant_of, with_vacant};

use sets_core::BitSet;
use std::alloc::{AllocError, Global};

/// The superblocks without an owner, and the slots that each tenant does not hold.
#[derive(Debug, Drop)]
pub(crate) struct Vacancy {
    unowned: BitSet,
    vacant: Vec<BitSet>,
}

impl Vacancy {
    /// No superblock of `superblocks` has an owner, and no tenant of `tenants` holds a slot. A tenant has as many slots as there
    /// are superblocks.
    pub(crate) fn new(alloc: Global, superblocks: u16, tenants: u8) -> Result<Vacancy, AllocError>
        requires { superblocks ≤ MAX_SIZE }
        ensures unowned { IfOk result (λ v. v.unowned ≡ replicate superblocks true) }
        ensures vacant { IfOk result (λ v. v.vacant.items ≡ replicate tenants (replicate superblocks true)) }
    {
        let unowned = BitSet::full(alloc, superblocks)?;
        let mut vacant = Vec::with_capacity(alloc, usize::from(tenants))?;
        for _ in 0..tenants {
            vacant.push(BitSet::full(alloc, superblocks)?)?;
        }
        Ok(Vacancy { unowned, vacant })
    }

    /// Returns the least superblock without an owner, or `None` if every superblock has one.
    pub(crate) fn least_unowned(&self) -> Option<u16>
        ensures value { result ≡ position (λ is_in. is_in) self.now.unowned }
        ensures below { IfSome result (λ m. m < length self.now.unowned) }
    {
        self.unowned.first()
    }

    /// Returns the least slot that tenant `t` does not hold, or `None` if the tenant holds all slots.
    pub(crate) fn least_vacant(&self, t: u8) -> Option<u16>
        requires { t < vec_len self.now.vacant }
        ensures { result ≡ position (λ is_in. is_in) (vacant_of self.now.vacant.items t) }
    {
        self.vacant[usize::from(t)].first()
    }

    /// Superblock `m` gets an owner, as slot `u` of tenant `t`.
    pub(crate) fn fill(&mut self, t: u8, u: u16, m: u16)
        requires tenant { t < vec_len self.old.vacant }
        requires slot { u < length (vacant_of self.old.vacant.items t) }
        requires superblock { m < length self.old.unowned }
        ensures unowned { self.new.unowned ≡ slice_set self.old.unowned m false }
        ensures vacant { self.new.vacant.items ≡ with_vacant self.old.vacant.items t u false }
    {
        self.unowned.remove(m);
        self.vacant[usize::from(t)].remove(u);
    }

    /// Superblock `m`, which was slot `u` of tenant `t`, loses its owner.
    pub(crate) fn empty(&mut self, t: u8, u: u16, m: u16)
        requires tenant { t < vec_len self.old.vacant }
        requires slot { u < length (vacant_of self.old.vacant.items t) }
        requires superblock { m < length self.old.unowned }
        ensures unowned { self.new.unowned ≡ slice_set self.old.unowned m true }
        ensures vacant { self.new.vacant.items ≡ with_vacant self.old.vacant.items t u true }
    {
        self.unowned.insert(m);
        self.vacant[usize::from(t)].insert(u);
    }

    /// The owner of superblock `from` becomes that of superblock `to`.
    pub(crate) fn pass(&mut self, from: u16, to: u16)
        requires from { from < length self.old.unowned }
        requires to { to < length self.old.unowned }
        ensures unowned { self.new.unowned ≡ slice_set (slice_set self.old.unowned from true) to false }
        ensures vacant { self.new.vacant ≡ self.old.vacant }
    {
        self.unowned.insert(from);
        self.unowned.remove(to);
    }
}
