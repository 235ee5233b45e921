//! Slab caches over the buddy systems and the memory of all tenants (Bonwick, "The Slab Allocator", USENIX Summer 1994).
//!
//! A slab is a block of frames cut into objects of one size. The control record of a slab of small objects is in the last 32
//! bytes of its frame: one bit for each object, 1 if the object is live. The record of a slab of large objects is stored outside
//! the slab.
//!
//! Each call that runs a tenant's command is proved to take the step of the tenant's private machine, and to leave all other
//! tenants unchanged. The private machine is the one that the memory, the buddy systems and the caches show for the tenant.
//!
//! Only [`Slabs::new`] allocates.
//!
//! # Example
//!
//! ```
//! use buddy_core::Buddy;
//! use layout_core::{Layout, Pattern};
//! use slab_core::Slabs;
//! use space_core::Space;
//!
//! let mut space = Space::new(rt.alloc(), 3, 2, 2)?;
//! let mut buddy = Buddy::new(rt.alloc(), 3, 2, 2)?;
//! let mut slabs = Slabs::new(rt.alloc(), 3, 2, 2)?;
//! let (slot, superblock) = space.grant(0)?;
//! buddy.add_slot(0, slot, superblock);
//! let pattern = Pattern::new(b"\xa5").unwrap();
//! slabs.create(0, Layout::of(200, 8)?, pattern);
//! assert_eq!(rt; slabs.take(&mut space, &mut buddy, 0, 0), Ok(0));
//! assert_eq!(rt; space.window(0, 0, 2), Some([0xa5, 0xa5].as_slice()));
//! ```
#![tactic(auto)]

ghost use Rattle.std.specs.Prelude.{◌≡◌, ℕ, ◌*◌, ◌^◌, ◌≤◌, IfOk};
ghost use Rattle.model_core.specs.declared.limits.TheConstants.{WIDE_ORDER, WIDE_SUPERBLOCKS, WIDE_TENANTS, WIDE_FRAMES};
ghost use Rattle.slab_tables.specs.Content.{IsSlabs, empty_tables};
ghost use Rattle.machine_changes.specs.Laws.{ListsHold};

mod block_set;
mod creating;
mod fitting;
mod giving;
mod growing;
mod laws;
mod lending;
mod moving;
mod objects;
mod reaching;
mod reserving;
mod returning;
mod rows;
mod taking;

use crate::block_set::make_sets;
use klist_core::Lists;
pub use model_core::refusals::{DestroyRefusal, GiveRefusal, TakeRefusal};
pub use model_core::report::CacheRow;
pub use reaching::ObjectSpan;
use slab_tables::Tables;
use std::alloc::{AllocError, Global};
use std::marker::Model;
pub use taking::Taken;

/// The caches and slabs of all tenants.
#[derive(Debug, Drop)]
pub struct Slabs {
    tables: Tables,
    /// For each tenant, a set of blocks for the search in `fitting`: the blocks in which it has found a taken frame that lies in no
    /// empty slab. A search for a tenant writes only that tenant's set.
    refused: Vec<Vec<u64>>,
    /// The number of words in each set of `refused`. A set has at least one bit for each frame of the machine, which is enough for
    /// the blocks of any order.
    words: usize,
}

impl Model for Slabs {
    ghost use Rattle.std.specs.Prelude.{◌≡◌, ◌*◌, ◌≤◌, All, length, vec_len};
    ghost use Rattle.model_core.specs.declared.limits.TheConstants.{MAX_CACHES};
    ghost use Rattle.slab_tables.specs.Content.{Content};

    ghost Value = { Content };

    ghost view = { λ s. s.tables };

    ghost invariant = { λ s. (length s.tables.lists.places ≤ 64 * s.words)
        × (length s.tables.caches ≡ MAX_CACHES * vec_len s.refused)
        × All (λ row. vec_len row ≡ s.words) s.refused.items };
}

impl Slabs {
    /// Makes the tables of a machine on which no tenant has a cache.
    ///
    /// Allocates all memory that the caches and slabs will ever use. Returns `AllocError` if the allocator refuses it.
    pub fn new(alloc: Global, order: u8, superblocks: u16, tenants: u8) -> Result<Slabs, AllocError>
        requires order { order ≤ WIDE_ORDER }
        requires superblocks { superblocks ≤ WIDE_SUPERBLOCKS }
        requires tenants { tenants ≤ WIDE_TENANTS }
        requires frames { superblocks * 2 ^ order ≤ WIDE_FRAMES }
        ensures { IfOk result (λ s. s ≡ empty_tables order superblocks tenants) }
    {
        let frames = usize::from(superblocks) << order;
        let words = frames.div_ceil(64);
        Ok(Slabs {
            tables: Tables::new(alloc, order, superblocks, tenants)?,
            refused: make_sets(alloc, tenants, words)?,
            words,
        })
    }

    /// A law: the invariants of the caches and slabs of all tenants. The call does nothing.
    pub fn laws(&self)
        ensures { IsSlabs self.now }
    {
        self.tables.laws();
    }

    /// Returns the order of a superblock, which has `2^order` frames.
    pub fn order(&self) -> u8
        ensures { result ≡ self.now.top }
    {
        self.tables.order()
    }

    /// Returns the lists of the slabs of all caches. A node of a list is the machine frame at which a slab begins. The node's key
    /// is the slab's first frame in the numbering of the slab's tenant. [`slab_tables::ListId`] has the number of each list.
    pub fn lists(&self) -> &Lists
        ensures same { result.now ≡ self.now.lists }
        ensures hold { ListsHold self.now }
    {
        self.tables.laws();
        self.tables.lists()
    }
}
