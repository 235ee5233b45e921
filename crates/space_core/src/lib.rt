//! The RAM of a partitioning kernel, divided into superblocks of one size. A superblock is either free
//! in the pool or in a slot of one tenant. A tenant can access only the bytes of its own slots.
//!
//! Scrubbing is lazy: a superblock that is taken back, or that a slot moves away from, keeps its bytes
//! and gets a mark. A marked superblock is emptied when it is granted again, and completely overwritten
//! if a slot moves to it. So no tenant reads what another one left.
//!
//! Memory for the bytes of every superblock is reserved at boot. A granted superblock reads as zero; the
//! zeros are written only when one of its bytes is first written or lent for writing. So a grant fills no memory.
//!
//! Only [`Space::new`] allocates.
#![tactic(auto)]

mod banks;
mod pool;
mod seats;
mod vacancy;
mod windows;

ghost use Rattle.std.specs.Prelude.{◌≡◌, ◌*◌, ◌^◌, ◌≤◌, IfOk};
ghost use Rattle.model_core.specs.declared.limits.TheConstants.{FRAME_BYTES, WIDE_ORDER, WIDE_SUPERBLOCKS, WIDE_TENANTS, WIDE_FRAMES};
ghost use Rattle.space_core.specs.Content.{empty_space};
ghost use Rattle.space_core.specs.Tables.{stored_rows};
ghost use Rattle.space_core.specs.Laws.{SpaceLaws};

use crate::banks::make_banks;
use crate::pool::make_rows;
use crate::seats::make_seats;
use crate::vacancy::Vacancy;
pub use model_core::limits::FRAME_BYTES;
use model_core::owner::Owner;
use std::alloc::{AllocError, Global};
use std::marker::Model;

// A frame has 2^12 bytes.
const FRAME_BITS: u8 = 12;

/// The error if every superblock has an owner.
#[derive(Clone, Copy, Debug, PartialEq, Eq)]
pub struct PoolEmpty;

/// The error if the tenant does not hold the slot.
#[derive(Clone, Copy, Debug, PartialEq, Eq)]
pub struct NoSlot;

/// The reason why a slot was not moved to another superblock.
#[derive(Clone, Copy, Debug, PartialEq, Eq)]
pub enum MoveRefusal {
    /// The tenant does not hold the slot.
    NoSlot,
    /// Every superblock has an owner.
    PoolEmpty,
}

/// The RAM, with its pool and the mapping between superblocks and slots in both directions.
///
/// Superblocks, tenants and the slots of a tenant are numbered from 0. The number of a slot is below the number of superblocks. A
/// place is the number of a byte of a tenant: it lies in slot `place / unit`, where `unit` is the number of bytes of a superblock.
#[derive(Debug, Drop)]
pub struct Space {
    unit: u32,
    // A superblock has 2^bits bytes, so a shift gives the slot of a place. A division would take longer than the rest of a short
    // read.
    bits: u8,
    owners: Vec<Option<Owner>>,
    slots: Vec<Vec<Option<u16>>>,
    // For each tenant and each superblock, the slot of the tenant that uses the superblock, or `NO_SLOT`. A tenant's lookups read
    // only its own row, and never `owners`, which the administrator writes.
    seats: Vec<Vec<u16>>,
    // The superblocks without an owner, and the slots that each tenant does not hold.
    vacancy: Vacancy,
    // The stored bytes of each superblock. The vector has its full capacity, but is empty from boot or from a grant until a byte
    // is first written or lent for writing.
    banks: Vec<Vec<u8>>,
    marks: Vec<bool>,
    // The bytes of a superblock with an empty vector: all zero.
    zeros: Vec<u8>,
}

impl Model for Space {
    ghost use Rattle.std.specs.Prelude.{length};
    ghost use Rattle.space_core.specs.Content.{Content, IsSpace};
    ghost use Rattle.space_core.specs.Tables.{stored_rows};
    ghost use Rattle.space_core.specs.Seats.{AreSeats};
    ghost use Rattle.space_core.specs.Storage.{shown_banks, IsStored};
    ghost use Rattle.space_core.specs.Vacancy.{IsVacancy};

    ghost Value = { Content };

    ghost view = { λ s. record {
      unit = s.unit;
      owners = s.owners.items;
      slots = stored_rows s.slots;
      banks = shown_banks s.unit (stored_rows s.banks);
      marks = s.marks.items;
    } };

    ghost invariant = { λ s. IsSpace (record {
      unit = s.unit;
      owners = s.owners.items;
      slots = stored_rows s.slots;
      banks = shown_banks s.unit (stored_rows s.banks);
      marks = s.marks.items;
    })
        × IsStored s.unit s.bits s.banks.items s.zeros.items
        × IsVacancy s.owners.items (stored_rows s.slots) s.vacancy.unowned s.vacancy.vacant.items
        × AreSeats s.owners.items (length (stored_rows s.slots)) (stored_rows s.seats) };
}

impl Space {
    /// Makes RAM of `superblocks` superblocks of `2^order` frames each, for `tenants` tenants. Every byte
    /// is zero, and no superblock has an owner or a mark.
    ///
    /// Allocates all memory that will ever be used. Returns `AllocError` if the allocator refuses it.
    pub fn new(alloc: Global, order: u8, superblocks: u16, tenants: u8) -> Result<Space, AllocError>
        requires order { order ≤ WIDE_ORDER }
        requires superblocks { superblocks ≤ WIDE_SUPERBLOCKS }
        requires tenants { tenants ≤ WIDE_TENANTS }
        requires frames { superblocks * 2 ^ order ≤ WIDE_FRAMES }
        ensures { IfOk result (λ s. s ≡ empty_space (FRAME_BYTES * 2 ^ order) superblocks tenants) }
    {
        let unit = FRAME_BYTES << order;
        let bits = FRAME_BITS + order;
        let owners = vec![in alloc; None; usize::from(superblocks)]?;
        let slots = make_rows(alloc, usize::from(tenants), usize::from(superblocks))?;
        let seats = make_seats(alloc, usize::from(tenants), usize::from(superblocks))?;
        let vacancy = Vacancy::new(alloc, superblocks, tenants)?;
        let banks = make_banks(alloc, usize::from(superblocks), unit as usize)?;
        let marks = vec![in alloc; false; usize::from(superblocks)]?;
        let zeros = vec![in alloc; 0; unit as usize]?;
        Ok(Space {
            unit,
            bits,
            owners,
            slots,
            seats,
            vacancy,
            banks,
            marks,
            zeros,
        })
    }

    /// A law: the invariants of every `Space`, and the effect of each call on the slots and bytes of its tenant and of all other
    /// tenants. This function itself does nothing.
    pub fn laws(&self)
        ensures { SpaceLaws self.now }
    {
        let _ = &self.unit;
    }
}
