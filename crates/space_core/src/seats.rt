//! The slot of each tenant that uses each superblock, in a row for each tenant. A lookup for a tenant reads only that tenant's row.

ghost use Rattle.std.specs.Prelude.{◌≡◌, ◌<◌, length, replicate, IfOk, vec_len};
ghost use Rattle.space_core.specs.Seats.{seats_of, with_seat};
ghost use Rattle.space_core.specs.Tables.{stored_rows};

use std::alloc::{AllocError, Global};

/// The seat of a superblock that no slot of the tenant uses. It is above the number of every slot.
pub(crate) const NO_SLOT: u16 = u16::MAX;

/// Sets the seat of superblock `m` in the row of tenant `t`: the slot that uses the superblock, or [`NO_SLOT`].
pub(crate) fn set_seat(seats: &mut Vec<Vec<u16>>, t: u8, m: usize, seat: u16)
    requires tenant { t < vec_len seats.old }
    requires superblock { m < length (seats_of (stored_rows seats.old) t) }
    ensures { stored_rows seats.new ≡ with_seat (stored_rows seats.old) t m seat }
{
    seats[usize::from(t)][m] = seat;
}

/// Makes a row for each of `tenants` tenants, in which each of `superblocks` superblocks has the seat [`NO_SLOT`].
pub(crate) fn make_seats(
    alloc: Global,
    tenants: usize,
    superblocks: usize,
) -> Result<Vec<Vec<u16>>, AllocError>
    ensures { IfOk result (λ rows. stored_rows rows ≡ replicate tenants (replicate superblocks NO_SLOT)) }
{
    let mut rows = Vec::with_capacity(alloc, tenants)?;
    for _ in 0..tenants {
        rows.push(vec![in alloc; NO_SLOT; superblocks]?)?;
    }
    Ok(rows)
}
