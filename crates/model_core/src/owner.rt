//! The owner of a superblock.

/// The owner of a superblock: one slot of one tenant.
#[derive(Clone, Copy, Debug, PartialEq, Eq)]
pub struct Owner {
    /// The number of the tenant.
    pub tenant: u8,
    /// The number of the tenant's slot.
    pub slot: u16,
}
