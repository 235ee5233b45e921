//! Numbers in replies.

/// A number in a reply.
#[derive(Clone, Copy, Debug)]
pub enum Figure {
    /// The number of a new cache.
    Cache,
    /// The bytes from one object of a new cache to the next.
    Chunk,
    /// The order of the slabs of a new cache.
    Order,
    /// The number of objects in a slab of a new cache.
    Objects,
    /// The number of colours of a new cache.
    Colours,
    /// The number of frames that come back from empty slabs.
    Frames,
    /// The number of a tenant.
    Tenant,
    /// The number of a slot.
    Slot,
    /// The number of superblocks that a reset tenant had, or that the table of owners lists.
    Superblocks,
}
