//! The rows of a report: one for each order, and one for each cache.

/// The numbers of blocks of one order.
#[derive(Clone, Copy, Debug, Default, PartialEq, Eq)]
pub struct OrderRow {
    /// The number of free blocks of the order.
    pub free: u32,
    /// The number of taken blocks of the order: page blocks and blocks of slabs.
    pub taken: u32,
}

/// The numbers of slabs and objects of one cache.
#[derive(Clone, Copy, Debug, Default, PartialEq, Eq)]
pub struct CacheRow {
    /// The number of the cache.
    pub cache: u8,
    /// The number of full slabs, in which all objects are live.
    pub full: u32,
    /// The number of partial slabs, which have both live and free objects.
    pub partial: u32,
    /// The number of empty slabs, which have no live object.
    pub empty: u32,
    /// The number of live objects.
    pub live: u32,
}
