//! The refusals of the private machine. A refused operation changes nothing. If several refusals apply, the first in the order of
//! the variants is returned.

/// Why a page block is refused, in the order tested.
#[derive(Clone, Copy, Debug, PartialEq, Eq)]
pub enum AllocRefusal {
    /// The order is above the order of a superblock.
    BadOrder,
    /// No block of the requested order or above is free, and none would be if all empty slabs were freed.
    NoFrames,
}

/// Why a read is refused, in the order tested.
#[derive(Clone, Copy, Debug, PartialEq, Eq)]
pub enum ReadRefusal {
    /// The number of bytes is 0 or above [`MAX_BYTES`](crate::limits::MAX_BYTES).
    BadLength,
    /// The range is not inside one live page block or one live object.
    OutOfReach,
}

/// Why a new cache is refused, in the order tested.
#[derive(Clone, Copy, Debug, PartialEq, Eq)]
pub enum CacheRefusal {
    /// The size is 0 or above 4096.
    BadSize,
    /// The alignment is not 8, 16, 32, 64, 128 or 256.
    BadAlign,
    /// The tenant already has 32 caches, which is the limit.
    NoCacheSlot,
}

/// Why a take is refused, in the order tested.
#[derive(Clone, Copy, Debug, PartialEq, Eq)]
pub enum TakeRefusal {
    /// There is no cache of this number.
    NoCache,
    /// A new slab is needed, no block is free for it, and none would be if all empty slabs were freed.
    NoFrames,
}

/// Why a give is refused, in the order tested.
#[derive(Clone, Copy, Debug, PartialEq, Eq)]
pub enum GiveRefusal {
    /// There is no cache of this number.
    NoCache,
    /// The place is not the first byte of a live object of the cache.
    NotAnObject,
}

/// Why the destruction of a cache is refused, in the order tested.
#[derive(Clone, Copy, Debug, PartialEq, Eq)]
pub enum DestroyRefusal {
    /// There is no cache of this number.
    NoCache,
    /// An object of the cache is live.
    CacheInUse,
}

/// Why a take-back is refused, in the order tested.
#[derive(Clone, Copy, Debug, PartialEq, Eq)]
pub enum TakeBackRefusal {
    /// The slot is not held.
    NoSlot,
    /// A frame of the slot is taken, by a page block or by a slab, even if the slab is empty.
    SlotBusy,
}
