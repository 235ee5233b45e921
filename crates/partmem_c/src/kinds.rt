//! The kinds of replies. The comment of each kind lists the numbers of a reply of this kind, in order.

/// No event has a reply of this kind.
pub const NOTHING: u32 = 0;
/// The number of the refusal. The event was refused, and nothing changed.
pub const REFUSED: u32 = 1;
/// The tenant, its slot, and its superblock.
pub const GRANTED: u32 = 2;
/// The superblock.
pub const TAKEN_BACK: u32 = 3;
/// The tenant, and the number of its superblocks.
pub const WAS_RESET: u32 = 4;
/// The tenant, its slot, and its new superblock.
pub const MOVED: u32 = 5;
/// The number of superblocks.
pub const OWNERS: u32 = 6;
/// The first frame of the new page block.
pub const FRAME: u32 = 7;
/// The order of the freed page block.
pub const FREED: u32 = 8;
/// The number of bytes read. They are at the front of the buffer.
pub const BYTES: u32 = 9;
/// The number of bytes written.
pub const WRITTEN: u32 = 10;
/// The number of the new cache, its chunk in bytes, the order of its slabs, the number of objects in a slab, and the number of
/// colours.
pub const MADE: u32 = 11;
/// The number of frames freed, which were in the cache's slabs.
pub const DESTROYED: u32 = 12;
/// The place of the object.
pub const OBJECT: u32 = 13;
/// No number: the object was given back.
pub const GIVEN: u32 = 14;
/// The number of frames freed.
pub const REAPED: u32 = 15;
/// The numbers of frames, of taken frames and of free frames, 1 plus the order of a largest free block (0 if no block is free),
/// and the share of the free frames that are outside one largest free block, in thousandths, rounded up.
pub const FIGURES: u32 = 16;
