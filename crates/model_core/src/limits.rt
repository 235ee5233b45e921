//! The sizes and limits of a machine and of requests.

/// The size of a frame, in bytes.
pub const FRAME_BYTES: u32 = 4096;

/// The size of the control record of a slab of small objects, in bytes. It is at the end of the slab's frame.
pub const RECORD_BYTES: u32 = 32;

/// The offset of the control record in its frame, in bytes. The objects lie before it.
pub const RECORD_OFFSET: u32 = 4064;

/// The largest size of an object, in bytes. The least is 1.
pub const MAX_SIZE: u32 = 4096;

/// The least order of a superblock, which has `2^order` frames.
pub const MIN_ORDER: u8 = 3;

/// The greatest order of a superblock.
pub const MAX_ORDER: u8 = 8;

/// The largest number of superblocks of a machine. The least is 1.
pub const MAX_SUPERBLOCKS: u16 = 256;

/// The largest number of frames of a machine, and so of a tenant: those of `MAX_SUPERBLOCKS` superblocks of order `MAX_ORDER`.
pub const MAX_FRAMES: u32 = 65_536;

/// The largest number of tenants of a machine. The least is 1.
pub const MAX_TENANTS: u8 = 64;

/// The greatest order of a superblock of a wide machine (`Config::is_wide`).
pub const WIDE_ORDER: u8 = 10;

/// The largest number of superblocks of a wide machine.
pub const WIDE_SUPERBLOCKS: u16 = 4096;

/// The largest number of frames of a wide machine, and so of a tenant. Each of their bytes has a place below 2^32.
pub const WIDE_FRAMES: u32 = 1_048_576;

/// The largest number of tenants of a wide machine.
pub const WIDE_TENANTS: u8 = 255;

/// The largest number of caches of a tenant.
pub const MAX_CACHES: u8 = 32;

/// The largest number of bytes of a read or a write. The least is 1.
pub const MAX_BYTES: usize = 64;

/// The largest number of bytes of a cache's pattern. The least is 1.
pub const MAX_PATTERN: usize = 16;
