//! Loads: what the tenants of a machine request, and how often.

use kernel_core::Config;

/// What a line does.
#[derive(Clone, Copy, Debug, PartialEq, Eq)]
pub enum Kind {
    Alloc,
    Free,
    Take,
    Give,
    Read,
    Write,
    /// A new cache with a random object size.
    Cache,
    /// A destroy with a random cache number. It is refused if no cache has this number, or if the cache has a live object.
    Destroy,
    Reap,
    Report,
    Move,
    TakeBack,
    /// A tenant begins again: it is reset, gets as many superblocks as at the start, and makes its caches.
    Reset,
    Pool,
    /// A line that is no command, or a `read` with unusual blanks.
    Odd,
}

/// What the tenants of a machine request.
#[derive(Clone, Copy, Debug)]
pub struct Load {
    pub config: Config,
    /// The number of superblocks that are granted at the start, to the tenants in turn.
    pub granted: u32,
    /// The sizes of the objects of each tenant's caches at the start, in bytes.
    pub sizes: &'static [u32],
    /// The orders of blocks. Each block gets the order of a random entry, so an order with more entries is more frequent.
    pub orders: &'static [u32],
    /// The largest numbers of blocks and of objects of a tenant. A tenant at the limit frees one instead of allocating another.
    pub most_blocks: usize,
    pub most_objects: usize,
    /// Each kind of line with its weight. The share of lines of a kind is its weight divided by the sum of all weights.
    pub kinds: &'static [(Kind, u32)],
}

/// A machine of 8 MiB of RAM with eight tenants, as in `bench/loads.py`.
const SMALL: Config = Config {
    order: 6,
    superblocks: 32,
    tenants: 8,
};

/// A machine of 256 MiB with three tenants.
const WIDE: Config = Config {
    order: 8,
    superblocks: 256,
    tenants: 3,
};

/// A machine of 256 MiB with the largest number of tenants.
const CROWDED_MACHINE: Config = Config {
    order: 8,
    superblocks: 256,
    tenants: 64,
};

const FEW_SIZES: [u32; 9] = [16, 24, 64, 100, 256, 500, 1000, 2000, 3000];

/// The object sizes that three Linux machines use most, in bytes.
const KERNEL_SIZES: [u32; 21] = [
    16, 24, 32, 64, 80, 96, 104, 128, 152, 192, 256, 512, 584, 640, 704, 712, 784, 1024, 1152,
    2112, 4096,
];

const SMALL_ORDERS: [u32; 15] = [0, 0, 0, 0, 0, 0, 0, 0, 1, 1, 1, 1, 2, 2, 3];

const SINGLE_FRAMES: [u32; 50] = [
    0, 0, 0, 0, 0, 0, 0, 0, 0, 0, 0, 0, 0, 0, 0, 0, 0, 0, 0, 0, 0, 0, 0, 0, 0, 0, 0, 0, 0, 0, 0, 0,
    0, 0, 0, 0, 0, 0, 0, 0, 0, 0, 0, 0, 0, 0, 0, 0, 0, 3,
];

const ALL_ORDERS: [u32; 24] = [
    0, 0, 0, 0, 0, 0, 0, 0, 1, 1, 1, 1, 2, 2, 2, 3, 3, 4, 4, 5, 6, 7, 8, 9,
];

/// Three Linux guests: objects of many sizes, and single frames.
pub const GUESTS: Load = Load {
    config: WIDE,
    granted: 40,
    sizes: &KERNEL_SIZES,
    orders: &SINGLE_FRAMES,
    most_blocks: 1200,
    most_objects: 9000,
    kinds: &[
        (Kind::Take, 310),
        (Kind::Give, 290),
        (Kind::Alloc, 205),
        (Kind::Free, 193),
        (Kind::Reap, 1),
        (Kind::Report, 1),
    ],
};

/// Blocks of small orders. About half of all frames are taken, and blocks are freed in a random sequence.
pub const BLOCKS: Load = Load {
    config: SMALL,
    granted: 32,
    sizes: &FEW_SIZES,
    orders: &SMALL_ORDERS,
    most_blocks: 70,
    most_objects: 8,
    kinds: &[(Kind::Alloc, 60), (Kind::Free, 40)],
};

/// Objects of nine sizes.
pub const OBJECTS: Load = Load {
    config: SMALL,
    granted: 32,
    sizes: &FEW_SIZES,
    orders: &SMALL_ORDERS,
    most_blocks: 8,
    most_objects: 120,
    kinds: &[(Kind::Take, 600), (Kind::Give, 400), (Kind::Reap, 1)],
};

/// Reads and writes of bytes in live objects and blocks.
pub const BYTES: Load = Load {
    config: SMALL,
    granted: 32,
    sizes: &FEW_SIZES,
    orders: &SMALL_ORDERS,
    most_blocks: 20,
    most_objects: 20,
    kinds: &[
        (Kind::Read, 450),
        (Kind::Write, 450),
        (Kind::Take, 40),
        (Kind::Give, 20),
        (Kind::Alloc, 25),
        (Kind::Free, 15),
    ],
};

/// Odd lines, and all commands except `reset`.
pub const MIXED: Load = Load {
    config: SMALL,
    granted: 30,
    sizes: &FEW_SIZES,
    orders: &SMALL_ORDERS,
    most_blocks: 40,
    most_objects: 150,
    kinds: &[
        (Kind::Alloc, 200),
        (Kind::Free, 150),
        (Kind::Take, 250),
        (Kind::Give, 180),
        (Kind::Read, 70),
        (Kind::Write, 70),
        (Kind::Cache, 8),
        (Kind::Destroy, 10),
        (Kind::Reap, 6),
        (Kind::Report, 12),
        (Kind::Move, 2),
        (Kind::TakeBack, 10),
        (Kind::Pool, 2),
        (Kind::Odd, 20),
    ],
};

/// A machine that is nearly full. Many requests are refused, empty slabs are freed on demand, and the administrator moves
/// superblocks, resets tenants and requests the table of owners.
pub const CROWDED: Load = Load {
    config: CROWDED_MACHINE,
    granted: 252,
    sizes: &KERNEL_SIZES,
    orders: &ALL_ORDERS,
    most_blocks: 2000,
    most_objects: 4000,
    kinds: &[
        (Kind::Alloc, 1600),
        (Kind::Free, 800),
        (Kind::Take, 1400),
        (Kind::Give, 650),
        (Kind::Read, 200),
        (Kind::Write, 100),
        (Kind::Cache, 25),
        (Kind::Destroy, 25),
        (Kind::Reap, 15),
        (Kind::Report, 50),
        (Kind::Move, 3),
        (Kind::TakeBack, 10),
        (Kind::Reset, 1),
        (Kind::Pool, 5),
        (Kind::Odd, 100),
    ],
};
