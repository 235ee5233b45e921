//! A reply: its addressee and its body.

ghost use Rattle.std.specs.Prelude.{◌≡◌, ◌≤◌, length};

use crate::event::LineFault;
use crate::report::Report;
use arrayvec::ArrayVec;
use model_core::limits::{MAX_BYTES, MAX_SUPERBLOCKS};
use model_core::owner::Owner;

/// Capacity of a list of the owners of all superblocks. A machine of more superblocks is listed by a [`Table`](crate::Table).
pub const OWNERS: usize = MAX_SUPERBLOCKS as usize;

/// The reply to an event or to a faulty line.
#[derive(Debug, Drop, PartialEq, Eq)]
pub struct Reply {
    pub addressee: Addressee,
    pub body: Body,
}

/// The addressee of a reply. Each line of the reply begins with it.
#[derive(Clone, Copy, Debug, PartialEq, Eq)]
pub enum Addressee {
    /// The administrator.
    Admin,
    /// Nobody in particular: the line was faulty, or was a command of a tenant that does not exist.
    Nobody,
    /// The tenant with this number.
    Tenant(u8),
}

/// The body of a reply.
#[derive(Debug, Drop, PartialEq, Eq)]
pub enum Body {
    /// The tenant got this superblock in this slot.
    Granted {
        tenant: u8,
        slot: u16,
        superblock: u16,
    },
    /// This superblock was taken back.
    TakenBack(u16),
    /// The tenant was reset and gave up this number of superblocks.
    WasReset {
        tenant: u8,
        superblocks: u16,
    },
    /// This slot of the tenant was moved to this superblock.
    Moved {
        tenant: u8,
        slot: u16,
        superblock: u16,
    },
    /// For each superblock, in ascending order, its owner if it has one.
    Owners(ArrayVec<Option<Owner>, OWNERS>),
    /// The first frame of a new page block.
    Frame(u32),
    /// The order of the freed page block, which had `2^order` frames.
    Freed(u8),
    /// The 1 to 64 bytes that were read.
    Bytes(ArrayVec<u8, MAX_BYTES>),
    /// The number of bytes written, 1 to 64.
    Written(u32),
    /// The number of a new cache, and its layout: the number of bytes from one object to the next, the
    /// order of a slab's block, the number of objects in a slab, and the number of colour offsets.
    Cache {
        cache: u8,
        chunk: u32,
        order: u8,
        objects: u32,
        colours: u32,
    },
    /// The cache was destroyed, which freed this number of frames.
    Destroyed(u32),
    /// The place of the object that was taken, that is, the number of its first byte.
    Object(u32),
    /// The object was given back.
    Given,
    /// The empty slabs were freed; they had this number of frames.
    Reaped(u32),
    /// The figures of the tenant's memory.
    Report(Report),
    /// The command was refused and changed nothing.
    Refused(Refusal),
    /// The line is faulty.
    Fault(LineFault),
}

/// Why a command was refused. A reply has both the number and the name of the refusal.
#[derive(Clone, Copy, Debug, PartialEq, Eq)]
pub enum Refusal {
    /// No free block of the tenant is large enough for the page block, or for the new slab that an object needs. Even if all
    /// empty slabs of the tenant were freed, none would be.
    NoFrames = 1,
    /// The order is above the order of a superblock.
    BadOrder,
    /// No page block of the tenant begins at the frame.
    NotABlock,
    /// The range is not inside one live page block or one live object.
    OutOfReach,
    /// The read is of 0 bytes, or of more than 64.
    BadLength,
    /// The size is 0, or above 4096.
    BadSize,
    /// The alignment is not 8, 16, 32, 64, 128 or 256.
    BadAlign,
    /// The tenant already has 32 caches, the most that it may have.
    NoCacheSlot,
    /// The tenant has no cache with that number.
    NoCache,
    /// An object of the cache is live.
    CacheInUse,
    /// The place is not the first byte of a live object of that cache.
    NotAnObject,
    /// There is no tenant with that number.
    NoTenant,
    /// Every superblock has an owner.
    PoolEmpty,
    /// The tenant does not hold that slot.
    NoSlot,
    /// A frame of the slot is taken, by a page block or by a slab.
    SlotBusy,
}

/// All refusals, in the order of their numbers. The first has number 1.
pub const REFUSALS: [Refusal; 15] = [
    Refusal::NoFrames,
    Refusal::BadOrder,
    Refusal::NotABlock,
    Refusal::OutOfReach,
    Refusal::BadLength,
    Refusal::BadSize,
    Refusal::BadAlign,
    Refusal::NoCacheSlot,
    Refusal::NoCache,
    Refusal::CacheInUse,
    Refusal::NotAnObject,
    Refusal::NoTenant,
    Refusal::PoolEmpty,
    Refusal::NoSlot,
    Refusal::SlotBusy,
];

impl Refusal {
    ghost use Rattle.words_core.specs.Texts.{number_of_refusal, name_of_refusal};

    /// Returns the number of the refusal, 1 to 15.
    pub fn number(&self) -> u8
        ensures { result ≡ number_of_refusal self.now }
    {
        *self as u8
    }

    /// Returns the name of the refusal, as it is written after its number.
    pub fn name(&self) -> &'static str
        ensures value { result.now ≡ name_of_refusal self.now }
        ensures short { length result.now ≤ 11 }
    {
        match self {
            Refusal::NoFrames => "NoFrames",
            Refusal::BadOrder => "BadOrder",
            Refusal::NotABlock => "NotABlock",
            Refusal::OutOfReach => "OutOfReach",
            Refusal::BadLength => "BadLength",
            Refusal::BadSize => "BadSize",
            Refusal::BadAlign => "BadAlign",
            Refusal::NoCacheSlot => "NoCacheSlot",
            Refusal::NoCache => "NoCache",
            Refusal::CacheInUse => "CacheInUse",
            Refusal::NotAnObject => "NotAnObject",
            Refusal::NoTenant => "NoTenant",
            Refusal::PoolEmpty => "PoolEmpty",
            Refusal::NoSlot => "NoSlot",
            Refusal::SlotBusy => "SlotBusy",
        }
    }
}
