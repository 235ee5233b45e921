//! What a line requests: events and their commands, a borrowed form of a command, and the faults of a line.

ghost use Rattle.std.specs.Prelude.{◌≡◌, ◌≤◌, length};

use arrayvec::ArrayVec;
use model_core::limits::{MAX_BYTES, MAX_PATTERN};

/// What a line requests, unless it is faulty, blank or a comment.
#[derive(Debug, Drop, PartialEq, Eq)]
pub enum Event {
    /// A command of the administrator.
    Admin(AdminCommand),
    /// A command of the tenant with this number. The tenant need not exist.
    Tenant(u32, Command),
}

/// A command of the administrator. The tenant that it names need not exist.
#[derive(Debug, Drop, PartialEq, Eq)]
pub enum AdminCommand {
    /// `admin grant T`: gives the tenant a superblock.
    Grant { tenant: u32 },
    /// `admin takeback T SLOT`: takes back the superblock in this slot of the tenant.
    TakeBack { tenant: u32, slot: u32 },
    /// `admin reset T`: takes back everything that the tenant has.
    Reset { tenant: u32 },
    /// `admin move T SLOT`: moves this slot of the tenant to another superblock.
    Move { tenant: u32, slot: u32 },
    /// `admin pool`: lists the owner of each superblock.
    Pool,
}

/// A command of a tenant. Its arguments are as written in the line, and may be out of range.
#[derive(Debug, Drop, PartialEq, Eq)]
pub enum Command {
    /// `T alloc K`: allocates a page block of order K, which has `2^K` frames.
    Alloc {
        order: u32,
    },
    /// `T free FRAME`: frees the page block that begins at this frame of the tenant.
    Free {
        frame: u32,
    },
    /// `T read PLACE LEN`: reads the `len` bytes that begin at the tenant's place `place`.
    Read {
        place: u32,
        len: u32,
    },
    /// `T write PLACE HEX`: writes 1 to 64 bytes to the range that begins at the tenant's place `place`.
    Write {
        place: u32,
        bytes: ArrayVec<u8, MAX_BYTES>,
    },
    /// `T cache SIZE ALIGN HEX`: makes a cache of objects of `size` bytes, each at a multiple of `align`
    /// bytes. A constructed object is filled with the pattern of 1 to 16 bytes, repeated.
    Cache {
        size: u32,
        align: u32,
        pattern: ArrayVec<u8, MAX_PATTERN>,
    },
    /// `T destroy C`: destroys the cache with this number.
    Destroy {
        cache: u32,
    },
    /// `T take C`: takes an object of the cache.
    Take {
        cache: u32,
    },
    /// `T give C PLACE`: gives back the cache's object that begins at the tenant's place `place`.
    Give {
        cache: u32,
        place: u32,
    },
    /// `T reap`: frees the empty slabs of all caches.
    Reap,
    /// `T report`: reports the figures of the tenant's memory.
    Report,
}

/// A [`Command`] other than a report, in a form that borrows its bytes.
#[derive(Clone, Copy, Debug)]
pub enum Request<'a> {
    Alloc {
        order: u32,
    },
    Free {
        frame: u32,
    },
    Read {
        place: u32,
        len: u32,
    },
    Write {
        place: u32,
        bytes: &'a [u8],
    },
    Cache {
        size: u32,
        align: u32,
        pattern: &'a [u8],
    },
    Destroy {
        cache: u32,
    },
    Take {
        cache: u32,
    },
    Give {
        cache: u32,
        place: u32,
    },
    Reap,
}

impl Command {
    ghost use Rattle.std.specs.Prelude.{IfSome, MatchOption};
    ghost use Rattle.words_core.specs.declared.event.Command.TheVariants.{Report};
    ghost use Rattle.words_core.specs.Requests.{command_of, AsksPattern, IsAskable};

    /// Returns the command as a [`Request`] that borrows it, or `None` for a report.
    pub fn request(&self) -> Option<Request<'_>>
        ensures same { MatchOption result (self.now ≡ Report) (λ request. command_of request ≡ self.now) }
        ensures askable { IfSome result (λ request. AsksPattern self.now → IsAskable request) }
    {
        match self {
            Command::Alloc { order } => Some(Request::Alloc { order: *order }),
            Command::Free { frame } => Some(Request::Free { frame: *frame }),
            Command::Read { place, len } => Some(Request::Read {
                place: *place,
                len: *len,
            }),
            Command::Write { place, bytes } => Some(Request::Write {
                place: *place,
                bytes: bytes.as_slice(),
            }),
            Command::Cache {
                size,
                align,
                pattern,
            } => Some(Request::Cache {
                size: *size,
                align: *align,
                pattern: pattern.as_slice(),
            }),
            Command::Destroy { cache } => Some(Request::Destroy { cache: *cache }),
            Command::Take { cache } => Some(Request::Take { cache: *cache }),
            Command::Give { cache, place } => Some(Request::Give {
                cache: *cache,
                place: *place,
            }),
            Command::Reap => Some(Request::Reap),
            Command::Report => None,
        }
    }
}

/// Why a line cannot be run.
#[derive(Clone, Copy, Debug, PartialEq, Eq)]
pub enum LineFault {
    /// The line has more than 255 bytes.
    Long,
    /// The first word is not `admin` and does not begin with a digit, or the second word is not a command of the actor.
    Unknown,
    /// The line has no command, or the command takes a different number of arguments.
    Words,
    /// An argument is not a number, or the first word begins with a digit and is not a number.
    Number,
    /// An argument is not bytes in hex, or has more bytes than the command takes.
    Hex,
}

impl LineFault {
    ghost use Rattle.words_core.specs.Texts.{name_of_fault};

    /// Returns the name of the fault, as it is written in a reply.
    pub fn name(&self) -> &'static str
        ensures value { result.now ≡ name_of_fault self.now }
        ensures short { length result.now ≤ 7 }
    {
        match self {
            LineFault::Long => "Long",
            LineFault::Unknown => "Unknown",
            LineFault::Words => "Words",
            LineFault::Number => "Number",
            LineFault::Hex => "Hex",
        }
    }
}
