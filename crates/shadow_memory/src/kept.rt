//! The stored form of a byte that was left at a place.

ghost use Rattle.std.specs.Prelude.{◌≡◌, Some, option_map};
ghost use Rattle.known_holdings.specs.Holders.{shown_cell};
ghost use Rattle.shadow_memory.specs.Inside.{shown_kept};

use known_holdings::{LeftByte, RangeHolder};
use std::mem::size_of;

/// What was left at a place, if anything was.
#[derive(Clone, Copy, Debug)]
pub(crate) enum KeptByte {
    /// Nothing was left.
    Fresh,
    /// A byte of a page block.
    Page {
        byte: u8,
        sure: bool,
    },
    /// A byte of the object of cache number `cache` that begins at the place `first`.
    Object {
        cache: u8,
        byte: u8,
        sure: bool,
        first: u32,
    },
}

// There is one `KeptByte` for each byte of a slot, so its size matters.
const _: () = prove!(size_of::<KeptByte>() == 8);

impl KeptByte {
    /// Returns the stored form of a left byte.
    pub fn of(left: LeftByte) -> KeptByte
        ensures { shown_kept result ≡ Some (shown_cell left) }
    {
        match left.holder {
            RangeHolder::Page => KeptByte::Page {
                byte: left.byte,
                sure: left.sure,
            },
            RangeHolder::Object { cache, first } => KeptByte::Object {
                cache,
                byte: left.byte,
                sure: left.sure,
                first,
            },
        }
    }

    /// Returns the left byte, or `None` if nothing was left.
    pub fn left(self) -> Option<LeftByte>
        ensures { option_map shown_cell result ≡ shown_kept self }
    {
        match self {
            KeptByte::Fresh => None,
            KeptByte::Page { byte, sure } => Some(LeftByte {
                holder: RangeHolder::Page,
                byte,
                sure,
            }),
            KeptByte::Object {
                cache,
                byte,
                sure,
                first,
            } => Some(LeftByte {
                holder: RangeHolder::Object { cache, first },
                byte,
                sure,
            }),
        }
    }
}
