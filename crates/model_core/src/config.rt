//! The sizes of a machine.

ghost use Rattle.std.specs.Prelude.{◌≡◌};

use crate::limits::{
    MAX_ORDER, MAX_SUPERBLOCKS, MAX_TENANTS, MIN_ORDER, WIDE_FRAMES, WIDE_ORDER, WIDE_SUPERBLOCKS,
    WIDE_TENANTS,
};

/// The sizes of a machine. The ranges are those of a machine that reads traces; `Config::is_wide` has the wider ones.
#[derive(Clone, Copy, Debug, PartialEq, Eq)]
pub struct Config {
    /// The order of a superblock, 3 to 8. A superblock has `2^order` frames.
    pub order: u32,
    /// The number of superblocks of the machine, 1 to 256.
    pub superblocks: u32,
    /// The number of tenants that share the machine, 1 to 64.
    pub tenants: u32,
}

impl Config {
    ghost use Rattle.model_core.specs.Booting.{is_bootable, is_wide};

    /// Returns true if every number is in its range.
    pub fn is_bootable(&self) -> bool
        ensures { result ≡ is_bootable self.now }
    {
        (u32::from(MIN_ORDER)..=u32::from(MAX_ORDER)).contains(&self.order)
            && (1..=u32::from(MAX_SUPERBLOCKS)).contains(&self.superblocks)
            && (1..=u32::from(MAX_TENANTS)).contains(&self.tenants)
    }
    /// Returns true if every number is in the wider range of a machine that is called directly: order 3 to 10, 1 to 4,096
    /// superblocks, 1 to 255 tenants, and at most 2^20 frames, which are 4 GiB.
    pub fn is_wide(&self) -> bool
        ensures { result ≡ is_wide self.now }
    {
        (u32::from(MIN_ORDER)..=u32::from(WIDE_ORDER)).contains(&self.order)
            && (1..=u32::from(WIDE_SUPERBLOCKS)).contains(&self.superblocks)
            && (1..=u32::from(WIDE_TENANTS)).contains(&self.tenants)
            && self.superblocks << self.order <= WIDE_FRAMES
    }
}
