//! A block of frames.

ghost use Rattle.std.specs.Prelude.{◌≡◌, ◌+◌, ◌*◌, ◌^◌, ◌≤◌, ◌<◌};
ghost use Rattle.model_core.specs.declared.limits.TheConstants.{FRAME_BYTES, MAX_ORDER};
ghost use Rattle.model_core.specs.Blocks.{block, around, slot_block};
ghost use Rattle.model_core.specs.Operations.{overlaps};
ghost use Rattle.model_core.specs.Reach.{within_block};

use model_core::limits::FRAME_BYTES;
use std::marker::Model;

/// A block of `2^order` consecutive frames of a tenant. The order is at most 8.
#[derive(Clone, Copy, Debug)]
pub struct FrameBlock {
    first: u32,
    order: u8,
}

impl Model for FrameBlock {
    ghost use Rattle.std.specs.Prelude.{◌≤◌};
    ghost use Rattle.model_core.specs.Blocks.{Block, block};
    ghost use Rattle.model_core.specs.declared.limits.TheConstants.{MAX_ORDER};

    ghost Value = { Block };

    ghost view = { λ b. block b.first b.order };

    ghost invariant = { λ b. b.order ≤ MAX_ORDER };

    ghost inverse = { λ b. record { first = b.first; order = b.order } };
}

impl FrameBlock {
    /// Returns the block of `2^order` frames that begins at frame `first`.
    pub fn new(first: u32, order: u8) -> FrameBlock
        requires { order ≤ MAX_ORDER }
        ensures { result ≡ block first order }
    {
        FrameBlock { first, order }
    }

    /// Returns the aligned block of this order that contains the frame.
    pub fn around(frame: u32, order: u8) -> FrameBlock
        requires { order ≤ MAX_ORDER }
        ensures { result ≡ around frame order }
    {
        let frames = 1u32 << order;
        FrameBlock {
            first: frame / frames * frames,
            order,
        }
    }

    /// Returns the aligned block with this order and number. It begins at frame `number * 2^order`.
    pub fn numbered(number: u32, order: u8) -> FrameBlock
        requires number { number < 2 ^ 24 }
        requires order { order ≤ MAX_ORDER }
        ensures { result ≡ block (number * 2 ^ order) order }
    {
        FrameBlock {
            first: number * (1u32 << order),
            order,
        }
    }

    /// Returns the block of all frames of a slot of `2^order` frames.
    pub fn of_slot(order: u8, slot: u16) -> FrameBlock
        requires { order ≤ MAX_ORDER }
        ensures { result ≡ slot_block order slot }
    {
        FrameBlock {
            first: u32::from(slot) * (1u32 << order),
            order,
        }
    }

    /// Returns the first frame.
    pub fn first(&self) -> u32
        ensures { result ≡ self.now.first }
    {
        self.first
    }

    /// Returns the order. The block has `2^order` frames.
    pub fn order(&self) -> u8
        ensures value { result ≡ self.now.order }
        ensures most { result ≤ MAX_ORDER }
    {
        self.order
    }

    /// Returns the frame after the last one.
    pub(crate) fn end(&self) -> u64
        ensures value { result ≡ self.now.first + 2 ^ self.now.order }
        ensures small { result < 2 ^ 33 }
    {
        u64::from(self.first) + (1u64 << self.order)
    }

    /// Returns the place of the first byte.
    pub fn first_byte(&self) -> u64
        ensures value { result ≡ FRAME_BYTES * self.now.first }
        ensures small { result < 2 ^ 44 }
    {
        u64::from(FRAME_BYTES) * u64::from(self.first)
    }

    /// Returns the place after the last byte.
    pub fn end_byte(&self) -> u64
        ensures value { result ≡ FRAME_BYTES * (self.now.first + 2 ^ self.now.order) }
        ensures small { result < 2 ^ 45 }
    {
        u64::from(FRAME_BYTES) * self.end()
    }

    /// Returns whether the blocks share a frame.
    pub fn overlaps(&self, other: &FrameBlock) -> bool
        ensures { result ≡ overlaps self.now other.now }
    {
        u64::from(self.first()) < other.end() && u64::from(other.first()) < self.end()
    }

    /// Returns whether the `len` bytes that begin at `place` lie in the block.
    pub fn has_range(&self, place: u32, len: u32) -> bool
        ensures { result ≡ within_block place len self.now }
    {
        let place = u64::from(place);
        self.first_byte() <= place && place + u64::from(len) <= self.end_byte()
    }
}
