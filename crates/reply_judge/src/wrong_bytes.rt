//! The first byte of a read that may not be at its place.

ghost use Rattle.std.specs.Prelude.{◌≡◌, ◌+◌, ◌^◌, ◌≤◌, length, option_map};
ghost use Rattle.promise_core.specs.Bytes.{known_fresh_byte};
ghost use Rattle.known_holdings.specs.Holders.{shown_cell, shown_holder};
ghost use Rattle.shadow_memory.specs.Left.{left_at};
ghost use Rattle.reply_judge.specs.WrongBytes.{bytes_due, wrong_at, wrong_byte, wrong_from};

use crate::tenant::Tenant;
use known_holdings::{LeftByte, RangeHolder};

/// A byte of a read that may not be at its place.
#[derive(Clone, Copy, Debug)]
pub struct WrongByte {
    /// The place of the byte.
    pub place: u32,
    /// The byte that was read.
    pub byte: u8,
    /// The byte that has to be there.
    pub due: u8,
    /// If `due` is in doubt, the fresh byte, which may be there too.
    pub or_fresh: Option<u8>,
}

impl Tenant {
    /// Returns the first wrong byte of a read of `len` bytes that begins at `place`. Returns `None` if no byte is wrong, or if no
    /// holder has all of these bytes.
    #[tactic(auto, unfolding(crate::specs::WrongBytes::wrong_byte))]
    pub(crate) fn wrong_byte(&self, place: u32, len: u32, bytes: &[u8]) -> Option<WrongByte>
        ensures { result ≡ wrong_byte self.now.has (left_at self.now.left) place len bytes.now }
    {
        if u64::from(place) + bytes.len() as u64 > 1u64 << 32 {
            return None;
        }
        match self.held.holder_of(place, len) {
            Some(holder) => self.first_wrong(holder, place, bytes),
            None => None,
        }
    }

    /// Returns the first wrong one of these bytes of the holder, which begin at `place`.
    #[tactic(auto, using(crate::proofs::WrongBytesInTurn::next_wrong, crate::proofs::WrongBytesInTurn::next_right))]
    fn first_wrong(&self, holder: RangeHolder, place: u32, bytes: &[u8]) -> Option<WrongByte>
        requires { place + length bytes.now ≤ 2 ^ 32 }
        ensures { result ≡ wrong_from self.now.has (left_at self.now.left) (shown_holder holder) place bytes.now }
    {
        for (i, byte) in bytes.iter().enumerate() {
            if let Some(wrong) = self.wrong_at(holder, place + i as u32, *byte) {
                return Some(wrong);
            }
        }
        None
    }

    /// Returns the byte at the place, with the bytes that are due there, if the holder may not have it there.
    #[tactic(auto, unfolding(crate::specs::WrongBytes::wrong_at))]
    fn wrong_at(&self, holder: RangeHolder, place: u32, byte: u8) -> Option<WrongByte>
        ensures { result ≡ wrong_at self.now.has (left_at self.now.left) (shown_holder holder) place byte }
    {
        let left = self.left.at(place);
        let fresh = self.fresh_at(holder, place);
        if holder.may_have(fresh, left, byte) {
            return None;
        }
        let (due, or_fresh) = bytes_due(holder, fresh, left);
        Some(WrongByte {
            place,
            byte,
            due,
            or_fresh,
        })
    }

    /// Returns the byte that a fresh holder has at the place.
    fn fresh_at(&self, holder: RangeHolder, place: u32) -> u8
        ensures { result ≡ known_fresh_byte self.now.has (shown_holder holder) place }
    {
        match holder {
            RangeHolder::Page => 0,
            RangeHolder::Object { cache, first } => match self.held.cache(cache.into()) {
                Some(cache) => cache.fresh_byte(place.saturating_sub(first)),
                None => 0,
            },
        }
    }
}

/// Returns the byte that the holder has to have where `left` was left, and the fresh byte if it may be there too.
fn bytes_due(holder: RangeHolder, fresh: u8, left: Option<LeftByte>) -> (u8, Option<u8>)
    ensures { result ≡ bytes_due (shown_holder holder) fresh (option_map shown_cell left) }
{
    match left {
        Some(left) => {
            if !left.holder.is_same(&holder) {
                (fresh, None)
            } else if left.sure {
                (left.byte, None)
            } else {
                (left.byte, Some(fresh))
            }
        }
        None => (fresh, None),
    }
}
