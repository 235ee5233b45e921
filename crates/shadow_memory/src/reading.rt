//! The bytes that a read may report. The read lies in one holder: a page block or an object.

ghost use Rattle.std.specs.Prelude.{◌≡◌, ℕ, ◌+◌, ◌^◌, ◌<◌, ◌≤◌, true, length, option_map};
ghost use Rattle.std.specs.Option.{option_copied};
ghost use Rattle.promise_core.specs.Holdings.{Holdings};
ghost use Rattle.promise_core.specs.Bytes.{may_all_be, may_be, known_fresh_byte};
ghost use Rattle.known_holdings.specs.Holders.{shown_holder, shown_cell};
ghost use Rattle.shadow_memory.specs.Left.{left_at, has_place};
ghost use Rattle.shadow_memory.specs.Inside.{AreFrom, cache_of};

use crate::kept::KeptByte;
use crate::left::ShadowMemory;
use known_holdings::{Held, HeldCache, LeftByte, RangeHolder};

impl ShadowMemory {
    /// Returns whether a read in this holder that begins at `place` may report these bytes. All of their places must be in slots
    /// that the tenant holds.
    pub fn may_read(&self, held: &Held, holder: RangeHolder, place: u32, bytes: &[u8]) -> bool
        requires { (j : ℕ) → j < length bytes.now → has_place self.now (place + j) ≡ true }
        ensures { result ≡ may_all_be held.now (left_at self.now) (shown_holder holder) place bytes.now }
    {
        self.places_are_low();
        self.may_read_all(held, holder, place, bytes)
    }

    // Not inlined, so that its loop can use all registers.
    #[inline(never)]
    fn may_read_all(&self, held: &Held, holder: RangeHolder, place: u32, bytes: &[u8]) -> bool
        requires { place + length bytes.now ≤ 2 ^ 32 }
        ensures { result ≡ may_all_be held.now (left_at self.now) (shown_holder holder) place bytes.now }
    {
        let cache = cache_of(held, holder);
        // `kept` usually covers all of the bytes, since a page block or an object lies in one slot.
        let kept = self.kept_from(place);
        for (i, byte) in bytes.iter().enumerate() {
            let left = self.left_behind(kept, place, i as u32);
            if !may_be_read(holder, cache, place + i as u32, left, *byte) {
                return false;
            }
        }
        true
    }

    /// Returns what was left `i` places after `place`. `kept` has the stored bytes that begin at `place`.
    fn left_behind(&self, kept: &[KeptByte], place: u32, i: u32) -> Option<LeftByte>
        requires kept { AreFrom self.now place kept.now }
        requires low { place + i < 2 ^ 32 }
        ensures { option_map shown_cell result ≡ left_at self.now (place + i) }
    {
        match kept.get(i as usize) {
            Some(kept) => kept.left(),
            None => self.at(place + i),
        }
    }
}

/// Returns the cache of the holder, if the holder is an object and the cache exists.
fn cache_of(held: &Held, holder: RangeHolder) -> Option<&HeldCache>
    ensures { option_copied result ≡ cache_of held.now (shown_holder holder) }
{
    match holder {
        RangeHolder::Page => None,
        RangeHolder::Object { cache, .. } => held.cache(cache.into()),
    }
}

/// Returns whether a read in this holder may report `byte` at a place where `left` was left. `cache` is the holder's cache, if
/// the holder is an object.
fn may_be_read(
    holder: RangeHolder,
    cache: Option<&HeldCache>,
    place: u32,
    left: Option<LeftByte>,
    byte: u8,
) -> bool
    ensures { (h : Holdings) → option_copied cache.entry ≡ cache_of h (shown_holder holder)
        → result ≡ may_be (shown_holder holder) (known_fresh_byte h (shown_holder holder) place) (option_map shown_cell left)
        byte }
{
    match left {
        Some(left) if is_left(holder, left, byte) => true,
        Some(_) => holder.may_have(fresh_byte(holder, cache, place), left, byte),
        None => byte == fresh_byte(holder, cache, place),
    }
}

/// Returns whether `left` is `byte` and was left by this holder. If so, a read may report the byte, and the fresh byte is not
/// needed.
fn is_left(holder: RangeHolder, left: LeftByte, byte: u8) -> bool
    ensures { (fresh : ℕ) → result ≡ true → may_be (shown_holder holder) fresh (Some (shown_cell left)) byte ≡ true }
{
    left.holder.is_same(&holder) && byte == left.byte
}

/// Returns the byte that fresh memory has at a place of this holder. `cache` is the holder's cache, if the holder is an object.
fn fresh_byte(holder: RangeHolder, cache: Option<&HeldCache>, place: u32) -> u8
    ensures { (h : Holdings) → option_copied cache.entry ≡ cache_of h (shown_holder holder)
        → result ≡ known_fresh_byte h (shown_holder holder) place }
{
    match holder {
        RangeHolder::Page => 0,
        RangeHolder::Object { first, .. } => match cache {
            Some(cache) => cache.fresh_byte(place.saturating_sub(first)),
            None => 0,
        },
    }
}
