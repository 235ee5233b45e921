//! The holder of a range of bytes, and the bytes that may be read there.

ghost use Rattle.std.specs.Prelude.{◌≡◌, ◌==◌, ◌&&◌, option_map};
ghost use Rattle.promise_core.specs.Bytes.{is_same, is_object, may_be};
ghost use Rattle.known_holdings.specs.Holders.{shown_holder, shown_cell};

/// The holder of a range of bytes: a live page block, or a live object.
#[derive(Clone, Copy, Debug, PartialEq, Eq)]
pub enum RangeHolder {
    /// A page block.
    Page,
    /// The object of cache number `cache` that begins at the place `first`.
    Object { cache: u8, first: u32 },
}

/// A byte that was left at a place: its holder, its value, and whether it is surely still there.
#[derive(Clone, Copy, Debug)]
pub struct LeftByte {
    pub holder: RangeHolder,
    pub byte: u8,
    pub sure: bool,
}

impl RangeHolder {
    /// Returns whether both holders are page blocks, or both are the same object.
    pub fn is_same(&self, other: &RangeHolder) -> bool
        ensures { result ≡ is_same (shown_holder self.now) (shown_holder other.now) }
    {
        match *self {
            RangeHolder::Page => match *other {
                RangeHolder::Page => true,
                RangeHolder::Object { .. } => false,
            },
            RangeHolder::Object { cache, first } => other.is_object(cache, first),
        }
    }

    /// Returns whether the holder is the object of this cache at this place.
    fn is_object(&self, number: u8, place: u32) -> bool
        ensures { result ≡ is_object (λ n p. n == number && p == place) (shown_holder self.now) }
    {
        match *self {
            RangeHolder::Page => false,
            RangeHolder::Object { cache, first } => cache == number && first == place,
        }
    }

    /// Returns whether a read of a place in this holder may return `byte`. `left` is the byte that was left at the place, if any,
    /// and `fresh` is the byte that a fresh holder has there.
    pub fn may_have(&self, fresh: u8, left: Option<LeftByte>, byte: u8) -> bool
        ensures { result ≡ may_be (shown_holder self.now) fresh (option_map shown_cell left) byte }
    {
        match left {
            Some(left) => {
                if left.holder.is_same(self) {
                    byte == left.byte || (!left.sure && byte == fresh)
                } else {
                    byte == fresh
                }
            }
            None => byte == fresh,
        }
    }
}
