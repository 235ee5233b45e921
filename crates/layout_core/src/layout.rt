ghost use Rattle.std.specs.Prelude.{◌≡◌, ℕ, ◌+◌, ◌-◌, ◌*◌, ◌/◌, ◌%◌, ◌<◌, ◌≤◌, true, IsTrue, MatchOption};
ghost use Rattle.model_core.specs.Layouts.{is_size, is_alignment, is_small, object_offset, IsLayout};
ghost use Rattle.model_core.specs.Layouts.{chunk_of as model_chunk_of, is_thrifty as model_is_thrifty, slab_order as model_slab_order, usable_bytes as model_usable_bytes};
ghost use Rattle.layout_core.specs.Inside.{reciprocal_of as model_reciprocal_of};
ghost use Rattle.layout_core.specs.Cut.{Cut, cut, numbers_of, layout_or_refusal};
ghost use Rattle.layout_core.specs.Objects.{IsColour, Begins, Holds, IsOnly};

use model_core::limits::{FRAME_BYTES, MAX_SIZE, RECORD_OFFSET};
use std::marker::Model;

/// Why a size and an alignment have no layout.
#[derive(Clone, Copy, Debug, PartialEq, Eq)]
pub enum LayoutRefusal {
    /// The size is 0 or above 4096 bytes.
    BadSize,
    /// The alignment is not 8, 16, 32, 64, 128 or 256 bytes.
    BadAlign,
}

/// Chunks of fewer bytes than this are small.
const SMALL: u32 = 512;

/// How the slabs of a cache are cut into objects: the size and alignment of an object, and the numbers that follow from them. The
/// size, the alignment and the chunk are in bytes. A layout takes 24 bytes, since the alignment and the order share four.
#[derive(Clone, Copy, Debug)]
pub struct Layout {
    size: u32,
    align: u16,
    order: u8,
    chunk: u32,
    count: u32,
    colours: u32,
    /// `2^32 / chunk`, rounded down, plus 1. Multiplying by it takes less time than dividing by the chunk.
    reciprocal: u32,
}

impl Model for Layout {
    ghost use Rattle.layout_core.specs.Cut.{Cut, numbers_of};
    ghost use Rattle.layout_core.specs.Inside.{AreLayoutFields, reciprocal_of};

    ghost Value = { Cut };

    ghost view = { λ l. record { size = l.size; align = l.align } };

    ghost invariant = { λ l. AreLayoutFields l.size l.align l.chunk l.order l.count l.colours l.reciprocal };

    ghost inverse = { λ l. record { size = l.size; align = l.align; chunk = (numbers_of l).chunk; order = (numbers_of l).order; count = (numbers_of l).count; colours = (numbers_of l).colours; reciprocal = reciprocal_of (numbers_of l).chunk } };
}

impl Layout {
    /// Returns the layout for objects of `size` bytes, 1 to 4096, at multiples of `align` bytes: 8, 16, 32, 64, 128 or 256.
    /// Returns `BadSize` for any other size, else `BadAlign` for any other alignment.
    pub fn of(size: u32, align: u32) -> Result<Layout, LayoutRefusal>
        ensures { result ≡ layout_or_refusal size align }
    {
        if size == 0 || size > MAX_SIZE {
            return Err(LayoutRefusal::BadSize);
        }
        if !matches!(align, 8 | 16 | 32 | 64 | 128 | 256) {
            return Err(LayoutRefusal::BadAlign);
        }
        let chunk = chunk_of(size, align);
        let order = slab_order(chunk);
        let usable = usable_bytes(chunk, order);
        let count = usable / chunk;
        let colours = (usable - count * chunk) / align + 1;
        Ok(Layout {
            size,
            align: align as u16,
            chunk,
            order,
            count,
            colours,
            reciprocal: reciprocal_of(chunk),
        })
    }

    /// Returns the size of an object, in bytes, 1 to 4096.
    pub fn size(&self) -> u32
        ensures { result ≡ self.now.size }
    {
        self.size
    }

    /// Returns the alignment of objects, in bytes: 8, 16, 32, 64, 128 or 256. Each object begins at a multiple of it.
    pub fn align(&self) -> u32
        ensures { result ≡ self.now.align }
    {
        self.align.into()
    }

    /// Returns the order of a slab, 0 to 3. A slab has `2^order` frames.
    pub fn order(&self) -> u8
        ensures { result ≡ (numbers_of self.now).order }
    {
        self.order
    }

    /// Returns the number of bytes from the beginning of one object to the beginning of the next, at least 16.
    pub fn chunk(&self) -> u32
        ensures { result ≡ (numbers_of self.now).chunk }
    {
        self.chunk
    }

    /// Returns the number of objects in a slab, 1 to 254.
    pub fn count(&self) -> u32
        ensures { result ≡ (numbers_of self.now).count }
    {
        self.count
    }

    /// Returns the number of colour offsets, at least 1. They are the first multiples of the alignment, beginning with 0.
    pub fn colours(&self) -> u32
        ensures { result ≡ (numbers_of self.now).colours }
    {
        self.colours
    }

    /// Returns true if the chunks are small: less than 512 bytes. A slab is then one frame, with its control record in the last
    /// 32 bytes.
    pub fn in_page(&self) -> bool
        ensures { result ≡ is_small (numbers_of self.now).chunk }
    {
        self.chunk < SMALL
    }

    /// States a law and does nothing. The size and the alignment of every layout are accepted. At each colour offset the objects
    /// end within the slab, and if the chunks are small, before its control record.
    pub fn laws(&self)
        ensures fits { IsLayout self.now.size self.now.align (numbers_of self.now) }
        ensures size { is_size self.now.size ≡ true }
        ensures align { is_alignment self.now.align ≡ true }
    {
        let _ = &self.size;
    }

    /// Returns the offset of object `i` in a slab with this colour offset. Offsets are in bytes. `colour` has to be a colour
    /// offset of the layout, and `i` less than the count.
    pub fn offset(&self, colour: u32, i: u32) -> u32
        requires colour { IsColour self.now colour }
        requires object { i < (numbers_of self.now).count }
        ensures { result ≡ object_offset (numbers_of self.now) colour i }
    {
        colour + i * self.chunk
    }

    /// Returns the index of the object that begins at this offset of a slab with this colour offset. Returns `None` if no object
    /// begins there. Offsets are in bytes.
    pub fn index_of(&self, colour: u32, offset: u32) -> Option<u32>
        ensures { MatchOption result ((i : ℕ) → ¬ Begins self.now colour offset i) (IsOnly (Begins self.now colour offset)) }
    {
        let from = offset.checked_sub(colour)?;
        let chunk = self.chunk;
        let index = self.chunk_at(from)?;
        if index * chunk == from {
            Some(index)
        } else {
            None
        }
    }

    /// Returns the index of the object that contains the `len` bytes that begin at this offset, in a slab with this colour
    /// offset. Returns `None` if no object does. No object contains a range of 0 bytes.
    pub fn holder(&self, colour: u32, offset: u32, len: u32) -> Option<u32>
        ensures { MatchOption result ((i : ℕ) → ¬ Holds self.now colour offset len i) (IsOnly (Holds self.now colour offset len)) }
    {
        let from = offset.checked_sub(colour)?;
        let chunk = self.chunk;
        let index = self.chunk_at(from)?;
        let inside = from - index * chunk;
        if 0 < len && len <= self.size && inside <= self.size - len {
            Some(index)
        } else {
            None
        }
    }

    /// Returns the index of the chunk that contains byte `from`, or `None` if the byte is after the last chunk. Chunks and bytes
    /// are counted from the beginning of the slab's first object. A slab has at most 32,768 bytes, so multiplying by the
    /// reciprocal finds the same chunk as dividing.
    #[inline(always)]
    fn chunk_at(&self, from: u32) -> Option<u32>
        ensures { MatchOption result ((numbers_of self.now).count ≤ from / (numbers_of self.now).chunk)
            (λ i. (i < (numbers_of self.now).count) × (i ≡ from / (numbers_of self.now).chunk)) }
    {
        let index = (u64::from(from) * u64::from(self.reciprocal) >> 32) as u32;
        if index < self.count {
            Some(index)
        } else {
            None
        }
    }
}

/// Returns the size rounded up to a multiple of the alignment, and at least 16. All are in bytes.
fn chunk_of(size: u32, align: u32) -> u32
    requires size { is_size size ≡ true }
    requires align { is_alignment align ≡ true }
    ensures { result ≡ model_chunk_of size align }
{
    ((size + align - 1) / align * align).max(16)
}

/// Returns `2^32 / chunk`, rounded down, plus 1.
fn reciprocal_of(chunk: u32) -> u32
    requires { 16 ≤ chunk }
    ensures { result ≡ model_reciprocal_of chunk }
{
    ((1 << 32) / u64::from(chunk) + 1) as u32
}

/// Returns true if chunks of this size leave at most an eighth of a slab of `2^order` frames unused.
fn is_thrifty(chunk: u32, order: u8) -> bool
    requires chunk { 0 < chunk }
    requires order { order ≤ 3 }
    ensures { result ≡ model_is_thrifty chunk order }
{
    let bytes = FRAME_BYTES << order;
    bytes % chunk <= bytes / 8
}

/// Returns the order of a slab: 0 for small chunks, else the least order that leaves at most an eighth of the slab unused.
fn slab_order(chunk: u32) -> u8
    requires { 0 < chunk }
    ensures order { result ≡ model_slab_order chunk }
    ensures few { result ≤ 3 }
{
    if chunk < SMALL || is_thrifty(chunk, 0) {
        0
    } else if is_thrifty(chunk, 1) {
        1
    } else if is_thrifty(chunk, 2) {
        2
    } else {
        3
    }
}

/// Returns the number of bytes of a slab that its objects and its colour offset may use.
fn usable_bytes(chunk: u32, order: u8) -> u32
    requires order { order ≡ model_slab_order chunk }
    requires few { order ≤ 3 }
    ensures { result ≡ model_usable_bytes chunk }
{
    if chunk < SMALL {
        RECORD_OFFSET
    } else {
        FRAME_BYTES << order
    }
}
