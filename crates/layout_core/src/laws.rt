//! The laws of every layout. Each is the contract of an empty function, to be called where a proof needs the law.
ghost use Rattle.model_core.specs.Layouts.{LayoutsFit};
ghost use Rattle.layout_core.specs.Laws.{EverySizeHasAnOrder, OffsetsApart, FewObjects};

/// For each accepted size and alignment, at each colour offset, a slab has 1 to 256 objects. All begin at multiples of the
/// alignment and end within the slab. A chunk has at least 16 bytes and at least as many as an object. A slab has at most 8
/// frames. If the chunks are small, it has one frame, and the objects end before the frame's last 32 bytes.
pub fn layouts_fit()
    ensures { LayoutsFit }
{}

/// For each accepted size and alignment, the order of a slab is 0 to 3. It is 0 for small chunks, else the least order that
/// leaves at most an eighth of the slab unused.
pub fn every_size_has_an_order()
    ensures { EverySizeHasAnOrder }
{}

/// No two objects of a slab share a byte.
pub fn objects_apart()
    ensures { OffsetsApart }
{}

/// A slab has at most 254 objects if its chunks are small, which means less than 512 bytes. Otherwise it has at most 16.
pub fn few_objects()
    ensures { FewObjects }
{}
