//! The stored state of a cache and of a slab.

ghost use Rattle.std.specs.Prelude.{◌≡◌};

use layout_core::{Layout, Pattern};

/// A cache: the layout of its slabs, the pattern of its constructed objects, and the count that gives its next slab's colour.
#[derive(Clone, Copy, Debug)]
pub struct Cache {
    pub layout: Layout,
    pub pattern: Pattern,
    /// The number of slabs that the cache has made, modulo the number of colours of its layout.
    pub made: u32,
}

/// The state of a slab, except for its first frame and the number of the list that contains it. `SlabLists` stores these two.
#[derive(Clone, Copy, Debug)]
pub struct Kept {
    /// The offset of the slab's first object, in bytes.
    pub colour: u32,
    /// The number of live objects in the slab.
    pub live: u16,
    /// For a slab of large objects, one bit for each of its at most 16 objects: 1 if the object is live. The lowest bit is for
    /// object 0.
    pub outside: u16,
}

impl Cache {
    ghost use Rattle.slab_tables.specs.Changes.{fresh_kept};

    /// Returns the state of the slab that the cache makes next.
    pub(crate) fn next_slab(&self) -> Kept
        ensures { result ≡ fresh_kept self.now }
    {
        self.layout.laws();
        let colour = self.layout.align() * (self.made % self.layout.colours());
        Kept {
            colour,
            live: 0,
            outside: 0,
        }
    }
}
