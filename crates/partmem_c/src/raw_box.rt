//! A box, taken apart into its pointer and the handle of its allocator. The pointer and the handle together own the value.
//!
//! A `#[repr(C)]` struct can hold the pointer, but not the box.

ghost use Rattle.std.specs.Prelude.{◌≡◌};
ghost use Rattle.std_alloc.specs.Box.Ownership.{box_owns};

use std::alloc::Allocator;
use std::marker::Model;

/// The pointer of a box, and the handle of the allocator that frees the memory of the box. Clauses call the value at the pointer
/// `value`.
///
/// It is not `Drop`, so it cannot be dropped as a whole. A caller that takes it apart into its fields, or forgets the box that
/// `into_box` makes, leaks the value and its memory. No contract excludes that.
pub struct RawBox<T, A: Allocator> {
    pub at: *mut T,
    pub alloc: A,
    pub ghost value: { T },
}

impl<T, A: Allocator> Model for RawBox<T, A> {
    ghost also_owns = { λ b. box_owns (A.dealloc_token b.alloc) T.row b.at b.value };
}

impl<T: Drop, A: Allocator> RawBox<T, A> {
    /// Takes a box apart.
    pub fn of(value: Box<T, A>) -> RawBox<T, A>
        ensures { result.value ≡ value.value }
    {
        let (at, alloc) = Box::into_raw_with_allocator(value);
        RawBox { at, alloc }
    }

    /// Returns the box of this pointer and handle.
    pub fn into_box(self) -> Box<T, A>
        ensures { result.value ≡ self.value }
    {
        let RawBox { at, alloc } = self;
        unsafe { Box::from_raw(alloc, at) }
    }
}
