//! The pointer to the kernel of a machine, as C keeps it between two calls.

ghost use Rattle.std.specs.Prelude.{◌≡◌, IsSome, Option, Some, None};
ghost use Rattle.std.specs.Coded.{coded_option};
ghost use Rattle.kernel_core.specs.Content.{KernelContent};
ghost use Rattle.kernel_core.specs.contracts.kernel.Kernel.{the_row};
ghost use Rattle.partmem_c.specs.KernelCells.{cell_owns};

use crate::raw_box::RawBox;
use kernel_core::Kernel;
use std::alloc::Global;
use std::marker::Model;
use std::ptr::null_mut;

/// The pointer of a boxed kernel, or null if there is no machine. Clauses call the kernel at the pointer `held`.
///
/// C may hold a `KernelCell`, but not a box. A `KernelCell` is not `Drop`: outside this file, a kernel leaves it only by [`KernelCell::unpark`].
/// When a machine ends, the box of its kernel is dropped and not forgotten, but no clause says so.
#[repr(C)]
pub struct KernelCell {
    at: *mut u8,
    pub ghost held: { Option KernelContent } by { coded_option the_row.coded },
}

impl Model for KernelCell {
    ghost also_owns = { λ s. cell_owns s.at s.held };
}

unsafe impl Send for KernelCell {}

impl KernelCell {
    ghost use Rattle.std.specs.Borrow.{sem};
    ghost use Rattle.partmem_c.specs.Borrowing.{LendsHeld};

    /// Returns a `KernelCell` without a kernel.
    pub fn vacant() -> KernelCell
        ensures { result.held ≡ None }
    {
        KernelCell { at: null_mut() }
    }

    /// Returns a `KernelCell` that holds this kernel.
    pub fn park(kernel: RawBox<Kernel, Global>) -> KernelCell
        ensures { result.held ≡ Some kernel.value }
    {
        let RawBox { at, alloc: _ } = kernel;
        KernelCell { at: at as *mut u8 }
    }

    /// Returns the kernel of this `KernelCell`.
    pub fn unpark(self, alloc: Global) -> RawBox<Kernel, Global>
        requires { IsSome self.held }
        ensures { self.held ≡ Some result.value }
    {
        let KernelCell { at } = self;
        RawBox {
            at: at as *mut Kernel,
            alloc,
        }
    }

    /// Borrows the kernel where it lies. So a call neither moves the kernel nor writes the pointer.
    #[inline(always)]
    pub fn kernel(&mut self) -> &mut Kernel
        requires { IsSome self.old.held }
        ensures* writes_back { sem 𝓛 (LendsHeld self.entry result) }
        ensures value { self.old.held ≡ Some result.now }
    {
        unsafe { &mut *(self.at as *mut Kernel) }
    }

    /// Consumes a `KernelCell` without a kernel.
    pub fn discard(self)
        requires { self.held ≡ None }
    {
        let KernelCell { at: _ } = self;
    }
}
