//! The storage in which C keeps a machine.

ghost use Rattle.std.specs.Prelude.{◌≡◌, is_some, IsSome, IfSome, Some, None};

use crate::kernel_cell::KernelCell;
use crate::raw_box::RawBox;
use kernel_core::Kernel;
use std::alloc::Global;
use std::mem::replace;

/// The storage in which C keeps a machine. It is all zero while it holds no machine. Clauses call the machine's kernel
/// `cell.held`.
#[repr(C)]
pub struct MachineStorage {
    is_booted: bool,
    pub cell: KernelCell,
    ghost agrees: { is_booted ≡ is_some cell.held },
}

impl MachineStorage {
    ghost use Rattle.std.specs.Borrow.{sem};
    ghost use Rattle.partmem_c.specs.Borrowing.{LendsKernel};

    /// Returns true if the storage holds a machine.
    pub fn is_booted(&self) -> bool
        ensures { result ≡ is_some self.now.cell.held }
    {
        self.is_booted
    }

    /// Borrows the kernel where it lies. Returns `None` if the storage holds no machine.
    #[inline(always)]
    pub fn kernel(&mut self) -> Option<&mut Kernel>
        ensures* writes_back { sem 𝓛 (LendsKernel self.entry result) }
        ensures none { result ≡ None → self.old.cell.held ≡ None }
        ensures value { IfSome result (λ k. self.old.cell.held ≡ Some k.now) }
    {
        if !self.is_booted {
            return None;
        }
        Some(self.cell.kernel())
    }

    /// Stores a kernel. The storage must not hold a machine.
    pub fn put_in(&mut self, kernel: Box<Kernel>)
        requires { self.old.cell.held ≡ None }
        ensures { self.new.cell.held ≡ Some kernel.value }
    {
        let vacant = replace(&mut self.cell, KernelCell::park(RawBox::of(kernel)));
        self.is_booted = true;
        vacant.discard();
    }

    /// Takes the kernel out. The storage then holds no machine.
    pub fn take_out(&mut self, alloc: Global) -> Box<Kernel>
        requires { IsSome self.old.cell.held }
        ensures held { self.old.cell.held ≡ Some result.value }
        ensures vacant { self.new.cell.held ≡ None }
    {
        let cell = replace(&mut self.cell, KernelCell::vacant());
        self.is_booted = false;
        cell.unpark(alloc).into_box()
    }
}
