//! The laws of lists of calls. Each is the contract of a function that changes nothing.

ghost use Rattle.std.specs.Prelude.{◌≡◌, IfSome};
ghost use Rattle.kernel_core.specs.Stores.{IsKernel};
ghost use Rattle.partmem_c.specs.Actions.{OwnSightsOfCalls};
ghost use Rattle.partmem_c.specs.CallLocks.{SameCallsInAnyOrder};
ghost use Rattle.partmem_c.specs.Calls.{OffsetsAreRefused};
ghost use Rattle.partmem_c.specs.Laws.{StandsAfterCalls, OwnLinesOfCalls, SameLinesOfCalls, MayChangeThreads};

use crate::machine_storage::MachineStorage;
use std::alloc::Global;
use world_core::laws;

/// If only `partmem_line` is called on a machine, and each call has status `DONE`, the lines are a trace, and the kernel is then
/// in the state after this trace. From boot on, the reply lines for a tenant are those of its private machine, run on the
/// tenant's own list. So if the tenant's own lists on two machines of the same order are equal, both write the same reply lines
/// for it, whatever their numbers of superblocks and tenants. The other tenants may do anything.
pub fn own_lines()
    ensures stands { StandsAfterCalls }
    ensures lines { OwnLinesOfCalls }
    ensures same { SameLinesOfCalls }
{
    laws::own_lines();
    laws::non_interference();
}

/// From boot on, each of these is an action: a line with an event, a call of `partmem_event`, a direct call, a lookup by place
/// (`partmem_find_object`, `partmem_find_block` and the three lends), a call of the kernel, and a store or load in place. For any
/// list of actions, a tenant sees what its private machine returns for the tenant's own list, whatever the other tenants do.
pub fn own_sights()
    ensures { OwnSightsOfCalls }
{
    kernel_core::laws::own_sights();
}

/// An event needs the lock of the tenant that it names, and a command of the administrator also needs the administrator's lock. A
/// lookup by place, a store and a load need the lock of their tenant. Suppose that two kernels show the same world, that a list of
/// lines, events, calls, lookups, stores and loads is done with each, and that for each lock both lists attempt the same actions that
/// need it, in the same order. Then both are lists of actions, which have the same outcomes under each lock. Each tenant sees the
/// same, and afterwards the kernels show the same world.
pub fn calls_side_by_side()
    ensures { SameCallsInAnyOrder }
{
    kernel_core::laws::actions_side_by_side();
}

/// A [`crate::pages::partmem_free`] by an existing tenant at a place that is not a multiple of 4096 is refused with
/// `NOT_A_BLOCK`.
pub fn offsets_are_refused()
    ensures { OffsetsAreRefused }
{}

/// If C holds a kernel between two calls, all invariants of the kernel are true. This function changes nothing.
pub fn is_kernel(alloc: Global, machine: &mut MachineStorage)
    ensures kernel { IfSome machine.old.cell.held (λ k. IsKernel k) }
    ensures same { machine.new.cell.held ≡ machine.old.cell.held }
{
    let Some(kernel) = machine.kernel() else {
        return;
    };
    kernel_core::laws::is_kernel(kernel);
}

/// The machine that C holds between two calls may be passed to another thread. The caller must hold the locks that a call needs.
pub fn may_change_threads()
    ensures { MayChangeThreads }
{}
