//! The laws of whole runs, and of the world that a kernel shows. Each law is the contract of an empty function. A proof that
//! needs the law calls the function.

ghost use Rattle.kernel_core.specs.ActionLocks.{SameWorldAfterActions, SameOutcomesInAnyOrder, SameSightsInAnyOrder, ActionsBegunAsEnded};
ghost use Rattle.kernel_core.specs.Actions.{OwnSights, SameSights};
ghost use Rattle.kernel_core.specs.Holders.{OneHolder, ShownWellFormed};
ghost use Rattle.kernel_core.specs.Shows.{OneWorld};
ghost use Rattle.kernel_core.specs.Stores.{IsKernel, StoresAreWrites, LoadsAreOwn};

use crate::kernel::Kernel;
pub use model_core::block_laws::splits_and_joins;
pub use model_core::laws::{
    block_is_promised, bytes_stay, constructed_first, objects_apart, reaps_by_need,
    stays_well_formed, taken_is_sound,
};
pub use words_core::one_case;
pub use world_core::laws::{
    entries_are_operations, more_caches, nobody_starves, non_interference, own_lines,
    own_lists_are_requests, own_run, own_shown, reached_machines, reached_objects, shown_stays,
    side_by_side,
};

/// A kernel shows at most one world. So what the contract of `step` says about each world that the kernel shows holds for the
/// world that `boot` and the steps since then have made.
pub fn one_world()
    ensures { OneWorld }
{}

/// A law: the parts of every kernel agree, and the invariants of each part hold. The laws of stores and actions require this.
/// The call does nothing.
pub fn is_kernel(kernel: &Kernel)
    ensures { IsKernel kernel.now }
{
    kernel.laws();
}

/// At every moment, the machine that a kernel shows for one of its tenants is well formed. So the laws of well formed machines hold
/// for it, such as [`objects_apart`] and [`one_holder`].
pub fn shown_well_formed()
    ensures { ShownWellFormed }
{}

/// In a well formed machine, exactly one live page block or live object has a byte that is in reach, and none has a byte that is
/// not in reach.
pub fn one_holder()
    ensures { OneHolder }
{}

/// If only bytes inside one live page block or one live object of a tenant change, the tenant's `write` of these bytes makes the
/// same change, and its reply is that all of them were written. This holds even if there are more bytes than a `write` can have.
/// The kernel keeps its invariants.
pub fn stores_are_writes()
    ensures { StoresAreWrites }
{}

/// A byte that is loaded from inside a live page block or a live object of a tenant is the byte that the tenant's private machine
/// has there.
pub fn loads_are_own()
    ensures { LoadsAreOwn }
{}

/// In any list of events, stores, loads and lookups by place after boot, a tenant gets the replies, loads the bytes and finds the
/// blocks and objects that its private machine gives for the tenant's own list. Afterwards the kernel shows for the tenant the
/// machine that this list leaves. So if the tenant's own lists on two machines of the same order are equal, the tenant sees the
/// same on both, whatever their numbers of superblocks and tenants. The other tenants may do anything.
pub fn own_sights()
    ensures own { OwnSights }
    ensures same { SameSights }
{}

/// An event needs the locks that [`side_by_side`] says. A store, a load and a lookup by place need the lock of their tenant. Suppose
/// that two kernels show the same world, that a list of actions is done with each, and that for each lock both lists attempt the
/// same actions that need it, in the same order. Then the kernels show the same world afterwards, under each lock the same actions
/// have the same outcomes, and each tenant sees the same. If each action holds its locks from its beginning to its end, the order
/// in which the actions begin and the order in which they end are two such lists.
pub fn actions_side_by_side()
    ensures world { SameWorldAfterActions }
    ensures outcomes { SameOutcomesInAnyOrder }
    ensures sights { SameSightsInAnyOrder }
    ensures overlaps { ActionsBegunAsEnded }
{}
