//! Boots a machine, and ends it.

ghost use Rattle.std.specs.Prelude.{◌≡◌, ◌≢◌, ◌↔◌, false, IsSome, IfSome, Some, None};
ghost use Rattle.model_core.specs.Booting.{is_wide};
ghost use Rattle.kernel_core.specs.Content.{opening_content};
ghost use Rattle.kernel_core.specs.Shows.{Shows};
ghost use Rattle.world_core.specs.World.{opening_world};
ghost use Rattle.partmem_c.specs.Events.{machine_status};
ghost use Rattle.partmem_c.specs.Booting.{config_of};

use crate::machine_storage::MachineStorage;
use crate::status::{BAD_CONFIG, DONE, HAS_MACHINE, NO_MACHINE, NO_MEMORY};
use kernel_core::{BootError, Config, Kernel};
use std::alloc::Global;

/// The sizes that C passes for a machine, which has at most 2^20 frames.
#[repr(C)]
#[derive(Clone, Copy, Debug)]
pub struct MachineConfig {
    /// The order of a superblock, 3 to 10. It has `2^order` frames.
    pub order: u32,
    /// The number of superblocks of the machine, 1 to 4,096.
    pub superblocks: u32,
    /// The number of tenants that share the machine, 1 to 255.
    pub tenants: u32,
}

/// Boots a machine in a storage that holds no machine. All memory of the machine reads as zero, and no superblock has an owner.
///
/// Fails with `HAS_MACHINE`, with `BAD_CONFIG`, or, if an allocation was refused, with `NO_MEMORY`. No later call allocates.
#[unsafe(no_mangle)]
pub extern "C" fn partmem_boot_kernel(
    alloc: Global,
    machine: &mut MachineStorage,
    config: &MachineConfig,
) -> u32
    ensures has_machine { (result ≡ HAS_MACHINE) ↔ IsSome machine.old.cell.held }
    ensures bad_config { (result ≡ BAD_CONFIG) ↔ ((machine.old.cell.held ≡ None) × (is_wide (config_of config.now) ≡ false)) }
    ensures no_memory { result ≢ DONE → result ≢ HAS_MACHINE → result ≢ BAD_CONFIG → result ≡ NO_MEMORY }
    ensures done { result ≡ DONE
        → machine.new.cell.held ≡ Some (opening_content config.now.order config.now.superblocks config.now.tenants) }
    ensures shows { result ≡ DONE
        → IfSome machine.new.cell.held (λ k. Shows k (opening_world config.now.superblocks config.now.tenants)) }
    ensures not_done { result ≢ DONE → machine.new.cell.held ≡ machine.old.cell.held }
{
    if machine.is_booted() {
        return HAS_MACHINE;
    }
    let config = Config {
        order: config.order,
        superblocks: config.superblocks,
        tenants: config.tenants,
    };
    let kernel = match Kernel::boot_wide(alloc, config) {
        Ok(kernel) => kernel,
        Err(BootError::BadConfig) => return BAD_CONFIG,
        Err(BootError::Memory) => return NO_MEMORY,
    };
    let Ok(kernel) = Box::new(alloc, kernel) else {
        return NO_MEMORY;
    };
    machine.put_in(kernel);
    DONE
}

/// Ends the machine and drops it, so that its memory is freed. The storage then holds no machine, and a new one can be booted
/// there. Fails with `NO_MACHINE`.
#[unsafe(no_mangle)]
pub extern "C" fn partmem_end_kernel(alloc: Global, machine: &mut MachineStorage) -> u32
    ensures status { result ≡ machine_status machine.old.cell.held }
    ensures vacant { machine.new.cell.held ≡ None }
{
    if !machine.is_booted() {
        return NO_MACHINE;
    }
    drop(machine.take_out(alloc));
    DONE
}
