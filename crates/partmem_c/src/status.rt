//! The statuses that the functions for C return. Refusals have the numbers of the trace format, 1 to 15; errors have numbers from
//! 32 on. Two are not here, since only functions in C return them: 35 (`PARTMEM_BAD_MEMORY`, from `partmem_boot_in` and
//! `partmem_heap_init`) and 38 (`PARTMEM_NOT_HELD`, from `partmem_find_place`).

/// The call was done.
pub const DONE: u32 = 0;

/// There is no machine: either none was booted yet, or the last one has ended.
pub const NO_MACHINE: u32 = 32;

/// There is already a machine. It is unchanged.
pub const HAS_MACHINE: u32 = 33;

/// A number of the configuration is out of its range.
pub const BAD_CONFIG: u32 = 34;

/// The boot failed, because the memory for the machine could not be allocated.
pub const NO_MEMORY: u32 = 36;

/// The machine has no superblock with the number that the call passes.
pub const NO_SUPERBLOCK: u32 = 37;

/// The line contains a line feed.
pub const NOT_A_LINE: u32 = 39;

/// There is no event of this kind, or the call has too few or too many bytes for this kind.
pub const NOT_AN_EVENT: u32 = 40;

/// The buffer is smaller than the function requires.
pub const BUFFER_TOO_SMALL: u32 = 41;
