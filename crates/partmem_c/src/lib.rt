//! The kernel as a static library for C. `partmem.h` in this crate declares the functions that the library exports.
//!
//! A C program keeps each machine in a [`machine_storage::MachineStorage`] of its own, which it sets to zeros before the boot.
//! Each command has a function that runs its event ([`events`]) and returns a [`status`]: see [`granting`], [`pages`],
//! [`objects`] and [`bytes`]. If the function succeeds, the status is [`status::DONE`]; the comment of each function lists its
//! other statuses. [`lends`] lends bytes in place; [`lookups`], [`holders`], [`figures`] and [`owners`] look things up.
//!
//! An exported function tests for every mistake of the C caller that does not itself break memory. After an error or a refusal,
//! the machine is unchanged and the results are zeros, except that buffers stay unchanged. [`events::partmem_event`] and
//! [`lines::partmem_line`] report a refusal as a reply, with the status [`status::DONE`]. After an error, the reply of
//! `partmem_event` stays unchanged too. Whatever numbers C passes, an exported function writes only to the machine and to its
//! results.
#![tactic(auto)]

pub mod booting;
pub mod bytes;
mod calls;
pub mod events;
pub mod figures;
pub mod granting;
pub mod holders;
mod kernel_cell;
pub mod kinds;
pub mod laws;
pub mod lends;
pub mod lent;
pub mod lines;
pub mod lookups;
pub mod machine_storage;
pub mod objects;
pub mod owners;
pub mod pages;
mod raw_box;
pub mod releases;
pub mod status;
pub mod telling;
