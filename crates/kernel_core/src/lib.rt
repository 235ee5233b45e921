//! The kernel of a machine whose memory is shared by tenants.
//!
//! [`Kernel::step`] runs one event. It is proved to be a step of the world (`specs/`), which has the owner of each superblock and
//! a private machine for each tenant. The laws of whole runs, and of traces and replies as bytes, are in [`laws`]. They say that
//! a tenant gets the replies of its private machine, whatever the other tenants do.
//!
//! # Example
//!
//! ```
//! use kernel_core::{Config, Kernel};
//! use words_core::{Addressee, AdminCommand, Body, Command, Event, Refusal};
//!
//! let config = Config { order: 3, superblocks: 2, tenants: 2 };
//! let mut kernel = Kernel::boot(rt.alloc(), config)?;
//! let granted = kernel.step(&Event::Admin(AdminCommand::Grant { tenant: 0 }));
//! let answered = kernel.step(&Event::Tenant(0, Command::Alloc { order: 1 }));
//! let refused = kernel.step(&Event::Tenant(1, Command::Alloc { order: 1 }));
//! assert_eq!(rt; granted.body, Body::Granted { tenant: 0, slot: 0, superblock: 0 });
//! assert_eq!(rt; answered.body, Body::Frame(0));
//! assert_eq!(rt; refused.addressee, Addressee::Tenant(1));
//! assert_eq!(rt; refused.body, Body::Refused(Refusal::NoFrames));
//! ```
//!
//! A crate that calls the kernel like this has the line `NAME: kernel_core words_core` in `crates.txt`. `step` requires that the
//! pattern of a `cache` command has at least one byte, and that a `pool` goes to a machine of at most 256 superblocks, as every
//! machine is that [`Kernel::boot`] returns. It requires nothing of other commands.
#![tactic(auto)]

mod administrator;
mod caches;
mod frames;
mod holders;
mod kernel;
pub mod laws;
mod lending;
mod lookups;
mod pages;
mod releasing;
mod reporting;

pub use frames::FrameKind;
pub use holders::Holder;
pub use kernel::{BootError, Kernel};
pub use lending::Span;
pub use model_core::config::Config;
pub use reporting::BlockFigures;
