//! Replays a trace on the kernel: bytes in, replies out, both in pieces of any length. The feed and the drain may fail at any
//! point.
//!
//! # Example
//!
//! ```
//! use kernel_core::{Config, Kernel};
//! use replay_core::{ReaderFeed, WriterDrain, replay};
//!
//! let config = Config { order: 3, superblocks: 2, tenants: 2 };
//! let mut kernel = Kernel::boot(rt.alloc(), config)?;
//! let mut feed = ReaderFeed::new(b"admin grant 0\n0 alloc 1\n".as_slice());
//! let mut replies = Vec::new(rt.alloc());
//! replay(&mut kernel, &mut feed, &mut WriterDrain::new(&mut replies), None)?;
//! let lines = b"admin> granted 0 slot 0 superblock 0\n0> frame 0\n";
//! assert_eq!(rt; replies.as_slice(), lines.as_slice());
//! ```
#![tactic(auto)]

mod answer_line;
mod answering;
mod engine;
mod notes;
mod pending;
mod quick;
mod replaying;
mod replies;
mod run;
mod sink;

pub use engine::{EndFailed, do_lines};
pub use notes::{NoNotes, Notes};
pub use pending::Pending;
pub use replaying::{replay, replay_noted};
pub use replies::push_all;
pub use sink::Sink;
pub use streams::{Drain, Feed, ReaderFeed, ReplayError, Stopped, Tally, Text, WriterDrain};
