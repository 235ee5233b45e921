//! Stores what a tenant of any page and object allocator has according to the replies, and computes the tests that
//! [`promise_core`] defines for the promises.
#![tactic(auto)]

mod block;
mod cache;
mod held;
mod holder;
mod holdings;
mod layout;
mod rising;
mod vacancy;

pub use block::FrameBlock;
pub use cache::{HeldCache, copy_of};
pub use held::{Held, is_marked};
pub use holder::{LeftByte, RangeHolder};
pub use layout::KnownLayout;
