//! The layout of slabs, and the byte patterns of constructed objects (Bonwick, "The Slab Allocator", USENIX Summer 1994). The
//! sizes and limits are this project's own.
#![tactic(auto)]

pub mod laws;
mod layout;
mod pattern;

pub use layout::{Layout, LayoutRefusal};
pub use pattern::Pattern;
