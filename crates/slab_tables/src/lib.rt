//! The tables of all tenants' slab caches (Bonwick, "The Slab Allocator", USENIX Summer 1994): the caches, their slabs with
//! their kinds, and the numbers of live objects.
//!
//! The tables do not access the memory of slabs. A slab is identified by its first machine frame, or by its first frame in its
//! tenant's numbering. A slab of small objects records in its own frame which objects are live. For a slab of large objects the
//! tables have this record.
//!
//! Only [`Tables::new`] allocates.
#![tactic(auto)]

mod cache;
mod groups;
mod kind;
mod list;
mod places;
mod tables;

pub use cache::{Cache, Kept};
pub use kind::Kind;
pub use list::ListId;
pub use tables::Tables;
