//! The private machine of one tenant: the definitions of its memory, its buddy system and its slab caches (`specs/`), which
//! contracts cite, and the laws about them.
#![tactic(auto)]

pub mod block_laws;
pub mod config;
pub mod laws;
pub mod limits;
pub mod owner;
pub mod refusals;
pub mod report;
