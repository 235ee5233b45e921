//! The private machine, and so the kernel, keeps the promises.
#![tactic(auto)]

pub mod laws;
pub mod object_laws;
pub mod world_laws;
