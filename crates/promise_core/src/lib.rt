//! What every page and object allocator of a partitioning kernel owes its tenants under any policy: twelve promises, as
//! definitions, and the laws that follow from them alone, in [`laws`].
//!
//! `specs/` defines what is known after the events and replies so far, and which replies to the next event keep each promise. It
//! mentions no program, so the replies of any program can be judged.
#![tactic(auto)]

pub mod laws;
pub mod promise;
