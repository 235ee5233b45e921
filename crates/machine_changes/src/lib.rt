//! Laws about the memory, the buddy systems and the tables of caches together. The laws call these three the parts. The
//! definitions say which private machine the parts show for a tenant. Some laws say what each change of objects, slabs, page
//! blocks, bytes or slots does to that machine, and that all other tenants keep everything they have. The other laws say what
//! follows about the machine from the parts.
//!
//! The laws are in `specs/`, and their proofs are in `proofs/`. The proofs of the crates that depend on this one use the laws.
//! This crate has no code.
#![tactic(auto)]
