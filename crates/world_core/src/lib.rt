//! Definitions of the world of all tenants, and the laws of its whole runs.
//!
//! `specs/` defines the owner of each superblock, the reply to each event and its effect on each private machine, the part of a
//! run that concerns one tenant, and the output for the bytes of a trace. The laws, in [`laws`], are about these definitions
//! alone, so they hold for any program that answers the events as defined.
#![tactic(auto)]

pub mod laws;
