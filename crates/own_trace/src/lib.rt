//! Copies the lines of a trace that make a tenant's own list: the tenant's commands, and the grants, take-backs and resets that
//! name the tenant. A refused grant or take-back is not in the list, so the trace is run to find out what is refused.
#![tactic(auto)]

mod keeping;
pub mod laws;
mod quick;

pub use keeping::{KeepError, keep};
