//! Shadow memory: for each place of a tenant's slots, the byte that was left there, its holder, and whether the byte is surely
//! still there. It decides which bytes a read may report.
#![tactic(auto)]

mod change;
mod holder_predicates;
mod kept;
mod left;
mod ranges;
mod reading;
mod slot;
mod slots;
mod summary;

pub use left::ShadowMemory;
