//! Tests across the libraries: traces on new machines with their output, feeds and drains that fail, pairs of worlds, the types
//! and fixed values of public functions, and the examples at the roots of crates.
#![tactic(auto)]

#[cfg(test)]
mod built_traces;
#[cfg(test)]
mod command_lines;
#[cfg(test)]
mod failing_at_each_call;
#[cfg(test)]
mod failing_ends;
#[cfg(test)]
mod kernel_parts;
#[cfg(test)]
mod layouts;
#[cfg(test)]
mod line_limit;
#[cfg(test)]
mod machine_memory;
#[cfg(test)]
mod pairs_of_worlds;
pub mod pieces;
#[cfg(test)]
mod public_types;
#[cfg(test)]
mod root_examples;
#[cfg(test)]
mod running;
#[cfg(test)]
mod short_lines;
#[cfg(test)]
mod tables;
#[cfg(test)]
mod worked_traces;
