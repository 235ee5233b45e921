//! The picture of a machine's frames over a trace, as SVG text.
//!
//! A [`picture::Picture`] draws a history: for each tenant a band of its frames over the lines of the trace. `frame_picture`
//! computes the values that are drawn; `svg` writes each of them at its position.
#![tactic(auto)]

pub mod picture;
mod svg;
