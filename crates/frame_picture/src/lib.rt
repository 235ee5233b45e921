//! The states of a machine's frames over the lines of a trace, and the part of them that a picture shows.
//!
//! A [`history::History`] has the kind of each frame at regular intervals of lines, in memory that is allocated once. A picture
//! has a band for each tenant. This crate computes the values that are drawn: the frames in each row of a band ([`grid`]), the
//! tone of each row in a column ([`drawing`]), the rectangles of equal tones ([`rectangles`]), and the values beside and below
//! the rows ([`stacks`]). `picture_svg` writes all these values as text.
#![tactic(auto)]

pub mod drawing;
pub mod grid;
pub mod history;
pub mod kinds;
mod owned;
pub mod rectangles;
mod showing;
pub mod stacks;
