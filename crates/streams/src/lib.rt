//! Feeds, which give a trace in pieces, and drains, which take its replies in pieces. A [`Feed`] is a source: [`ReaderFeed`]
//! reads from one of std's readers, and [`LineLimit`] limits how many line feeds an inner feed gives. A [`Drain`] is a sink:
//! [`WriterDrain`] writes to one of std's writers. Only line feeds have a meaning here; other bytes are not interpreted.
#![tactic(auto)]

mod drain;
mod feed;
mod held;
mod line_limit;
mod lines;
mod reader_feed;
mod tally;
mod writer_drain;

pub use drain::{Drain, TEXT_BYTES, Text};
pub use feed::{Feed, Stopped};
pub use line_limit::LineLimit;
pub use lines::line_end;
pub use reader_feed::ReaderFeed;
pub use tally::{ReplayError, Tally};
pub use writer_drain::WriterDrain;
