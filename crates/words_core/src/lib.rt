//! The language of traces: what a line means, and the text of a reply.
//!
//! [`read_line`] reads one line as an [`Event`], as nothing, or as a [`LineFault`]; [`write_line`]
//! writes one line of a [`Reply`]. A [`Request`] is a tenant's command that borrows its bytes. An
//! [`Answer`] is the body of a one-line reply as a small value, and [`write_answer`] writes it. No
//! function of this crate allocates.
//!
//! # Example
//!
//! ```
//! use arrayvec::ArrayVec;
//! use words_core::{Addressee, Body, Command, Event, Reply, read_line, write_line};
//!
//! let event = read_line(b"0 alloc 2")?;
//! assert_eq!(rt; event, Some(Event::Tenant(0, Command::Alloc { order: 2 })));
//! let reply = Reply { addressee: Addressee::Tenant(0), body: Body::Frame(4) };
//! let mut line = ArrayVec::new();
//! write_line(&reply, 0, &mut line);
//! assert_eq!(rt; line.as_slice(), b"0> frame 4\n".as_slice());
//! ```
#![tactic(auto)]

mod answer;
mod commands;
mod event;
mod hex_digits;
mod laws;
mod line;
mod numbers;
mod refusals;
mod reply;
mod report;
mod text;
mod window;
mod words;

pub use answer::{Answer, MAX_ANSWER_BYTES, SHORT_ANSWER_BYTES, write_answer, write_answer_to};
pub use event::{AdminCommand, Command, Event, LineFault, Request};
pub use laws::one_case;
pub use line::{MAX_LINE_BYTES, read_line};
pub use reply::{Addressee, Body, OWNERS, REFUSALS, Refusal, Reply};
pub use report::{CACHES, ORDERS, Report};
pub use text::{MAX_REPLY_BYTES, MAX_ROWS, TABLE_ROWS, Table, rows, write_line, write_row};
