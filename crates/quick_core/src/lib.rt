//! The quick reader: reads the frequent lines in few instructions.
//!
//! It returns a request only if the grammar in `words_core` reads the line as exactly this request. All other lines are left to
//! `words_core`, so you can ignore this crate if you only want to know the rules.
#![tactic(auto)]

mod decode;
mod line_end;
mod number;
mod request;

pub use line_end::{CR_LF, LF};
pub use number::Number;
pub use request::{
    RequestLine, WINDOW, may_begin_request, read_ended_request, read_known_request, read_request,
    read_tenant,
};
