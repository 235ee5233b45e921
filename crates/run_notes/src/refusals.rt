//! Refusals, each with the number of times that it was shown.

use std::fmt;
use words_core::Refusal;

/// The highest number of a refusal. Refusals are numbered from 1.
pub const MAX_NUMBER: u8 = 15;

/// A refusal, and the number of times that it was shown.
#[derive(Clone, Copy, Debug)]
pub struct Refused {
    pub(crate) refusal: Refusal,
    pub(crate) times: u64,
}

impl fmt::Display for Refused {
    fn fmt<W: fmt::Write>(&self, f: &mut fmt::Formatter<W>) -> fmt::Result {
        let number = self.refusal.number();
        let name = self.refusal.name();
        let times = self.times;
        write!(f, "refused {number} {name}: {times}")
    }
}
