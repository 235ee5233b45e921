//! The first faulty lines of a trace.

ghost use Rattle.std.specs.Prelude.{◌≡◌};
ghost use Rattle.run_notes.specs.Notes.{faulty_line};

use arrayvec::ArrayVec;
use std::fmt;
use words_core::LineFault;

/// The largest number of faulty lines that are noted.
pub(crate) const MAX_FAULTS: usize = 10;

/// The largest number of bytes that are noted for each faulty line.
const MAX_SHOWN: usize = 32;

/// A faulty line: its number, counted from 1, its fault, and its first 32 bytes.
#[derive(Debug, Drop)]
pub struct FaultyLine {
    number: u64,
    fault: LineFault,
    begin: ArrayVec<u8, MAX_SHOWN>,
}

impl Default for FaultyLine {
    fn default() -> FaultyLine {
        FaultyLine::new(0, LineFault::Long, b"")
    }
}

impl FaultyLine {
    pub(crate) fn new(number: u64, fault: LineFault, line: &[u8]) -> FaultyLine
        ensures { result ≡ faulty_line number fault line.now }
    {
        let mut begin = ArrayVec::new();
        let shown = MAX_SHOWN.min(line.len());
        let taken = begin.try_extend_from_slice(&line[..shown]);
        prove!(taken.is_ok());
        FaultyLine {
            number,
            fault,
            begin,
        }
    }

    /// Returns the text that explains the fault.
    fn expected(&self) -> &'static str {
        match self.fault {
            LineFault::Long => "a line has at most 255 bytes",
            LineFault::Unknown => "no such actor, or no such command of it; see --help",
            LineFault::Words => "the command has another number of words; see --help",
            LineFault::Number => "a number has 1 to 10 digits and is at most 4294967295",
            LineFault::Hex =>
                "bytes are two hex digits each, 1 to 64 of them, 1 to 16 of a pattern",
        }
    }
}

impl fmt::Display for FaultyLine {
    fn fmt<W: fmt::Write>(&self, f: &mut fmt::Formatter<W>) -> fmt::Result {
        let number = self.number;
        write!(f, "line {number}: '")?;
        for byte in self.begin.as_slice() {
            let shown = if (b' '..=b'~').contains(byte) {
                *byte
            } else {
                b'?'
            };
            write!(f, "{}", char::from(shown))?;
        }
        let expected = self.expected();
        write!(f, "': {expected}")
    }
}
