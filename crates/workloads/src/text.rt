//! Writes the text of lines.

ghost use Rattle.std.specs.Prelude.{◌≤◌};
ghost use Rattle.workloads.specs.declared.text.TheConstants.{ROOM};

use words_core::Request;

/// The size of the buffer of a line in bytes. It is enough for any line.
const ROOM: usize = 192;

static HEX: [u8; 16] = *b"0123456789abcdef";

/// A line that is being written.
#[derive(Debug, Drop)]
pub struct Line {
    bytes: [u8; ROOM],
    len: usize,
    ghost within: { len ≤ ROOM },
}

impl Line {
    /// Returns an empty line.
    pub fn new() -> Line {
        let bytes = [0; ROOM];
        Line { bytes, len: 0 }
    }

    /// Returns the bytes of the line.
    pub fn text(&self) -> &[u8] {
        &self.bytes[..self.len]
    }

    /// Begins a new line with a tenant's number.
    pub fn begin(&mut self, tenant: u32) {
        self.len = 0;
        self.number(tenant);
    }

    /// Appends a byte, if there is space for it.
    #[inline(always)]
    fn byte(&mut self, byte: u8) {
        if self.len < ROOM {
            self.bytes[self.len] = byte;
            self.len += 1;
        }
    }

    /// Appends a word. The caller includes the blanks that separate it from other words.
    #[inline(always)]
    pub fn word(&mut self, word: &[u8]) {
        for byte in word {
            self.byte(*byte);
        }
    }

    /// Appends a number.
    #[inline(always)]
    pub fn number(&mut self, number: u32) {
        let mut digits = [b'0'; 10];
        let mut rest = number;
        let mut first = 9usize;
        for at in (0..10usize).rev() {
            digits[at] = b'0' + (rest % 10) as u8;
            rest /= 10;
            first = at;
            if rest == 0 {
                break;
            }
        }
        for digit in digits.iter().skip(first) {
            self.byte(*digit);
        }
    }

    /// Appends bytes in hex.
    fn hex(&mut self, bytes: &[u8]) {
        for byte in bytes {
            self.byte(HEX[(byte >> 4) as usize]);
            self.byte(HEX[(byte & 15) as usize]);
        }
    }

    /// Writes the line of a tenant's request.
    pub fn request(&mut self, tenant: u32, request: &Request<'_>) {
        self.begin(tenant);
        match request {
            Request::Alloc { order } => {
                self.word(b" alloc ");
                self.number(*order);
            }
            Request::Free { frame } => {
                self.word(b" free ");
                self.number(*frame);
            }
            Request::Take { cache } => {
                self.word(b" take ");
                self.number(*cache);
            }
            Request::Give { cache, place } => {
                self.word(b" give ");
                self.number(*cache);
                self.byte(b' ');
                self.number(*place);
            }
            rare => self.rare_request(rare),
        }
        self.byte(b'\n');
    }

    /// Appends a rare request: the part of its line after the tenant's number.
    fn rare_request(&mut self, request: &Request<'_>) {
        match request {
            Request::Read { place, len } => {
                self.word(b" read ");
                self.number(*place);
                self.byte(b' ');
                self.number(*len);
            }
            Request::Write { place, bytes } => {
                self.word(b" write ");
                self.number(*place);
                self.byte(b' ');
                self.hex(bytes);
            }
            Request::Cache {
                size,
                align,
                pattern,
            } => {
                self.word(b" cache ");
                self.number(*size);
                self.byte(b' ');
                self.number(*align);
                self.byte(b' ');
                self.hex(pattern);
            }
            Request::Destroy { cache } => {
                self.word(b" destroy ");
                self.number(*cache);
            }
            _ => self.word(b" reap"),
        }
    }

    /// Writes the line of a command of the administrator: the command's word, and its numbers.
    pub fn admin(&mut self, word: &[u8], numbers: &[u32]) {
        self.len = 0;
        self.word(b"admin ");
        self.word(word);
        for number in numbers {
            self.byte(b' ');
            self.number(*number);
        }
        self.byte(b'\n');
    }
}
