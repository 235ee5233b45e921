//! Lines that the quick reader, `quick_core`, must read. The proofs say that each line that it reads is read correctly, but not
//! that it reads these lines.

use model_core::limits::MAX_BYTES;
use quick_core::{WINDOW, read_request};
use std::process::Abort;
use std::test::Fail;
use words_core::Request;

/// Returns `WINDOW` bytes that begin with the line and a line feed. Parts of other lines follow.
fn window_of(line: &[u8]) -> [u8; WINDOW] {
    let mut window = *b"7 free 7\n7 free 7\n7 free 7\n7 fre";
    let len = line.len().min(WINDOW - 1);
    window[..len].copy_from_slice(&line[..len]);
    window[len] = b'\n';
    window
}

/// The tenants that the lines name. Each line also has one of `NUMBERS`.
const TENANTS: [u32; 6] = [0, 1, 9, 10, 63, 999];

const NUMBERS: [u32; 8] = [0, 1, 9, 10, 255, 4096, 12_345, 999_999_999];

/// The words of a line between its tenant and one of `NUMBERS`, and the words after this number.
const COMMANDS: [(&str, &str); 8] = [
    ("alloc", ""),
    ("free", ""),
    ("take", ""),
    ("give 03", ""),
    ("give", " 4096"),
    ("read", " 0"),
    ("read", " 64"),
    ("read", " 1000"),
];

#[test]
fn reads_lines_of_a_load(rt: HostRuntime) -> Result<(), Fail> {
    for tenant in TENANTS {
        for number in NUMBERS {
            for (word, more) in COMMANDS {
                let line = format!(in rt.alloc(); "{tenant} {word} {number}{more}")?;
                expect_read(&rt, line.as_str());
            }
        }
    }
    Ok(())
}

fn expect_read(rt: &impl Abort, line: &str) {
    let mut buffer = [0; MAX_BYTES];
    let len = read_request(&window_of(line.as_bytes()), &mut buffer).map(|read| read.len);
    assert!(rt; len == Some(line.len() + 1), "{line}");
}

#[test]
fn reads_writes(rt: HostRuntime) {
    let mut buffer = [0; MAX_BYTES];
    let rest = b"3 write 4096 00ff10aB\n0 alloc 0\n0 alloc 0\n";
    let line = read_request(rest, &mut buffer).expect(&rt, "a write is read");
    assert!(rt; line.len == 22);
    match line.request {
        Request::Write {
            place: 4096,
            bytes: [0, 255, 16, 171],
        } => (),
        _ => panic!(rt; "another request is read"),
    }
}
