//! The output and the counts of worked traces, in pieces of several sizes and with both ends of lines, LF and CR LF.

use crate::running::{PIECES, replayed};
use crate::tables::{MACHINE, tables};
use std::alloc::Global;
use std::test::Fail;

/// The end of the first line and of every second line after it, and the end of the other lines.
const ENDS: [[&[u8]; 2]; 3] = [[b"\n", b"\n"], [b"\r\n", b"\r\n"], [b"\n", b"\r\n"]];

#[test]
fn traces_write_their_rows(rt: HostRuntime) -> Result<(), Fail> {
    for table in &tables() {
        for (number, row) in table.rows.iter().enumerate() {
            for ends in ENDS {
                let trace = ended_by(rt.alloc(), row.trace, ends)?;
                for piece in PIECES {
                    let (drain, _) = replayed(rt.alloc(), table.config, &trace, piece, table.only)?;
                    assert_eq!(rt;
                        drain.taken(),
                        row.output,
                        "{} {number} in pieces of {piece}, with {ends:?}",
                        table.name
                    );
                }
            }
        }
    }
    Ok(())
}

/// Returns the trace with these ends of lines. Lines that end in CR LF stay unchanged.
fn ended_by(alloc: Global, trace: &[u8], ends: [&[u8]; 2]) -> Result<Vec<u8>, Fail> {
    let mut ended = Vec::new(alloc);
    for (number, line) in trace.split_inclusive(|byte| *byte == b'\n').enumerate() {
        match line {
            [text @ .., b'\n'] if !text.ends_with(b"\r") => {
                ended.extend_from_slice(text)?;
                ended.extend_from_slice(ends[number % 2])?;
            }
            _ => ended.extend_from_slice(line)?,
        }
    }
    Ok(ended)
}

/// The tally of a replay does not depend on the size of the pieces. With `only`, the output has only this tenant's lines.
#[test]
fn counts_and_empty_slabs(rt: HostRuntime) -> Result<(), Fail> {
    let granted = b"admin grant 0\n0 alloc 0\n0 read 0 4\n".as_slice();
    let notes = b"# note\n\nfrob\n".as_slice();
    for (trace, only, counts, text) in [
        (
            granted,
            None,
            (3, 3, 0, 66),
            b"admin> granted 0 slot 0 superblock 0\n0> frame 0\n0> bytes 00000000\n".as_slice(),
        ),
        (
            granted,
            Some(0),
            (3, 3, 0, 29),
            b"0> frame 0\n0> bytes 00000000\n".as_slice(),
        ),
        (notes, None, (3, 0, 1, 17), b"!> fault Unknown\n".as_slice()),
        (notes, Some(0), (3, 0, 1, 0), b"".as_slice()),
    ] {
        for piece in PIECES {
            let (drain, tally) = replayed(rt.alloc(), MACHINE, trace, piece, only)?;
            assert_eq!(rt; drain.taken(), text, "in pieces of {piece}");
            assert_eq!(rt;
                (tally.lines, tally.events, tally.faults, tally.written),
                counts,
                "in pieces of {piece}"
            );
        }
    }
    Ok(())
}

/// A line has at most 255 bytes, without its end. A longer line is one fault, however long it is.
#[test]
fn longer_lines_are_faults(rt: HostRuntime) -> Result<(), Fail> {
    let ends: [&[u8]; 4] = [b"\n", b"", b"\r\n", b"\r"];
    for end in &ends {
        for (begin, fill, len, want) in [
            (
                b"0 alloc 0".as_slice(),
                b' ',
                255,
                b"0> refused 1 NoFrames\n".as_slice(),
            ),
            (
                b"0 alloc 0".as_slice(),
                b' ',
                256,
                b"!> fault Long\n".as_slice(),
            ),
            (b"".as_slice(), b'a', 100_000, b"!> fault Long\n".as_slice()),
        ] {
            let mut line = begin.to_vec(rt.alloc())?;
            line.resize(len, fill)?;
            line.extend_from_slice(end)?;
            for piece in PIECES {
                let (drain, _) = replayed(rt.alloc(), MACHINE, &line, piece, None)?;
                assert_eq!(rt; drain.taken(), want, "{len} bytes, then {end:?}");
            }
        }
    }
    Ok(())
}
