//! Pairs of worlds in which a tenant has the same commands. It gets the same replies in both, whatever other lines come between.

use crate::running::{WHOLE, replayed};
use crate::tables::own::ROWS;
use crate::tables::{MACHINE, WIDER};
use std::alloc::Global;
use std::process::Abort;
use std::test::Fail;

/// The number of gaps in the tenant's trace: before, between and after its lines.
const GAPS: usize = 7;

/// Lines of others, one of them faulty. Tests use prefixes of this list.
const NOISE: [&[u8]; 7] = [
    b"admin grant 1\n",
    b"1 cache 16 8 ee\n",
    b"1 take 0\n",
    b"1 write 0 ff\n",
    b"admin pool\n",
    b"frob\n",
    b"admin reset 1\n",
];

/// Commands of the administrator about tenant 0. Their replies go only to the administrator.
const QUIET: [&[u8]; 2] = [b"admin takeback 0 1\n", b"admin move 0 0\n"];

/// Returns the trace `alone` with all lines of `noise` in each gap from `first` to `last`.
fn among(
    alloc: Global,
    alone: &[u8],
    noise: &[&[u8]],
    first: usize,
    last: usize,
) -> Result<Vec<u8>, Fail> {
    let mut trace = Vec::new(alloc);
    let mut own = alone.split_inclusive(|byte| *byte == b'\n');
    for gap in 0..GAPS {
        if (first..=last).contains(&gap) {
            for line in noise {
                trace.extend_from_slice(line)?;
            }
        }
        if let Some(line) = own.next() {
            trace.extend_from_slice(line)?;
        }
    }
    Ok(trace)
}

/// Checks that tenant 0, whose trace has six lines, gets the same replies alone and with all lines of `noise` in each gap from
/// `first` to `last`.
fn is_told_alike(
    rt: &(impl AllocGlobal + Abort),
    noise: &[&[u8]],
    first: usize,
    last: usize,
) -> Result<(), Fail> {
    let alone = ROWS.first().expect(rt, "a tenant alone");
    let trace = among(rt.alloc(), alone.trace, noise, first, last)?;
    for config in [MACHINE, WIDER] {
        for piece in [1, WHOLE] {
            let (drain, _) = replayed(rt.alloc(), config, &trace, piece, Some(0))?;
            assert!(rt; drain.taken() == alone.output, "{trace:?}");
        }
    }
    begins_alike(rt, &trace, alone.output)
}

/// Checks the replies to tenant 0 for the first bytes of a trace, for each number of bytes. If these bytes end with a line feed,
/// the replies are a beginning of the whole output. If the last line is cut, the replies begin with those to the lines before
/// this line. A cut line may have a reply too.
fn begins_alike(rt: &(impl AllocGlobal + Abort), trace: &[u8], output: &[u8]) -> Result<(), Fail> {
    let (mut ended, _) = replayed(rt.alloc(), MACHINE, b"", WHOLE, Some(0))?;
    for len in 0..=trace.len() {
        let beginning = &trace[..len];
        let (drain, _) = replayed(rt.alloc(), MACHINE, beginning, WHOLE, Some(0))?;
        assert!(rt;
            drain.taken().starts_with(ended.taken()),
            "of {len} bytes of {trace:?}"
        );
        if beginning.ends_with(b"\n") {
            assert!(rt;
                output.starts_with(drain.taken()),
                "of {len} bytes of {trace:?}"
            );
            ended = drain;
        }
    }
    Ok(())
}

/// A tenant gets the same replies with any prefix of the noise in any one gap, and with the whole noise in all gaps.
#[test]
fn others_make_noise(rt: HostRuntime) -> Result<(), Fail> {
    for count in 0..=NOISE.len() {
        for gap in 0..GAPS {
            is_told_alike(&rt, &NOISE[..count], gap, gap)?;
        }
    }
    is_told_alike(&rt, &NOISE, 0, GAPS)
}

/// A tenant gets the same replies with a refused take-back or a move of its only slot, in any one gap or in all gaps. It also
/// gets them with both in all gaps.
#[test]
fn administrator_is_quiet(rt: HostRuntime) -> Result<(), Fail> {
    for line in &QUIET {
        for gap in 0..GAPS {
            is_told_alike(&rt, &[line], gap, gap)?;
        }
        is_told_alike(&rt, &[line], 0, GAPS)?;
    }
    is_told_alike(&rt, &QUIET, 0, GAPS)
}
