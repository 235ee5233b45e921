//! Worked traces and long lines, run with a feed or a drain that fails at its first call, then at its second call, and so on.

use crate::pieces::{in_pieces, taking};
use crate::running::{ALL, WHOLE};
use crate::tables::{MACHINE, Table, tables};
use kernel_core::Kernel;
use replay_core::{ReplayError, Tally, replay};
use std::process::Abort;
use std::test::Fail;
use streams::line_end;

#[test]
fn ends_fail_at_each_call(rt: HostRuntime) -> Result<(), Fail> {
    for table in &tables() {
        for row in table.rows {
            fails_at_each_call(&rt, table, row.trace, row.output)?;
        }
    }
    Ok(())
}

/// For each line of a trace, its length without the end, in bytes, and its end.
const LINES: [(usize, &[u8]); 4] = [(255, b"\n"), (255, b"\r\n"), (256, b"\n"), (255, b"")];

const REPLIES: &[u8] =
    b"0> refused 1 NoFrames\n0> refused 1 NoFrames\n!> fault Long\n0> refused 1 NoFrames\n";

#[test]
fn ends_fail_at_each_call_of_long_lines(rt: HostRuntime) -> Result<(), Fail> {
    let mut trace = Vec::new(rt.alloc());
    for (len, end) in LINES {
        let mut line = b"0 alloc 0".to_vec(rt.alloc())?;
        line.resize(len, b' ')?;
        trace.extend_from_slice(&line)?;
        trace.extend_from_slice(end)?;
    }
    let table = Table {
        name: "long lines",
        config: MACHINE,
        only: None,
        rows: &[],
    };
    fails_at_each_call(&rt, &table, &trace, REPLIES)
}

/// Runs a trace on new machines of a table's sizes. The feed fails at call 1 in the first run, at call 2 in the second, and so
/// on, until a run succeeds. In the runs after that, the drain fails in the same way. Pieces have one byte if only one tenant's
/// lines are shown, and 20 bytes otherwise.
fn fails_at_each_call(
    rt: &(impl AllocGlobal + Abort),
    table: &Table,
    trace: &[u8],
    output: &[u8],
) -> Result<(), Fail> {
    for good_pulls in 0..ALL {
        if is_done_after(rt, table, trace, output, (good_pulls, ALL))? {
            break;
        }
    }
    for good_pushes in 0..ALL {
        if is_done_after(rt, table, trace, output, (ALL, good_pushes))? {
            break;
        }
    }
    Ok(())
}

/// Runs a trace with a feed and a drain that fail after these numbers of good calls. Returns true if neither failed.
///
/// Checks that the pushed bytes are a beginning of the trace's output, and as many as the tally says. Then the kernel runs the
/// lines that the tally does not count. After a failed feed, their output is the rest of the trace's output. After a failed
/// drain, their output is only the part of the trace's output that follows the reply that was cut.
fn is_done_after(
    rt: &(impl AllocGlobal + Abort),
    table: &Table,
    trace: &[u8],
    output: &[u8],
    good: (u32, u32),
) -> Result<bool, Fail> {
    let (good_pulls, good_pushes) = good;
    let piece = if table.only.is_some() { 1 } else { 20 };
    let mut kernel = Kernel::boot(rt.alloc(), table.config)?;
    let mut drain = taking(piece, good_pushes);
    let ran = replay(
        &mut kernel,
        &mut in_pieces(trace, piece, good_pulls),
        &mut drain,
        table.only,
    );
    let (tally, is_cut) = match ran {
        Ok(tally) => (tally, false),
        Err(ReplayError::Feed(tally)) => (tally, false),
        Err(ReplayError::Drain(tally)) => (tally, true),
    };
    let mut rest = taking(WHOLE, ALL);
    let mut behind = in_pieces(behind(trace, tally.lines), WHOLE, ALL);
    replay(&mut kernel, &mut behind, &mut rest, table.only)?;
    let fits = begins(output, drain.taken(), tally)
        && goes_on(output, drain.taken(), rest.taken(), is_cut);
    assert!(rt; fits, "{} {good_pulls} {good_pushes}", table.name);
    Ok(ran.is_ok())
}

/// Returns whether the drain took a beginning of the output that is as long as the tally says.
fn begins(output: &[u8], taken: &[u8], tally: Tally) -> bool {
    output.starts_with(taken) && tally.written == taken.len() as u128
}

/// Returns whether the output ends with `rest` and `rest` does not overlap the taken bytes. If a reply was cut, bytes must be
/// missing between `taken` and `rest`. If no reply was cut, no byte may be missing.
fn goes_on(output: &[u8], taken: &[u8], rest: &[u8], is_cut: bool) -> bool {
    let answered = output.len().saturating_sub(rest.len());
    output.ends_with(rest) && taken.len() <= answered && (taken.len() < answered) == is_cut
}

/// Returns the part of a trace after its first `lines` lines.
fn behind(trace: &[u8], lines: u64) -> &[u8] {
    let mut rest = trace;
    for _line in 0..lines {
        rest = behind_line(rest);
    }
    rest
}

fn behind_line(bytes: &[u8]) -> &[u8] {
    match line_end(bytes) {
        Some(end) => &bytes[end + 1..],
        None => b"",
    }
}
