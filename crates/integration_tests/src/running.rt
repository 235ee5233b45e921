//! Runs a trace on a machine, with a feed and a drain over memory.

use crate::pieces::{PieceDrain, in_pieces, taking};
use crate::tables::MACHINE;
use kernel_core::{Config, Kernel};
use replay_core::{ReaderFeed, Tally, WriterDrain, replay};
use std::alloc::Global;
use std::test::Fail;

/// More pulls or pushes than any test makes.
pub const ALL: u32 = 1_000_000;

/// More bytes than any trace has or writes.
pub const WHOLE: usize = 200_000;

/// The sizes of the pieces in which a trace is run. With the last one, the trace is one piece.
pub const PIECES: [usize; 5] = [1, 2, 3, 7, WHOLE];

/// Runs a trace on a new machine, with pulls and pushes of at most `piece` bytes. Returns the drain with the output, and the
/// tally. If `only` is a tenant, the output has only this tenant's lines.
pub fn replayed(
    alloc: Global,
    config: Config,
    trace: &[u8],
    piece: usize,
    only: Option<u8>,
) -> Result<(PieceDrain, Tally), Fail> {
    let mut kernel = Kernel::boot(alloc, config)?;
    let mut drain = taking(piece, ALL);
    let tally = replay(
        &mut kernel,
        &mut in_pieces(trace, piece, ALL),
        &mut drain,
        only,
    )?;
    Ok((drain, tally))
}

/// Runs a trace on this machine, without cutting it into pieces. Returns the output.
pub fn written_by(alloc: Global, kernel: &mut Kernel, trace: &[u8]) -> Result<Vec<u8>, Fail> {
    let mut replies = Vec::new(alloc);
    replay(
        kernel,
        &mut ReaderFeed::new(trace),
        &mut WriterDrain::new(&mut replies),
        None,
    )?;
    Ok(replies)
}

/// Runs a trace on a new small machine. Returns the machine after the trace, and the output.
pub fn run(alloc: Global, trace: &[u8]) -> Result<(Kernel, Vec<u8>), Fail> {
    let mut kernel = Kernel::boot(alloc, MACHINE)?;
    let replies = written_by(alloc, &mut kernel, trace)?;
    Ok((kernel, replies))
}
