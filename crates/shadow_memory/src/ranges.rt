//! Functions that change the stored bytes of a range of places. They skip each frame or chunk that the change does not affect,
//! according to its summary.

ghost use Rattle.std.specs.Prelude.{◌≡◌, ℕ, ◌+◌, ◌*◌, ◌^◌, ◌<◌, ◌≤◌, length};
ghost use Rattle.shadow_memory.specs.Inside.{within};
ghost use Rattle.shadow_memory.specs.Summaries.{cell_in, AreSummarized, IsChanged};

use crate::change::Change;
use crate::kept::KeptByte;
use crate::summary::{Summary, set_summary, summary_at};
use model_core::limits::FRAME_BYTES;

/// The number of places in a chunk. A frame consists of chunks, and each chunk has its own summary.
pub(crate) const CHUNK: usize = 64;

/// The number of places in a frame.
pub(crate) const FRAME: usize = FRAME_BYTES as usize;

/// Changes the places at the indices `low..high`, one chunk at a time. Index 0 is the place `first`. Skips each chunk that the
/// change does not affect, according to its summary.
fn change_chunks<C: Change>(
    cells: &mut [KeptByte],
    chunks: &mut [Summary],
    first: u64,
    low: usize,
    high: usize,
    change: &C,
)
    requires order { low ≤ high }
    requires most { high ≤ length cells.old }
    requires low { first + length cells.old ≤ 2 ^ 32 }
    requires marked { AreSummarized CHUNK chunks.old cells.old }
    ensures changed { IsChanged (C.step change.now) first low high cells.old cells.new }
    ensures marked { AreSummarized CHUNK chunks.new cells.new }
{
    for chunk in low / CHUNK..(high + CHUNK - 1) / CHUNK {
        let summary = summary_at(chunks, chunk);
        if change.leaves(summary) {
            continue;
        }
        let begin = (chunk * CHUNK).max(low);
        let end = (chunk * CHUNK + CHUNK).min(high);
        change.change_places(cells, first, begin, end);
        set_summary(
            chunks,
            chunk,
            change.summary_after(summary, end - begin == CHUNK),
        );
    }
}

/// Changes the places at the indices `low..high`, one frame at a time. Index 0 is the place `first`. Skips each frame that the
/// change does not affect, according to its summary.
fn change_frames<C: Change>(
    cells: &mut [KeptByte],
    chunks: &mut [Summary],
    frames: &mut [Summary],
    first: u64,
    low: usize,
    high: usize,
    change: &C,
)
    requires order { low ≤ high }
    requires most { high ≤ length cells.old }
    requires low { first + length cells.old ≤ 2 ^ 32 }
    requires chunks { AreSummarized CHUNK chunks.old cells.old }
    requires frames { AreSummarized FRAME frames.old cells.old }
    ensures changed { IsChanged (C.step change.now) first low high cells.old cells.new }
    ensures chunks { AreSummarized CHUNK chunks.new cells.new }
    ensures frames { AreSummarized FRAME frames.new cells.new }
{
    for frame in low / FRAME..(high + FRAME - 1) / FRAME {
        let summary = summary_at(frames, frame);
        if change.leaves(summary) {
            continue;
        }
        let begin = (frame * FRAME).max(low);
        let end = (frame * FRAME + FRAME).min(high);
        change_chunks(cells, chunks, first, begin, end, change);
        set_summary(
            frames,
            frame,
            change.summary_after(summary, end - begin == FRAME),
        );
    }
}

/// Changes the places in `begin..end`. Index 0 is the place `first`.
pub(crate) fn change_range<C: Change>(
    cells: &mut [KeptByte],
    chunks: &mut [Summary],
    frames: &mut [Summary],
    first: u64,
    begin: u64,
    end: u64,
    change: &C,
)
    requires low { first + length cells.old ≤ 2 ^ 32 }
    requires chunks { AreSummarized CHUNK chunks.old cells.old }
    requires frames { AreSummarized FRAME frames.old cells.old }
    ensures cells { (k : ℕ) → k < length cells.old
        → cell_in cells.new k ≡ within begin end (C.step change.now) (first + k) (cell_in cells.old k) }
    ensures chunks { AreSummarized CHUNK chunks.new cells.new }
    ensures frames { AreSummarized FRAME frames.new cells.new }
{
    let most = cells.len() as u64;
    let low = begin.saturating_sub(first).min(most) as usize;
    let high = end.saturating_sub(first).min(most).max(low as u64) as usize;
    change_frames(cells, chunks, frames, first, low, high, change);
}
