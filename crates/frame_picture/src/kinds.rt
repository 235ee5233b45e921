//! The kinds of frames in the order in which they are drawn.

ghost use Rattle.std.specs.Prelude.{◌≡◌, ◌<◌};
ghost use Rattle.frame_picture.specs.Kinds.{rank_of};

use kernel_core::FrameKind;

/// The number of kinds of frames.
pub const KINDS: usize = 6;

/// The number of kinds of taken frames. These kinds are the first ones in `ALL`.
pub const TAKEN_KINDS: usize = 4;

/// All kinds of frames, in the order in which they are drawn.
pub const ALL: [FrameKind; KINDS] = [
    FrameKind::Page,
    FrameKind::Full,
    FrameKind::Partial,
    FrameKind::Empty,
    FrameKind::Free,
    FrameKind::NotHeld,
];

/// Returns the index of a kind in `ALL`.
pub fn rank(kind: FrameKind) -> usize
    ensures value { result ≡ rank_of kind }
    ensures within { result < KINDS }
{
    match kind {
        FrameKind::Page => 0,
        FrameKind::Full => 1,
        FrameKind::Partial => 2,
        FrameKind::Empty => 3,
        FrameKind::Free => 4,
        FrameKind::NotHeld => 5,
    }
}

/// Returns the kind with this index in `ALL`.
pub fn of_rank(rank: usize) -> FrameKind
    requires { rank < KINDS }
    ensures { rank_of result ≡ rank }
{
    match rank {
        0 => FrameKind::Page,
        1 => FrameKind::Full,
        2 => FrameKind::Partial,
        3 => FrameKind::Empty,
        4 => FrameKind::Free,
        _ => FrameKind::NotHeld,
    }
}
