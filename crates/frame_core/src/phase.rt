//! The four phases of a frame.

/// What a frame is used for at the moment.
#[derive(Clone, Copy, PartialEq, Eq)]
pub enum FramePhase {
    /// It holds no piece.
    Free,
    /// One party puts the words of a piece into it.
    Filling,
    /// It holds a piece, and may be pinned.
    Ready,
    /// It holds a piece, and nobody may pin it any more.
    Marked,
}
