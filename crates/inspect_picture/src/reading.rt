/// A piece that is read into a frame, from its Fill on.
#[derive(Clone, Copy, Debug, PartialEq, Eq)]
pub struct Reading {
    /// The frame, from 0.
    pub frame: u32,
    /// The piece, from 0.
    pub piece: u32,
    /// The number of the entry by which the fill began, from 1.
    pub first: u32,
    /// The number of the entry by which it was over: the frame was filled, or the load of the piece failed; or one more
    /// than there are entries.
    pub last: u32,
    /// The load of the piece failed.
    pub failed: bool,
}
