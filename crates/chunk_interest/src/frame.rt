/// What a frame is at.
#[derive(Clone, Copy, PartialEq, Eq)]
pub enum Frame {
    /// No piece is in it.
    Free,
    /// The load underway began to read a piece into it.
    Begun,
    /// It has the piece.
    Holds(u32),
}
