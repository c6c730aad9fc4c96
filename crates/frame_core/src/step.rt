//! The eight steps of a frame.

/// What one party may do to a frame.
#[derive(Clone, Copy, PartialEq, Eq, Debug)]
pub enum Step {
    /// Pins a ready frame that holds this piece.
    Take { piece: u32 },
    /// Gives a pin back.
    Release,
    /// Lets nobody pin the frame any more.
    Mark,
    /// Begins to fill a frame that is free, or marked and pinned by nobody.
    Claim,
    /// Puts a word into the frame.
    Put,
    /// Makes the filled frame ready with this piece.
    Publish { piece: u32 },
    /// Gives the filling up: the frame is free.
    Abandon,
    /// Reads a word of the frame.
    Read,
}
