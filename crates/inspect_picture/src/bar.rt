ghost use Rattle.std.specs.Prelude.{Some};
ghost use Rattle.inspect_picture.specs.Titles.{ended_text};

use std::fmt;

/// How the stay of a piece in a frame ended.
#[derive(Clone, Copy, Debug, PartialEq, Eq)]
pub enum Ended {
    /// The piece's chunk was evicted.
    Evicted,
    /// The frame was filled again.
    Refilled,
    /// The story ended, and the piece was there.
    Story,
}

impl fmt::Display for Ended {
    ghost output = { λ e. Some (ended_text e) };

    fn fmt<W: fmt::Write>(&self, f: &mut fmt::Formatter<W>) -> fmt::Result {
        match *self {
            Ended::Evicted => write!(f, "evicted"),
            Ended::Refilled => write!(f, "refilled"),
            Ended::Story => write!(f, "there at the end"),
        }
    }
}

/// One stay of a piece in a frame.
#[derive(Clone, Copy, Debug, PartialEq, Eq)]
pub struct Bar {
    /// The frame, from 0.
    pub frame: u32,
    /// The piece, from 0.
    pub piece: u32,
    /// The number of the entry by which the piece came, from 1.
    pub first: u32,
    /// The number of the entry by which it went, or one more than there are entries.
    pub last: u32,
    /// How it went.
    pub ended: Ended,
}
