//! Frames with their pieces.
ghost use Rattle.std.specs.Prelude.{◌≡◌, ◌<◌, ◌≤◌, ◌++◌, ◌∷◌, [], length, slice_index_or};

use std::marker::Model;

/// At most 16 pairs of a frame and a piece, seen as their list.
#[derive(Drop)]
pub struct Slots {
    /// How many slots there are.
    pub len: u32,
    /// Frames and pieces; those from `len` on mean nothing.
    pub pairs: [(u32, u32); 16],
}

impl Model for Slots {
    ghost use Rattle.std.specs.Prelude.{◌≡◌, ◌≤◌, ℕ, List, take, length};

    ghost Value = { List (ℕ × ℕ) };

    ghost view = { λ s. take s.len s.pairs };

    ghost invariant = { λ s. (s.len ≤ 16) × (length s.pairs ≡ 16) };
}

impl Slots {
    /// No slot.
    pub fn new() -> Slots
        ensures { result ≡ [] }
    {
        Slots {
            len: 0,
            pairs: [(0, 0); 16],
        }
    }

    /// The same slots once more.
    pub fn copy(&self) -> Slots
        ensures { result ≡ self.now }
    {
        Slots {
            len: self.len,
            pairs: self.pairs,
        }
    }

    /// How many slots there are, at most 16.
    pub fn len(&self) -> u32
        ensures len { result ≡ length self.now }
        ensures few { result ≤ 16 }
    {
        self.len
    }

    /// Adds a frame with its piece, where there are fewer than 16.
    pub fn push(&mut self, frame: u32, piece: u32)
        requires { length self.old < 16 }
        ensures { self.new ≡ self.old ++ (frame, piece) ∷ [] }
    {
        self.pairs[self.len as usize] = (frame, piece);
        self.len += 1;
    }

    /// The frame and the piece at a place.
    pub fn at(&self, i: u32) -> (u32, u32)
        requires { i < length self.now }
        ensures { result ≡ slice_index_or self.now i (0, 0) }
    {
        let _len = self.len;
        self.pairs[i as usize]
    }
}
