ghost use Rattle.std.specs.Prelude.{◌≡◌, ◌≤◌, ◌<◌, ◌++◌, ◌∷◌, [], length, get_or};

use std::marker::Model;

/// At most 16 pieces, seen as their list.
#[derive(Drop)]
pub struct Pieces {
    len: u32,
    items: [u32; 16],
}

impl Model for Pieces {
    ghost use Rattle.std.specs.Prelude.{◌≤◌, ℕ, List, take};

    ghost Value = { List ℕ };

    ghost view = { λ s. take s.len s.items };

    ghost invariant = { λ s. s.len ≤ 16 };
}

impl Pieces {
    /// No piece.
    pub fn new() -> Pieces
        ensures { result ≡ [] }
    {
        Pieces {
            len: 0,
            items: [0; 16],
        }
    }

    /// How many pieces there are, at most 16.
    pub fn len(&self) -> u32
        ensures len { result ≡ length self.now }
        ensures few { result ≤ 16 }
    {
        self.len
    }

    /// Adds a piece, where there are fewer than 16.
    pub fn push(&mut self, piece: u32)
        requires { length self.old < 16 }
        ensures { self.new ≡ self.old ++ piece ∷ [] }
    {
        self.items[self.len as usize] = piece;
        self.len += 1;
    }

    /// The piece at a place.
    pub fn at(&self, i: u32) -> u32
        requires { i < length self.now }
        ensures { result ≡ get_or self.now i 0 }
    {
        let _len = self.len;
        self.items[i as usize]
    }
}
