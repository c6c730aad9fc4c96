// A piece in a frame.
ghost use Rattle.std.specs.Prelude.{◌≡◌, ◌<◌, ◌%◌};
ghost use Rattle.piece_format.specs.Shape.{IsPiece, IsShape, chunk_of, groups, piece_at, pieces, rows_in};

use piece_format::{Piece, Shape};

/// A piece in a frame that a berth pins: the frame, the piece's number, and what it is.
#[derive(Clone, Copy)]
pub struct Framed {
    pub frame: u32,
    pub number: u32,
    pub piece: Piece,
}

impl Framed {
    /// The piece of a slot. Its chunk has so many rows, and it stands at this place among the pieces of its chunk.
    pub fn of(shape: &Shape, slot: (u32, u32), rows: u32, group: u32) -> Framed
        requires shape { IsShape shape.now }
        requires there { slot.1 < pieces shape.now }
        requires rows { rows ≡ rows_in shape.now (chunk_of shape.now slot.1) }
        requires group { group ≡ slot.1 % groups shape.now }
        ensures frame { result.frame ≡ slot.0 }
        ensures number { result.number ≡ slot.1 }
        ensures piece { result.piece ≡ piece_at shape.now slot.1 }
        ensures small { IsPiece result.piece }
    {
        let (frame, number) = slot;
        let piece = Piece {
            layout: shape.layout,
            columns: shape.kinds.len() as u32,
            rows,
            group,
        };
        Framed {
            frame,
            number,
            piece,
        }
    }
}
