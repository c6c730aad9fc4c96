// The bytes of a piece, made for a depot.
ghost use Rattle.std.specs.Prelude.{◌≡◌, ◌<◌, OnOk};
ghost use Rattle.piece_format.specs.Cells.{IsTableOf};
ghost use Rattle.piece_format.specs.Shape.{IsShape, pieces};
ghost use Rattle.table_pieces.specs.Parcels.{IsFilled, IsReadable};
ghost use Rattle.table_pieces.specs.Putting.{piece_bytes};

use piece_format::{Shape, encode_into, words_into_bytes};
use std::alloc::Global;
use table_core::{Memory, Table};

/// The words and the bytes of a piece, and whether they could be made.
#[derive(Drop)]
pub(crate) struct Parcel {
    words: Vec<u64>,
    pub bytes: Vec<u8>,
    pub made: Result<(), Memory>,
}

impl Parcel {
    /// An empty one. It takes no memory.
    pub(crate) fn new(alloc: Global) -> Self {
        Parcel {
            words: Vec::new(alloc),
            bytes: Vec::new(alloc),
            made: Ok(()),
        }
    }

    // The bytes of a piece, in place of those that stood there; its words likewise.
    fn make(&mut self, shape: &Shape, table: &Table, piece: u32) -> Result<(), Memory>
        requires shape { IsShape shape.now }
        requires table { IsTableOf shape.now table.now }
        requires there { piece < pieces shape.now }
        ensures bytes { OnOk result (self.new.bytes.items ≡ piece_bytes shape.now table.now.rows piece) }
        ensures readable { OnOk result (IsReadable shape.now table.now.rows piece) }
    {
        encode_into(&mut self.words, shape, table, piece)?;
        words_into_bytes(self.words.as_slice(), &mut self.bytes)?;
        Ok(())
    }

    /// Makes the bytes of a piece, in the room of those that stood there.
    pub(crate) fn fill(&mut self, shape: &Shape, table: &Table, piece: u32)
        requires shape { IsShape shape.now }
        requires table { IsTableOf shape.now table.now }
        requires there { piece < pieces shape.now }
        ensures { IsFilled shape.now table.now.rows piece self.new }
    {
        self.made = self.make(shape, table, piece);
    }
}
