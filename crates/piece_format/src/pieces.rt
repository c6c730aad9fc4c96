// One piece: what its words stand for.
ghost use Rattle.std.specs.Prelude.{◌≡◌, ◌<◌, ◌≤◌, ◌^◌};
ghost use Rattle.piece_format.specs.Shape.{IsPiece, IsPieceOf, IsShape, piece_at, pieces, words_in};
ghost use Rattle.piece_format.specs.Checking.{IsInside, IsSlot};
ghost use Rattle.piece_format.specs.Reading as spec;
ghost use Rattle.piece_format.specs.Words.{slot_at};

use crate::layout::Layout;
use crate::shape::{Shape, groups, word_count};
use table_core::chunk_span;

/// What a piece is, and where the words of its cells stand. It is a few numbers, made once for a piece.
///
/// Rows are those of the piece's chunk, from 0. In the row layout a piece has every column, in the column layout the
/// one of its group. A cell has two words: one with its null bit, which it shares with other cells, and its value word.
#[derive(Clone, Copy, PartialEq, Eq)]
pub struct Piece {
    pub layout: Layout,
    /// How many columns the table has, 1 to `MOST_COLUMNS`.
    pub columns: u32,
    /// How many rows the chunk has, at most `MOST_CHUNK_ROWS`.
    pub rows: u32,
    /// The place of the piece among those of its chunk.
    pub group: u32,
}

// What stands at a place of a piece: the value word of a cell, or a word with so many null bits.
#[derive(Clone, Copy)]
pub(crate) enum Stands {
    Value { row: u32, column: u32 },
    Nulls { count: u32 },
}

impl Piece {
    /// The piece of a number.
    pub fn of(shape: &Shape, piece: u32) -> Piece
        requires shape { IsShape shape.now }
        requires there { piece < pieces shape.now }
        ensures piece { result ≡ piece_at shape.now piece }
        ensures small { IsPiece result }
        ensures fits { IsPieceOf shape.now result }
    {
        let groups = groups(shape);
        let (from, to) = chunk_span(shape.rows, shape.per, piece / groups);
        Piece {
            layout: shape.layout,
            columns: shape.columns(),
            rows: to - from,
            group: piece % groups,
        }
    }

    /// How many words it has.
    pub fn words(self) -> u32
        requires { IsPiece self }
        ensures { result ≡ words_in self }
    {
        word_count(self.layout, self.columns, self.rows)
    }

    /// The place of the word that has the null bits of a row's cells.
    pub fn null_place(self, row: u32) -> u32
        requires piece { IsPiece self }
        requires row { row < self.rows }
        ensures place { result ≡ spec.null_place self row }
        ensures there { result < words_in self }
    {
        match self.layout {
            Layout::Row => row * (self.columns + 1),
            Layout::Column => self.rows + row / 64,
        }
    }

    /// The bit of that word that is set exactly where the cell of a column is NULL.
    pub fn null_bit(self, row: u32, column: u32) -> u32
        requires piece { IsPiece self }
        requires column { spec.HasColumn self column }
        ensures bit { result ≡ spec.null_bit self row column }
        ensures small { result < 64 }
    {
        match self.layout {
            Layout::Row => column,
            Layout::Column => row % 64,
        }
    }

    /// The place of a cell's value word.
    pub fn value_place(self, row: u32, column: u32) -> u32
        requires piece { IsPiece self }
        requires row { row < self.rows }
        requires column { spec.HasColumn self column }
        ensures place { result ≡ spec.value_place self row column }
        ensures there { result < words_in self }
    {
        match self.layout {
            Layout::Row => row * (self.columns + 1) + 1 + column,
            Layout::Column => row,
        }
    }

    // What stands at a place.
    pub(crate) fn stands(self, place: u32) -> Stands
        requires piece { IsPiece self }
        requires place { place < words_in self }
        ensures slot { IsSlot result (slot_at self place) }
        ensures inside { IsInside self result }
    {
        match self.layout {
            Layout::Row => {
                let width = self.columns + 1;
                if place % width == 0 {
                    return Stands::Nulls {
                        count: self.columns,
                    };
                }
                Stands::Value {
                    row: place / width,
                    column: place % width - 1,
                }
            }
            Layout::Column => {
                if place < self.rows {
                    return Stands::Value {
                        row: place,
                        column: self.group,
                    };
                }
                let from = 64 * (place - self.rows);
                Stands::Nulls {
                    count: (self.rows - from).min(64),
                }
            }
        }
    }
}
