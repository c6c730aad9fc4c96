// The words of a piece.
ghost use Rattle.std.specs.Prelude.{◌≡◌, ◌<◌, ◌≤◌, ◌+◌, ◌*◌, ◌/◌, IfOk, OnOk, [], length, slice_index, slice_index_or};
ghost use Rattle.table_core.specs.Columns.{column_cells};
ghost use Rattle.table_core.specs.declared.cell.Cell.TheVariants.{Null};
ghost use Rattle.piece_format.specs.declared.layout.Layout.TheVariants as layouts;
ghost use Rattle.piece_format.specs.Shape.{IsPiece, IsShape, piece_at, pieces, words_in};
ghost use Rattle.piece_format.specs.Bytes.{bytes_of, word_of};
ghost use Rattle.piece_format.specs.Broken.{NoneBroken};
ghost use Rattle.piece_format.specs.Cells.{IsTableOf, is_null as is_null_cell};
ghost use Rattle.piece_format.specs.Encoding.{AreFirst, HoldsRows, held_cell};
ghost use Rattle.piece_format.specs.Reading.{GivesBack};
ghost use Rattle.piece_format.specs.Words as spec;
ghost use Rattle.piece_format.specs.Words.{bits};

use crate::cells::{is_null_at, value_word_at, with_bit};
use crate::layout::Layout;
use crate::pieces::Piece;
use crate::row_words::fill_rows;
use crate::shape::{Shape, groups, piece_words};
use crate::word_bytes::bytes_give_words;
use std::alloc::Global;
use table_core::{Cells, Memory, Table, chunk_span};

// The null bits of so many cells of a column.
fn null_word(column: &Cells, from: u32, count: u32) -> u64
    requires few { count ≤ 64 }
    requires there { from + count ≤ length (column_cells column.now) }
    ensures { result ≡ bits (λ b. is_null_cell (slice_index_or (column_cells column.now) (from + b) Null)) count }
{
    let mut word = 0;
    for b in 0..count {
        word = with_bit(word, b, is_null_at(column, from as usize + b as usize));
    }
    word
}

// Puts the value words of a column.
fn push_values(words: &mut Vec<u64>, piece: Piece, table: &Table, from: u32) -> Result<(), Memory>
    requires piece { IsPiece piece }
    requires layout { piece.layout ≡ layouts.Column }
    requires rows { HoldsRows piece table.now from }
    requires empty { words.old.items ≡ [] }
    ensures { OnOk result (AreFirst piece (held_cell piece table.now from) piece.rows words.new.items) }
{
    let column = table.column(piece.group as usize);
    for row in 0..piece.rows {
        words.push(value_word_at(column, (from + row) as usize))?;
    }
    Ok(())
}

// Puts the null words of a column.
fn push_nulls(words: &mut Vec<u64>, piece: Piece, table: &Table, from: u32) -> Result<(), Memory>
    requires piece { IsPiece piece }
    requires layout { piece.layout ≡ layouts.Column }
    requires rows { HoldsRows piece table.now from }
    requires before { AreFirst piece (held_cell piece table.now from) piece.rows words.old.items }
    ensures { OnOk result (AreFirst piece (held_cell piece table.now from) (words_in piece) words.new.items) }
{
    let column = table.column(piece.group as usize);
    for k in 0..(piece.rows + 63) / 64 {
        let start = 64 * k;
        let count = (piece.rows - start).min(64);
        words.push(null_word(column, from + start, count))?;
    }
    Ok(())
}

// The words of a piece whose chunk begins with this row, in place of all others.
fn encode_rows(words: &mut Vec<u64>, piece: Piece, table: &Table, from: u32) -> Result<(), Memory>
    requires piece { IsPiece piece }
    requires rows { HoldsRows piece table.now from }
    ensures { OnOk result (AreFirst piece (held_cell piece table.now from) (words_in piece) words.new.items) }
{
    words.clear();
    match piece.layout {
        Layout::Row => return fill_rows(words, piece, table, from),
        Layout::Column => {
            push_values(words, piece, table, from)?;
            return push_nulls(words, piece, table, from);
        }
    }
}

/// The words of a piece of a table, in place of the words that stood in the vector, whose room is used again. After an
/// `Err`, which is out of memory, any words stand there.
///
/// The table has the kinds and rows of the shape, and each of its cells is NULL, a code below the length of its
/// column's dictionary in a column of texts, or a number in any other. The words give back each cell of the chunk that
/// the piece has, and so do their bytes; none of them breaks the rules that `check` judges.
pub fn encode_into(
    words: &mut Vec<u64>,
    shape: &Shape,
    table: &Table,
    piece: u32,
) -> Result<(), Memory>
    requires shape { IsShape shape.now }
    requires there { piece < pieces shape.now }
    requires table { IsTableOf shape.now table.now }
    ensures words { OnOk result (words.new.items ≡ spec.piece_words shape.now table.now.rows piece) }
    ensures len { OnOk result (length words.new.items ≡ words_in (piece_at shape.now piece)) }
    ensures back { OnOk result (GivesBack shape.now table.now.rows piece (slice_index words.new.items)) }
    ensures bytes_back { OnOk result (GivesBack shape.now table.now.rows piece
        (word_of (bytes_of words.new.items))) }
    ensures sound { OnOk result (let q = piece_at shape.now piece in NoneBroken shape.now q
        (slice_index words.new.items) (words_in q)) }
{
    let (from, _to) = chunk_span(shape.rows, shape.per, piece / groups(shape));
    encode_rows(words, Piece::of(shape, piece), table, from)?;
    bytes_give_words(words.as_slice());
    Ok(())
}

/// The words of a piece of a table: those of `encode_into`, in a vector of their own.
pub fn encode(alloc: Global, shape: &Shape, table: &Table, piece: u32) -> Result<Vec<u64>, Memory>
    requires shape { IsShape shape.now }
    requires there { piece < pieces shape.now }
    requires table { IsTableOf shape.now table.now }
    ensures words { IfOk result (λ words. words.items ≡ spec.piece_words shape.now table.now.rows piece) }
    ensures len { IfOk result (λ words. length words.items ≡ words_in (piece_at shape.now piece)) }
    ensures back { IfOk result (λ words. GivesBack shape.now table.now.rows piece (slice_index words.items)) }
    ensures bytes_back { IfOk result (λ words. GivesBack shape.now table.now.rows piece
        (word_of (bytes_of words.items))) }
    ensures sound { IfOk result (λ words. let q = piece_at shape.now piece in NoneBroken shape.now q
        (slice_index words.items) (words_in q)) }
{
    let mut words = Vec::with_capacity(alloc, piece_words(shape, piece) as usize)?;
    encode_into(&mut words, shape, table, piece)?;
    Ok(words)
}
