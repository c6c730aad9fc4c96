// Cells and rows, read from frames that a berth pins.
ghost use Rattle.std.specs.Prelude.{◌≡◌, ◌==◌, ◌<◌, ◌%◌, List, length};
ghost use Rattle.std.specs.Int.{bit_at};
ghost use Rattle.table_core.specs.declared.cell.Cell.{Cell};
ghost use Rattle.frame_pool.specs.Steps.{IsWordOf};
ghost use Rattle.piece_format.specs.Cells.{FitsKind, cell_at, dict_len_at, kind_at, piece_rows};
ghost use Rattle.piece_format.specs.Reading.{HasColumn, null_place};
ghost use Rattle.piece_format.specs.Shape.{IsShape, chunk_of, chunks, groups, piece_at, pieces};
ghost use Rattle.coop_outside.specs.Pieces.{Stored};
ghost use Rattle.frame_rows.specs.Framed.{IsFramed};
ghost use Rattle.frame_rows.specs.Rows.{IsForPlace};
ghost use Rattle.frame_rows.specs.Tables.{HoldsTable, group_with, piece_with};

use crate::framed::Framed;
use frame_pool::{Berth, Content, Pool};
use piece_format::{Layout, Shape, cell_of, piece_of};
use table_core::{Cell, ColumnSet, Kind};

/// Whether a bit of a word is set.
pub(crate) fn is_set(word: u64, bit: u32) -> bool
    requires { bit < 64 }
    ensures { result ≡ (bit_at word bit == 1) }
{
    word >> bit & 1 == 1
}

/// The kind of a column.
pub(crate) fn kind(shape: &Shape, column: u32) -> Kind
    requires { column < length shape.now.kinds }
    ensures { result ≡ kind_at shape.now column }
{
    shape.kinds[column as usize]
}

/// How many texts the dictionary of a column has.
pub(crate) fn dict_len(shape: &Shape, column: u32) -> u32
    requires { column < length shape.now.dict_lens }
    ensures { result ≡ dict_len_at shape.now column }
{
    shape.dict_lens[column as usize]
}

/// The place of the piece that has a column, among the pieces of a chunk.
pub fn group_with(shape: &Shape, column: u32) -> u32
    ensures { result ≡ group_with shape.now.layout column }
{
    match shape.layout {
        Layout::Row => 0,
        Layout::Column => column,
    }
}

/// The piece of a chunk that has a column.
pub fn piece_with(shape: &Shape, chunk: u32, column: u32) -> u32
    requires shape { IsShape shape.now }
    requires chunk { chunk < chunks shape.now }
    requires column { column < length shape.now.kinds }
    ensures piece { result ≡ piece_with shape.now chunk column }
    ensures there { result < pieces shape.now }
    ensures chunk { chunk_of shape.now result ≡ chunk }
    ensures group { result % groups shape.now ≡ group_with shape.now.layout column }
    ensures has { HasColumn (piece_at shape.now result) column }
{
    match shape.layout {
        Layout::Row => piece_of(shape, chunk, 0),
        Layout::Column => piece_of(shape, chunk, column),
    }
}

/// The word that has the null bits of a row's cells in a framed piece.
pub(crate) fn nulls_of<C: Content>(
    pool: &Pool<C>,
    shape: &Shape,
    berth: &mut Berth<C>,
    framed: Framed,
    row: u32,
) -> u64
    requires framed { IsFramed shape.now pool.now berth.old framed }
    requires row { row < framed.piece.rows }
    ensures same { berth.new ≡ berth.old }
    ensures word { IsWordOf C.pieces berth.old.pins framed.frame (null_place framed.piece row) result }
{
    pool.word(berth, framed.frame, framed.piece.null_place(row))
}

// The cell of a row and a column in a framed piece, by the word that has the null bits of the row's cells.
fn cell_by<C: Content>(
    pool: &Pool<C>,
    shape: &Shape,
    berth: &mut Berth<C>,
    framed: Framed,
    nulls: u64,
    row: u32,
    column: u32,
) -> Cell
    requires shape { IsShape shape.now }
    requires framed { IsFramed shape.now pool.now berth.old framed }
    requires nulls { IsWordOf C.pieces berth.old.pins framed.frame (null_place framed.piece row) nulls }
    requires row { row < framed.piece.rows }
    requires column { HasColumn framed.piece column }
    ensures same { berth.new ≡ berth.old }
    ensures fits { FitsKind (kind_at shape.now column) (dict_len_at shape.now column) result }
    ensures cell { (held : Stored) (rows : List (List Cell)) → HoldsTable held C.pieces shape.now rows → result
        ≡ cell_at (piece_rows shape.now rows framed.number) row column }
{
    let null = is_set(nulls, framed.piece.null_bit(row, column));
    let word = pool.word(berth, framed.frame, framed.piece.value_place(row, column));
    cell_of(kind(shape, column), dict_len(shape, column), null, word)
}

/// The cell of a row and a column in a framed piece.
pub fn cell_in_frame<C: Content>(
    pool: &Pool<C>,
    shape: &Shape,
    berth: &mut Berth<C>,
    framed: Framed,
    row: u32,
    column: u32,
) -> Cell
    requires shape { IsShape shape.now }
    requires framed { IsFramed shape.now pool.now berth.old framed }
    requires row { row < framed.piece.rows }
    requires column { HasColumn framed.piece column }
    ensures same { berth.new ≡ berth.old }
    ensures fits { FitsKind (kind_at shape.now column) (dict_len_at shape.now column) result }
    ensures cell { (held : Stored) (rows : List (List Cell)) → HoldsTable held C.pieces shape.now rows → result
        ≡ cell_at (piece_rows shape.now rows framed.number) row column }
{
    let nulls = nulls_of(pool, shape, berth, framed, row);
    cell_by(pool, shape, berth, framed, nulls, row, column)
}

/// What comes into the place of a column that a framed piece has: its cell where it is one of these columns, and else
/// NULL.
pub(crate) fn cell_for<C: Content>(
    pool: &Pool<C>,
    shape: &Shape,
    berth: &mut Berth<C>,
    framed: Framed,
    nulls: u64,
    row: u32,
    columns: &ColumnSet,
    column: u32,
) -> Cell
    requires shape { IsShape shape.now }
    requires framed { IsFramed shape.now pool.now berth.old framed }
    requires nulls { IsWordOf C.pieces berth.old.pins framed.frame (null_place framed.piece row) nulls }
    requires row { row < framed.piece.rows }
    requires column { HasColumn framed.piece column }
    ensures same { berth.new ≡ berth.old }
    ensures cell { IsForPlace C.pieces shape.now (chunk_of shape.now framed.number) row columns.now column result }
{
    if !columns.has(column) {
        return Cell::Null;
    }
    cell_by(pool, shape, berth, framed, nulls, row, column)
}
