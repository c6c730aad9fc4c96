// Pieces give back the cells that they were made of, and words give cells by the kind of the column.
ghost use Rattle.std.specs.Bool.{OnTrue};
ghost use Rattle.std.specs.Prelude.{◌≡◌, ◌<◌, ◌*◌, length};
ghost use Rattle.piece_format.specs.Cells.{IsTableOf};
ghost use Rattle.piece_format.specs.Reading.{HasColumn};
ghost use Rattle.piece_format.specs.Shape.{IsPieceOf, IsShape, words_in};

use crate::example::{CELLS, Example, MINUS_5, cut, cut_seventy};
use crate::pieces::{checked, words_of};
use piece_format::{Layout, Piece, Shape, cell_of, groups, piece_words, word_at, words_to_bytes};
use std::alloc::Global;
use std::process::Abort;
use std::test::Fail;
use table_core::{Bytes, Cell, Kind, Table};
use table_pieces::chunks_of;

// The cell of a row and a column that the piece has, from the words at its places.
fn cell_in(shape: &Shape, piece: Piece, bytes: &[u8], row: u32, column: u32) -> Cell
    requires shape { IsShape shape.now }
    requires piece { IsPieceOf shape.now piece }
    requires bytes { length bytes.now ≡ 8 * words_in piece }
    requires row { row < piece.rows }
    requires column { HasColumn piece column }
{
    let nulls = word_at(bytes, piece.null_place(row));
    let null = nulls >> piece.null_bit(row, column) & 1 == 1;
    let word = word_at(bytes, piece.value_place(row, column));
    let column = column as usize;
    cell_of(shape.kinds[column], shape.dict_lens[column], null, word)
}

// Whether the piece has a column.
fn has_column(piece: Piece, column: u32) -> bool
    ensures { OnTrue result (HasColumn piece column) }
{
    match piece.layout {
        Layout::Row => column < piece.columns,
        Layout::Column => column == piece.group,
    }
}

// The cell of a row and a column of a table, if they are there.
fn cell_of_table(table: &Table, row: usize, column: usize) -> Option<Cell> {
    if row < table.len() && column < table.schema().len() {
        return Some(table.cell(row, column));
    }
    None
}

// Whether each cell of a row that the piece has comes back from its bytes, as it stands in a row of the table.
fn come_back(
    shape: &Shape,
    piece: Piece,
    bytes: &[u8],
    row: u32,
    table: &Table,
    place: usize,
) -> bool
    requires shape { IsShape shape.now }
    requires piece { IsPieceOf shape.now piece }
    requires bytes { length bytes.now ≡ 8 * words_in piece }
    requires row { row < piece.rows }
{
    for column in 0..piece.columns {
        if has_column(piece, column) {
            let cell = cell_in(shape, piece, bytes, row, column);
            if cell_of_table(table, place, column as usize) != Some(cell) {
                return false;
            }
        }
    }
    true
}

// How many rows a piece has.
fn rows_of(rt: &impl Abort, shape: &Shape, piece: u32) -> u32
    requires { IsShape shape.now }
{
    assert!(rt; piece < chunks_of(shape) * groups(shape));
    Piece::of(shape, piece).rows
}

// Whether a row of the piece comes back from its bytes, as it stands in the table.
fn row_comes_back(rt: &impl Abort, cut: &Example, piece: u32, bytes: &[u8], row: u32) -> bool
    requires { IsShape cut.now.shape }
{
    let shape = &cut.shape;
    assert!(rt; piece < chunks_of(shape) * groups(shape));
    assert!(rt; bytes.len() == 8 * piece_words(shape, piece) as usize);
    let part = Piece::of(shape, piece);
    assert!(rt; row < part.rows);
    let first = (piece / groups(shape)).saturating_mul(shape.per);
    let place = first.saturating_add(row) as usize;
    come_back(shape, part, bytes, row, &cut.table, place)
}

// The bytes of a piece, which are found to be sound.
fn sound_bytes(rt: &impl Abort, alloc: Global, cut: &Example, piece: u32) -> Result<Bytes, Fail>
    requires shape { IsShape cut.now.shape }
    requires table { IsTableOf cut.now.shape cut.now.table }
{
    let words = words_of(rt, alloc, cut, piece)?;
    let bytes = words_to_bytes(alloc, words.as_slice())?;
    assert!(rt; checked(rt, &cut.shape, piece, bytes.as_slice()).is_ok());
    Ok(bytes)
}

// Each row of a piece is read from its bytes.
fn read_back(rt: &impl Abort, alloc: Global, cut: &Example, piece: u32) -> Result<(), Fail>
    requires shape { IsShape cut.now.shape }
    requires table { IsTableOf cut.now.shape cut.now.table }
{
    let bytes = sound_bytes(rt, alloc, cut, piece)?;
    for row in 0..rows_of(rt, &cut.shape, piece) {
        assert!(rt; row_comes_back(rt, cut, piece, bytes.as_slice(), row));
    }
    Ok(())
}

const LAYOUTS: &[Layout] = &[Layout::Row, Layout::Column];

// Each row of each piece is read from its bytes, with so many rows in a chunk.
fn read_all_back(rt: &impl Abort, alloc: Global, layout: Layout, per: u32) -> Result<(), Fail> {
    let cut = cut(rt, alloc, &CELLS, layout, per)?;
    for piece in 0..chunks_of(&cut.shape) * groups(&cut.shape) {
        read_back(rt, alloc, &cut, piece)?;
    }
    Ok(())
}

#[test]
fn pieces_give_back_their_cells(rt: HostRuntime) -> Result<(), Fail> {
    for layout in LAYOUTS {
        for per in [1, 2, 3, 5, 9] {
            read_all_back(&rt, rt.alloc(), *layout, per)?;
        }
    }
    Ok(())
}

const DEC: Kind = Kind::Dec { places: 2 };

fn read_seventy_back(rt: &impl Abort, alloc: Global, layout: Layout) -> Result<(), Fail> {
    let cut = cut_seventy(rt, alloc, DEC, layout, 70)?;
    read_back(rt, alloc, &cut, 0)
}

#[test]
fn long_pieces_give_back_their_cells(rt: HostRuntime) -> Result<(), Fail> {
    for layout in LAYOUTS {
        read_seventy_back(&rt, rt.alloc(), *layout)?;
    }
    Ok(())
}

// A kind, whether the place is marked as NULL, a word, and its cell in a column of three texts.
type Given = (Kind, bool, u64, Cell);

const READ: &[Given] = &[
    (Kind::Int, false, MINUS_5, Cell::Int(-5)),
    (Kind::Int, false, 9223372036854775808, Cell::Int(i64::MIN)),
    (Kind::Int, true, 0, Cell::Null),
    (DEC, false, 250, Cell::Int(250)),
    (DEC, true, 7, Cell::Null),
    (Kind::Text, false, 2, Cell::Code(2)),
    (Kind::Text, false, 3, Cell::Null),
    (Kind::Text, false, 4294967296, Cell::Null),
    (Kind::Text, true, 0, Cell::Null),
];

fn expect_cells(rt: &impl Abort, rows: &[Given]) {
    for (kind, null, word, cell) in rows {
        assert!(rt; cell_of(*kind, 3, *null, *word) == *cell, "{word}");
    }
}

#[test]
fn words_give_cells_by_the_kind(rt: HostRuntime) {
    expect_cells(&rt, READ);
}
