// Whole rows, read from frames that a berth pins.
ghost use Rattle.std.specs.Prelude.{◌≡◌, ◌<◌, length};
ghost use Rattle.piece_format.specs.Shape.{IsShape, chunk_of, chunks, frame_words, rows_in};
ghost use Rattle.piece_format.specs.declared.layout.Layout.TheVariants as layouts;
ghost use Rattle.frame_rows.specs.Framed.{ArePinned, IsFramed};
ghost use Rattle.frame_rows.specs.Rows.{AreForPlaces, AreForSlots, AreOfColumns};

use crate::cells::{cell_for, nulls_of};
use crate::framed::Framed;
use crate::given::Given;
use frame_pool::{Berth, Content, Pool};
use piece_format::Shape;
use table_core::{Cell, ColumnSet};

/// Reads a row of a framed piece in the row layout. The word with the row's null bits is read once.
pub fn read_columns<C: Content>(
    pool: &Pool<C>,
    shape: &Shape,
    berth: &mut Berth<C>,
    framed: Framed,
    row: u32,
    columns: &ColumnSet,
    cells: &mut [Cell],
)
    requires shape { IsShape shape.now }
    requires layout { shape.now.layout ≡ layouts.Row }
    requires framed { IsFramed shape.now pool.now berth.old framed }
    requires row { row < framed.piece.rows }
    requires width { length cells.old ≡ length shape.now.kinds }
    ensures same { berth.new ≡ berth.old }
    ensures width { length cells.new ≡ length cells.old }
    ensures read { AreForPlaces C.pieces shape.now (chunk_of shape.now framed.number) row columns.now
        (length cells.old) cells.new }
{
    let nulls = nulls_of(pool, shape, berth, framed, row);
    for x in 0..cells.len() as u32 {
        cells[x as usize] = cell_for(pool, shape, berth, framed, nulls, row, columns, x);
    }
}

/// Reads a row of a chunk in the column layout: the cells of the columns in its slots, one after another.
pub fn read_slots<C: Content>(
    pool: &Pool<C>,
    shape: &Shape,
    berth: &mut Berth<C>,
    given: &Given,
    row: u32,
    columns: &ColumnSet,
    cells: &mut [Cell],
)
    requires shape { IsShape shape.now }
    requires layout { shape.now.layout ≡ layouts.Column }
    requires chunk { given.now.chunk < chunks shape.now }
    requires rows { given.now.rows ≡ rows_in shape.now given.now.chunk }
    requires pinned { ArePinned pool.now berth.old given.now.slots }
    requires room { pool.now.shape.words ≡ frame_words shape.now }
    requires columns { AreOfColumns shape.now given.now.chunk given.now.slots }
    requires row { row < given.now.rows }
    requires width { length cells.old ≡ length shape.now.kinds }
    ensures same { berth.new ≡ berth.old }
    ensures width { length cells.new ≡ length cells.old }
    ensures read { AreForSlots C.pieces shape.now given.now.chunk row columns.now given.now.slots
        (length given.now.slots) cells.new }
{
    let first = given.chunk * cells.len() as u32;
    cells.fill(Cell::Null);
    for i in 0..given.slots.len() {
        let slot = given.slots.at(i);
        let column = slot.1 - first;
        let framed = Framed::of(shape, slot, given.rows, column);
        let nulls = nulls_of(pool, shape, berth, framed, row);
        cells[column as usize] = cell_for(pool, shape, berth, framed, nulls, row, columns, column);
    }
}
