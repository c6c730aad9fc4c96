// What calls ask of a table, tested.
ghost use Rattle.std.specs.Prelude.{◌≡◌, ◌<◌, ◌-◌, ℕ, [], length, slice_index_or, false};
ghost use Rattle.std.specs.Bool.{OnTrue};
ghost use Rattle.std.specs.Ordering.{is_gt};
ghost use Rattle.piece_format.specs.Cells.{cell_at};
ghost use Rattle.piece_format.specs.Shape.{IsShape};
ghost use Rattle.table_core.specs.Fitting.{kind_at};
ghost use Rattle.table_core.specs.Dict.{text_cmp};
ghost use Rattle.table_core.specs.Columns.{AreColumnsOf};
ghost use Rattle.table_core.specs.Value.{FitsColumn};
ghost use Rattle.table_pieces.specs.Shaping.{FitsDicts, shape_of};

use piece_format::{Layout, Shape};
use table_core::{
    Cell, Cells, Column, Dict, Kind, MOST_CHUNK_ROWS, MOST_CHUNKS, MOST_COLUMNS, MOST_ROWS, Table,
    chunk_count,
};

// Whether the shape is within the limits.
pub(crate) fn is_shape(shape: &Shape) -> bool
    ensures { OnTrue result (IsShape shape.now) }
{
    let columns = shape.kinds.len();
    if columns < 1 || columns > MOST_COLUMNS as usize || shape.dict_lens.len() != columns {
        return false;
    }
    if shape.per < 1 || shape.per > MOST_CHUNK_ROWS || shape.rows > MOST_ROWS {
        return false;
    }
    chunk_count(shape.rows, shape.per) <= MOST_CHUNKS
}

// Whether the table has a shape within the limits.
pub(crate) fn has_shape(table: &Table, dicts: &[Dict], layout: Layout, per: u32) -> bool
    ensures { OnTrue result (IsShape (shape_of table.now dicts.now layout per)) }
{
    let columns = table.schema().len();
    if columns < 1 || columns > MOST_COLUMNS as usize || dicts.len() != columns {
        return false;
    }
    if per < 1 || per > MOST_CHUNK_ROWS || table.len() > MOST_ROWS as usize {
        return false;
    }
    chunk_count(table.len() as u32, per) <= MOST_CHUNKS
}

fn fits_column(kind: Kind, dict: &Dict, cell: Cell) -> bool
    ensures { OnTrue result (FitsColumn kind dict.now cell) }
{
    match (kind, cell) {
        (_, Cell::Null) => true,
        (Kind::Text, Cell::Code(code)) => code < dict.len(),
        (Kind::Int, Cell::Int(_)) => true,
        (Kind::Dec { places: _ }, Cell::Int(_)) => true,
        _ => false,
    }
}

fn fits_row(columns: &[Column], dicts: &[Dict], table: &Table, row: usize) -> bool
    requires columns { columns.now ≡ table.now.columns }
    requires row { row < length table.now.rows }
    ensures { OnTrue result ((x : ℕ) → x < length columns.now
        → FitsColumn (kind_at columns.now x) (slice_index_or dicts.now x []) (cell_at table.now.rows row x)) }
{
    if dicts.len() != columns.len() {
        return false;
    }
    for x in 0..columns.len() {
        if !fits_column(columns[x].kind, &dicts[x], table.cell(row, x)) {
            return false;
        }
    }
    true
}

// Whether each cell is one that its column may have.
pub(crate) fn fits_dicts(table: &Table, dicts: &[Dict]) -> bool
    ensures { OnTrue result (FitsDicts table.now dicts.now) }
{
    for row in 0..table.len() {
        if !fits_row(table.schema().columns(), dicts, table, row) {
            return false;
        }
    }
    true
}

// Whether there are so many columns, at least one, each so long.
pub(crate) fn are_columns(width: usize, rows: usize, columns: &[Cells]) -> bool
    ensures { OnTrue result (AreColumnsOf width rows columns.now) }
{
    if width == 0 || columns.len() != width {
        return false;
    }
    for column in columns {
        if column.len() != rows {
            return false;
        }
    }
    true
}

// Whether the text may stand at the end of the dictionary.
pub(crate) fn can_follow(dict: &Dict, text: &[u8]) -> bool
    ensures { OnTrue result (0 < length dict.now
        → is_gt (text_cmp (slice_index_or dict.now (length dict.now - 1) []) text.now) ≡ false) }
{
    let len = dict.len();
    if len == 0 {
        return true;
    }
    !dict.text_of(len - 1).cmp(text).is_gt()
}
