// A table: a schema and cells column by column.
ghost use Rattle.std.specs.Prelude.{◌≡◌, ◌<◌, ℕ, All, length, slice_index_or, []};
ghost use Rattle.table_core.specs.Columns.{AreColumnsOf, column_cells, row_of_columns, rows_of_columns};
ghost use Rattle.table_core.specs.Table.{TableRows};
ghost use Rattle.table_core.specs.declared.cell.Cell.TheVariants.{Null};

use crate::cell::Cell;
use crate::cells::Cells;
use crate::schema::Schema;
use std::marker::Model;

/// A table, seen as its columns and the list of its rows.
///
/// The cells stand column by column, and each row has one cell for each column.
#[derive(Drop)]
pub struct Table {
    schema: Schema,
    columns: Vec<Cells>,
    rows: usize,
}

impl Model for Table {
    ghost Value = { TableRows };

    ghost view = { λ t. record { columns = t.schema; rows = rows_of_columns t.rows t.columns.items } };

    ghost invariant = { λ t. AreColumnsOf (length t.schema) t.rows t.columns.items };
}

// The cells of a row, one for each column.
fn read_row(columns: &[Cells], row: usize, into: &mut [Cell])
    requires width { length into.old ≡ length columns.now }
    requires there { All (λ column. row < length (column_cells column)) columns.now }
    ensures { into.new ≡ row_of_columns columns.now row }
{
    for place in 0..into.len() {
        into[place] = columns[place].get(row);
    }
}

impl Table {
    /// A table of these columns, each with so many cells; without columns there are no rows.
    pub fn new(schema: Schema, columns: Vec<Cells>, rows: usize) -> Self
        requires { AreColumnsOf (length schema) rows columns.items }
        ensures columns { result.columns ≡ schema }
        ensures rows { result.rows ≡ rows_of_columns rows columns.items }
    {
        Table {
            schema,
            columns,
            rows,
        }
    }

    /// The columns.
    pub fn schema(&self) -> &Schema
        ensures { result.now ≡ self.now.columns }
    {
        &self.schema
    }

    /// The columns, of a table whose cells are let go.
    pub fn into_schema(self) -> Schema
        ensures { result ≡ self.columns }
    {
        let Table { schema, .. } = self;
        schema
    }

    /// How many rows there are.
    pub fn len(&self) -> usize
        ensures { result ≡ length self.now.rows }
    {
        self.rows
    }

    /// The cell of a row and a column, both counted from 0.
    pub fn cell(&self, row: usize, column: usize) -> Cell
        requires row { row < length self.now.rows }
        requires column { column < length self.now.columns }
        ensures { result ≡ slice_index_or (slice_index_or self.now.rows row []) column Null }
    {
        self.columns[column].get(row)
    }

    /// Reads a row, counted from 0, which has a place for each column.
    pub fn row(&self, row: usize, into: &mut [Cell])
        requires there { row < length self.now.rows }
        requires width { length into.old ≡ length self.now.columns }
        ensures { into.new ≡ slice_index_or self.now.rows row [] }
    {
        read_row(self.columns.as_slice(), row, into);
    }

    /// The cells of a column, counted from 0, from the first row to the last.
    pub fn column(&self, column: usize) -> &Cells
        requires { column < length self.now.columns }
        ensures len { length (column_cells result.now) ≡ length self.now.rows }
        ensures cells { (row : ℕ) → row < length self.now.rows → slice_index_or (column_cells result.now) row Null
            ≡ slice_index_or (slice_index_or self.now.rows row []) column Null }
    {
        &self.columns[column]
    }
    /// Each row has one cell for each column: a law, for proofs. It does nothing.
    pub fn rows_are_whole(&self)
        ensures { All (λ row. length row ≡ length self.now.columns) self.now.rows }
    {
        let _rows = self.rows;
    }
}
