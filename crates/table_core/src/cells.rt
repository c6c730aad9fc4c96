// The cells of one column.
ghost use Rattle.std.specs.Prelude.{◌≡◌, ◌<◌, length, slice_index_or};
ghost use Rattle.table_core.specs.Columns.{code_cell, column_cells, number_cell};
ghost use Rattle.table_core.specs.declared.cell.Cell.TheVariants.{Null};

use crate::cell::Cell;
use crate::codes::Codes;
use crate::numbers::Numbers;

/// The cells of one column from top to bottom. `column_cells` is their list.
#[derive(Drop)]
pub enum Cells {
    /// Numbers, or NULL where there is none.
    Numbers(Numbers),
    /// Codes of texts in the column's dictionary, or NULL where there is none.
    Codes(Codes),
}

// A number, or NULL.
fn number_cell(number: Option<i64>) -> Cell
    ensures { result ≡ number_cell number }
{
    match number {
        None => Cell::Null,
        Some(number) => Cell::Int(number),
    }
}

// A code, or NULL.
fn code_cell(code: Option<u32>) -> Cell
    ensures { result ≡ code_cell code }
{
    match code {
        None => Cell::Null,
        Some(code) => Cell::Code(code),
    }
}

impl Cells {
    /// How many cells there are.
    pub fn len(&self) -> usize
        ensures { result ≡ length (column_cells self.now) }
    {
        match self {
            Cells::Numbers(numbers) => numbers.len(),
            Cells::Codes(codes) => codes.len(),
        }
    }

    /// The cell at a place.
    pub fn get(&self, place: usize) -> Cell
        requires { place < length (column_cells self.now) }
        ensures { result ≡ slice_index_or (column_cells self.now) place Null }
    {
        match self {
            Cells::Numbers(numbers) => number_cell(numbers.get(place)),
            Cells::Codes(codes) => code_cell(codes.get(place)),
        }
    }
}
