// Counting over the rows of a column.
ghost use Rattle.std.specs.Prelude.{◌≡◌, ◌<◌, ◌≤◌, [], All, IfNone, IfSome, length, slice_index_or, is_some, false};
ghost use Rattle.filter_zones.specs.Truth.{cell_at};
ghost use Rattle.table_core.specs.Value.{IsCellOf, value_in};
ghost use Rattle.table_core.specs.declared.cell.Cell.TheVariants.{Code};
ghost use Rattle.table_sets.specs.declared.limits.TheConstants.{MOST_ROWS};
ghost use Rattle.inspect_notes.specs.Values as values;
ghost use Rattle.inspect_notes.specs.Reasons as spec;

use crate::number::spells_number;
use table_core::{Cell, Dict, MOST_ROWS, Table};

// The cell of a row in a column.
fn cell_in(table: &Table, row: usize, column: usize) -> Cell
    requires there { row < length table.now.rows }
    requires wide { All (λ row. column < length row) table.now.rows }
    ensures { result ≡ cell_at (slice_index_or table.now.rows row []) column }
{
    table.rows_are_whole();
    table.cell(row, column)
}

fn is_null(cell: Cell, dict: &Dict) -> bool
    ensures { result ≡ values.is_none (value_in dict.now cell) }
{
    matches!(cell, Cell::Null)
}

/// How many rows have no value in a column with this dictionary.
pub(crate) fn nulls_in(table: &Table, dict: &Dict, column: usize) -> u32
    requires few { length table.now.rows ≤ MOST_ROWS }
    requires wide { All (λ row. column < length row) table.now.rows }
    ensures nulls { result ≡ values.nulls_in (values.column_values dict.now column table.now.rows) }
    ensures within { result ≤ length table.now.rows }
{
    let mut count = 0;
    for row in 0..table.len() {
        if is_null(cell_in(table, row, column), dict) {
            count += 1;
        }
    }
    count
}

// The code of a cell whose text spells no number.
fn stranger(cell: Cell, dict: &Dict) -> Option<u32>
    requires { IsCellOf dict.now cell }
    ensures is { is_some result ≡ spec.is_stranger (value_in dict.now cell) }
    ensures code { IfSome result (λ code. cell ≡ Code code) }
{
    match cell {
        Cell::Code(code) => {
            if spells_number(dict.text_of(code)) {
                return None;
            }
            return Some(code);
        }
        Cell::Null | Cell::Int(_) => return None,
    }
}

/// How many rows have a text that spells no number.
pub(crate) fn strangers_in(table: &Table, dict: &Dict, column: usize) -> u32
    requires few { length table.now.rows ≤ MOST_ROWS }
    requires wide { All (λ row. column < length row) table.now.rows }
    requires cells { All (λ row. IsCellOf dict.now (cell_at row column)) table.now.rows }
    ensures { result ≡ spec.strangers_in (values.column_values dict.now column table.now.rows) }
{
    let mut count = 0;
    for row in 0..table.len() {
        if stranger(cell_in(table, row, column), dict).is_some() {
            count += 1;
        }
    }
    count
}

/// The row of the first text that spells no number, counted from 1, and its code.
pub(crate) fn first_stranger(table: &Table, dict: &Dict, column: usize) -> Option<(u32, u32)>
    requires few { length table.now.rows ≤ MOST_ROWS }
    requires wide { All (λ row. column < length row) table.now.rows }
    requires cells { All (λ row. IsCellOf dict.now (cell_at row column)) table.now.rows }
    ensures none { IfNone result (All (λ v. spec.is_stranger v ≡ false)
        (values.column_values dict.now column table.now.rows)) }
    ensures first { IfSome result (λ p. spec.IsFirstStranger dict.now
        (values.column_values dict.now column table.now.rows) p.0 p.1) }
{
    for row in 0..table.len() {
        if let Some(code) = stranger(cell_in(table, row, column), dict) {
            return Some((row as u32 + 1, code));
        }
    }
    None
}
