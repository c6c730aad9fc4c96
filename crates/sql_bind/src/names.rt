// Names as columns.
ghost use Rattle.std.specs.Prelude.{◌≡◌, ◌≤◌, length};
ghost use Rattle.sql_bind.specs.Names as spec;

use table_core::{Column, Kind, MOST_COLUMNS};

// Whether the column has this name.
fn is_called(name: &[u8], column: &Column) -> bool
    ensures { result ≡ spec.is_called name.now column.now }
{
    column.name.as_slice() == name
}

/// The number of the first column of this name; where none has it, the number of columns.
pub fn column_of(columns: &[Column], name: &[u8]) -> u32
    requires { length columns.now ≤ MOST_COLUMNS }
    ensures { result ≡ spec.column_of columns.now name.now }
{
    let mut left = columns;
    let mut number = 0;
    while let [column, rest @ ..] = left {
        if is_called(name, column) {
            return number;
        }
        number += 1;
        left = rest;
    }
    number
}

/// The kind of the first column of this name, if there is one.
pub fn kind_of(columns: &[Column], name: &[u8]) -> Option<Kind>
    ensures { result ≡ spec.kind_of columns.now name.now }
{
    columns
        .iter()
        .find(|column| is_called(name, column))
        .map(|column| column.kind)
}
