// The shape of a table.
ghost use Rattle.std.specs.Prelude.{◌≡◌, ◌≤◌, IfOk, length, map};
ghost use Rattle.piece_format.specs.Cells.{IsTableOf};
ghost use Rattle.piece_format.specs.Shape.{IsShape, chunks};
ghost use Rattle.table_core.specs.declared.schema.Column.{Column as ColumnOf};
ghost use Rattle.table_pieces.specs.Shaping as spec;

use piece_format::{Layout, Shape};
use std::alloc::Global;
use table_core::{Column, Dict, Kind, MOST_CHUNKS, Memory, Table, chunk_count};

// The kind of each column.
fn kinds_of(alloc: Global, columns: &[Column]) -> Result<Vec<Kind>, Memory>
    ensures { IfOk result (λ kinds. kinds.items ≡ map (λ (c : ColumnOf). c.kind) columns.now) }
{
    let mut kinds = Vec::new(alloc);
    for column in columns {
        kinds.push(column.kind)?;
    }
    Ok(kinds)
}

// How many texts each dictionary has.
fn lens_of(alloc: Global, dicts: &[Dict]) -> Result<Vec<u32>, Memory>
    ensures { IfOk result (λ lens. lens.items ≡ map length dicts.now) }
{
    let mut lens = Vec::new(alloc);
    for dict in dicts {
        lens.push(dict.len())?;
    }
    Ok(lens)
}

/// How a table is cut into pieces of a layout, with so many rows in each chunk but the last.
///
/// There is a dictionary for each column, without texts where the column has none. The limits are those of shapes: 1 to
/// `MOST_COLUMNS` columns, 1 to `MOST_CHUNK_ROWS` rows in a chunk, at most `MOST_ROWS` rows and `MOST_CHUNKS` chunks.
/// Where each cell of the table is one that its column may have, the table is one of this shape.
pub fn shape_of(
    alloc: Global,
    table: &Table,
    dicts: &[Dict],
    layout: Layout,
    per: u32,
) -> Result<Shape, Memory>
    requires limits { IsShape (spec.shape_of table.now dicts.now layout per) }
    ensures shape { IfOk result (λ s. s ≡ spec.shape_of table.now dicts.now layout per) }
    ensures limits { IfOk result (λ s. IsShape s) }
    ensures table { IfOk result (λ s. spec.FitsDicts table.now dicts.now → IsTableOf s table.now) }
{
    let kinds = kinds_of(alloc, table.schema().columns())?;
    let dict_lens = lens_of(alloc, dicts)?;
    Ok(Shape {
        layout,
        kinds,
        dict_lens,
        rows: table.len() as u32,
        per,
    })
}

/// How many chunks the table has, at most `MOST_CHUNKS`. It takes no memory.
pub fn chunks_of(shape: &Shape) -> u32
    requires { IsShape shape.now }
    ensures chunks { result ≡ chunks shape.now }
    ensures few { result ≤ MOST_CHUNKS }
{
    chunk_count(shape.rows, shape.per)
}
