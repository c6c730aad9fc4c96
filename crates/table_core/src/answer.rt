// The text of an answer.
ghost use Rattle.std.specs.Prelude.{◌≡◌, ◌≤◌, ◌<◌, ◌++◌, ◌∷◌, ℕ, List, [], length, map};
ghost use Rattle.std.specs.Prelude.{drop, All, Some, None, IfOk, OnOk, codes, decimal};
ghost use Rattle.std.specs.List.{flat_map};
ghost use Rattle.table_core.specs.declared.cell.Cell.{Cell};
ghost use Rattle.table_core.specs.declared.schema.Column.{Column};
ghost use Rattle.table_core.specs.declared.schema.Kind.TheVariants.{Int};
ghost use Rattle.table_core.specs.Value.{IsCellOf, places_of, value_text, value_in, zip_with};
ghost use Rattle.table_core.specs.Lists.{lists};
ghost use Rattle.table_core.specs.Answer.{AreCellsOf, IsColumn, answer, dict_at, joined};
ghost use Rattle.table_core.specs.Answer.{kind_at, kinds_of, more_joined, row_line, values_of};

use crate::bytes::Bytes;
use crate::cell::Cell;
use crate::dict::Dict;
use crate::schema::{Column, Schema};
use crate::value_text::{write_number, write_quoted, write_value};
use itoa::Buffer;
use std::alloc::Global;
use table_sets::Memory;

// Puts the text of a cell without a column, as a count, at the end.
fn write_plain(out: &mut Bytes, cell: Cell) -> Result<(), Memory>
    ensures { OnOk result (out.new ≡ out.old ++ value_text Int (value_in [] cell)) }
{
    match cell {
        Cell::Null => {
            out.append(b"NULL")?;
            Ok(())
        }
        Cell::Int(number) => write_number(out, number as i128, 0),
        Cell::Code(_) => write_quoted(out, b""),
    }
}

// Puts the text of a cell at the end.
fn write_cell(
    out: &mut Bytes,
    column: Option<u32>,
    columns: &[Column],
    dicts: &[Dict],
    cell: Cell,
) -> Result<(), Memory>
    requires column { IsColumn (length columns.now) column }
    requires dicts { length dicts.now ≡ length columns.now }
    requires places { All (λ c. places_of c.kind ≤ 9) columns.now }
    requires cell { IsCellOf (dict_at dicts.now column) cell }
    ensures { OnOk result (out.new ≡ out.old ++ value_text (kind_at columns.now column)
        (value_in (dict_at dicts.now column) cell)) }
{
    match column {
        None => write_plain(out, cell),
        Some(place) => {
            let place = place as usize;
            write_value(out, columns[place].kind, &dicts[place], cell)
        }
    }
}

// Puts the texts of cells at the end, each behind a comma and a space.
fn write_more(
    out: &mut Bytes,
    places: &[Option<u32>],
    columns: &[Column],
    dicts: &[Dict],
    row: &[Cell],
) -> Result<(), Memory>
    requires columns { All (IsColumn (length columns.now)) places.now }
    requires dicts { length dicts.now ≡ length columns.now }
    requires places { All (λ c. places_of c.kind ≤ 9) columns.now }
    requires cells { AreCellsOf places.now dicts.now row.now }
    ensures { OnOk result (out.new ≡ out.old ++ more_joined
        (zip_with value_text (kinds_of columns.now places.now) (values_of dicts.now places.now row.now))) }
{
    for i in 0..row.len() {
        out.append(b", ")?;
        write_cell(out, places[i], columns, dicts, row[i])?;
    }
    Ok(())
}

// Puts the line of a row at the end.
fn write_row(
    out: &mut Bytes,
    places: &[Option<u32>],
    columns: &[Column],
    dicts: &[Dict],
    row: &[Cell],
) -> Result<(), Memory>
    requires columns { All (IsColumn (length columns.now)) places.now }
    requires dicts { length dicts.now ≡ length columns.now }
    requires places { All (λ c. places_of c.kind ≤ 9) columns.now }
    requires cells { AreCellsOf places.now dicts.now row.now }
    ensures { OnOk result (out.new ≡ out.old ++ row_line (kinds_of columns.now places.now)
        (values_of dicts.now places.now row.now)) }
{
    if !row.is_empty() {
        write_cell(out, places[0], columns, dicts, row[0])?;
        write_more(out, &places[1..], columns, dicts, &row[1..])?;
    }
    out.append(b"\n")?;
    Ok(())
}

// Puts the line that names the query at the end.
fn write_head(out: &mut Bytes, query: u32) -> Result<(), Memory>
    ensures { OnOk result (out.new ≡ out.old ++ ((codes "query " ++ decimal query) ++ 10 ∷ [])) }
{
    let mut buffer = Buffer::new();
    out.append(b"query ")?;
    out.append(buffer.format(query).as_bytes())?;
    out.append(b"\n")?;
    Ok(())
}

/// The text of an answer to the query of this number: the line that names it, and a line for each row.
///
/// `places` has for each cell of a row its column in the schema, or none for a count.
pub fn text_of_answer(
    alloc: Global,
    query: u32,
    places: &[Option<u32>],
    schema: &Schema,
    dicts: &[Dict],
    rows: &[Vec<Cell>],
) -> Result<Bytes, Memory>
    requires columns { All (IsColumn (length schema.now)) places.now }
    requires dicts { length dicts.now ≡ length schema.now }
    requires places { All (λ c. places_of c.kind ≤ 9) schema.now }
    requires cells { All (AreCellsOf places.now dicts.now) (lists rows.now) }
    ensures { IfOk result (λ text. text ≡ answer query (kinds_of schema.now places.now)
        (map (values_of dicts.now places.now) (lists rows.now))) }
{
    let mut out = Bytes::new(Vec::new(alloc));
    write_head(&mut out, query)?;
    for row in rows {
        write_row(&mut out, places, schema.columns(), dicts, row)?;
    }
    Ok(out)
}
