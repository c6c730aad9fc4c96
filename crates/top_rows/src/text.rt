// The text of picked rows.
ghost use Rattle.std.specs.Prelude.{◌≡◌, ◌≤◌, ◌<◌, length, map, All, IfOk};
ghost use Rattle.table_core.specs.Value.{places_of};
ghost use Rattle.table_core.specs.Answer.{AreCellsOf, IsColumn, answer, kinds_of, values_of};
ghost use Rattle.query_meaning.specs.RowText as spec;

use crate::Picked;
use std::alloc::{AllocError, Global};
use table_core::{Bytes, Dict, Memory, Schema, text_of_answer};

fn columns_of(alloc: Global, columns: &[u32]) -> Result<Vec<Option<u32>>, AllocError>
    ensures { IfOk result (λ places. places.items ≡ spec.columns_of columns.now) }
{
    columns.iter().map(|x| Some(*x)).collect(alloc)
}

/// The text of an answer: the line `query` with its number, then a line for each picked row.
///
/// `columns` has for each cell of a row its column in the schema. Numbers of a DEC column are written with their
/// places, texts in quotes.
pub fn picked_text(
    alloc: Global,
    query: u32,
    columns: &[u32],
    schema: &Schema,
    dicts: &[Dict],
    picked: &Picked,
) -> Result<Bytes, Memory>
    requires columns { All (IsColumn (length schema.now)) (spec.columns_of columns.now) }
    requires dicts { length dicts.now ≡ length schema.now }
    requires places { All (λ c. places_of c.kind ≤ 9) schema.now }
    requires cells { All (AreCellsOf (spec.columns_of columns.now) dicts.now) picked.now }
    ensures { IfOk result (λ text. text ≡ answer query (kinds_of schema.now (spec.columns_of columns.now))
        (map (values_of dicts.now (spec.columns_of columns.now)) picked.now)) }
{
    let places = columns_of(alloc, columns)?;
    text_of_answer(alloc, query, &places, schema, dicts, picked.as_slice())
}
