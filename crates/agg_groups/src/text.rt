// The text of result rows.
ghost use Rattle.std.specs.Prelude.{◌≡◌, ◌≤◌, ◌<◌, ℕ, List, length, map, All, IfOk};
ghost use Rattle.table_core.specs.declared.cell.Cell.{Cell};
ghost use Rattle.table_core.specs.Value.{places_of};
ghost use Rattle.table_core.specs.Answer.{AreCellsOf, IsColumn, answer, kinds_of, values_of};
ghost use Rattle.query_meaning.specs.GroupText as spec;

use crate::rows::Rows;
use query_meaning::Item;
use std::alloc::{AllocError, Global};
use table_core::{Bytes, Dict, MOST_PLACES, Memory, Schema, text_of_answer};

// The column in which the cell of an item is read; a count has none.
fn column_of(keys: &[u32], item: Item) -> Option<u32>
    ensures { result ≡ spec.column_of keys.now item }
{
    match item {
        Item::CountAll | Item::Count(_) => None,
        Item::Sum(x) | Item::Min(x) | Item::Max(x) => Some(x),
        Item::Key(place) => keys.get(place as usize).copied(),
    }
}

fn columns_of(alloc: Global, keys: &[u32], items: &[Item]) -> Result<Vec<Option<u32>>, AllocError>
    ensures { IfOk result (λ columns. columns.items ≡ spec.columns_of keys.now items.now) }
{
    items.iter().map(|i| column_of(keys, *i)).collect(alloc)
}

/// The text of an answer: the line `query` with its number, then a line for each result row.
///
/// A cell is written by its item's column: counts as whole numbers, numbers of a DEC column with their places, texts in
/// quotes.
pub fn rows_text(
    alloc: Global,
    query: u32,
    items: &[Item],
    keys: &[u32],
    schema: &Schema,
    dicts: &[Dict],
    rows: &Rows,
) -> Result<Bytes, Memory>
    requires columns { All (IsColumn (length schema.now)) (spec.columns_of keys.now items.now) }
    requires dicts { length dicts.now ≡ length schema.now }
    requires places { All (λ c. places_of c.kind ≤ MOST_PLACES) schema.now }
    requires cells { All (AreCellsOf (spec.columns_of keys.now items.now) dicts.now) rows.now }
    ensures { IfOk result (λ text. text ≡ answer query (kinds_of schema.now (spec.columns_of keys.now items.now))
        (map (values_of dicts.now (spec.columns_of keys.now items.now)) rows.now)) }
{
    let columns = columns_of(alloc, keys, items)?;
    text_of_answer(alloc, query, &columns, schema, dicts, rows.as_slice())
}
