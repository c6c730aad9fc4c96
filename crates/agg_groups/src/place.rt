// The group met last, which is tried first, and keys met lately.
ghost use Rattle.std.specs.Prelude.{◌≡◌, ◌<◌, ◌↔◌, ℕ, length, map, All, Contains, IsTrue, OnErr, IfOk};
ghost use Rattle.query_meaning.specs.Cells.{codes};
ghost use Rattle.query_meaning.specs.Meaning.{key_of, cell};
ghost use Rattle.agg_groups.specs.Table.{IsPlaceFor, IsReady, names};

use crate::met::Met;
use crate::table::GroupTable;
use query_meaning::Item;
use table_core::{Cell, Memory};

/// The group that the last row belongs to: its key, as long as the key columns, and its place if that is known. And
/// keys that were met lately in blocks.
#[derive(Drop)]
pub(crate) struct Last {
    pub(crate) key: Vec<Cell>,
    pub(crate) place: Option<usize>,
    pub(crate) met: Vec<Option<Met>>,
}

pub(crate) fn is_cell(a: Cell, b: Cell) -> bool
    ensures { IsTrue result → a ≡ b }
{
    a == b
}

// Whether the row has the key.
fn has_key(key: &[Cell], keys: &[u32], row: &[Cell]) -> bool
    requires same { length key.now ≡ length keys.now }
    requires in_row { All (λ x. x < length row.now) keys.now }
    ensures { IsTrue result → key.now ≡ key_of codes keys.now row.now }
{
    for i in 0..keys.len() {
        if !is_cell(key[i], row[keys[i] as usize]) {
            return false;
        }
    }
    true
}

// Writes the row's key, in place.
fn write_key(key: &mut [Cell], keys: &[u32], row: &[Cell])
    requires same { length key.old ≡ length keys.now }
    requires in_row { All (λ x. x < length row.now) keys.now }
    ensures value { key.new ≡ key_of codes keys.now row.now }
    ensures len { length key.new ≡ length key.old }
{
    for i in 0..keys.len() {
        key[i] = row[keys[i] as usize];
    }
}

/// The place of the row's group, which is made where its key is new. It takes no memory where the key is known.
pub(crate) fn place_of(
    table: &mut GroupTable,
    last: &mut Last,
    items: &[Item],
    keys: &[u32],
    row: &[Cell],
) -> Result<usize, Memory>
    requires ready { IsReady (length keys.now) last.old.key.items last.old.place last.old.met.items table.old }
    requires in_row { All (λ x. x < length row.now) keys.now }
    ensures ok { IfOk result (λ place. IsPlaceFor items.now (key_of codes keys.now row.now) place table.old table.new) }
    ensures ready { IsReady (length keys.now) last.new.key.items last.new.place last.new.met.items table.new }
    ensures err { OnErr result (table.new ≡ table.old) }
    ensures unknown { OnErr result (Contains (names table.old.places) (key_of codes keys.now row.now) → ⊥) }
{
    if let Some(place) = last.place {
        if has_key(&last.key, keys, row) {
            return Ok(place);
        }
    }
    last.place = None;
    write_key(&mut last.key, keys, row);
    let place = table.place_for(items, &last.key)?;
    last.place = Some(place);
    Ok(place)
}
