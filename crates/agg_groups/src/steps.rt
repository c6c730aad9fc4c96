// Rows of a block added to the running values at their places: an item at a time, and for each item row by row.
ghost use Rattle.std.specs.Prelude.{◌≡◌, ◌<◌, ◌≤◌, ◌+◌, ℕ, length, set, count_ones, All, slice_index_or};
ghost use Rattle.std.specs.Int.{bit_at};
ghost use Rattle.table_core.specs.Lists.{lists};
ghost use Rattle.row_blocks.specs.Blocks.{row_at};
ghost use Rattle.agg_groups.specs.Blocks.{AreInBlock, chosen_in};
ghost use Rattle.agg_groups.specs.Running as spec;
ghost use Rattle.agg_groups.specs.declared.running.Running.TheVariants as running;
ghost use Rattle.query_meaning.specs.Places.{IsInRow};
ghost use Rattle.agg_groups.specs.Table.{AddsItem, AddsRows, AreSound, HasItem, value_at, values_at};

use crate::chosen::next_chosen;
use crate::lanes::cell_in;
use crate::running::{Running, next};
use query_meaning::Item;
use row_blocks::Block;
use table_core::{Cell, MOST_ROWS};

// The cell of a row of a block that an item reads, NULL where it reads none.
fn cell_of(item: Item, block: &Block, row: u32) -> Cell
    requires row { row < 64 }
    requires in_row { IsInRow item block.now.width }
    ensures { result ≡ spec.cell_of item (row_at block.now row) }
{
    match item {
        Item::Count(x) | Item::Sum(x) | Item::Min(x) | Item::Max(x) => cell_in(block, row, x),
        Item::CountAll | Item::Key(_) => Cell::Null,
    }
}

// Adds a row of a block to the value of an item, in place.
fn step(values: &mut [Running], k: usize, item: Item, block: &Block, row: u32, rows: u32)
    requires row { row < 64 }
    requires in_row { IsInRow item block.now.width }
    requires few { rows < MOST_ROWS }
    requires there { k < length values.old }
    requires room { spec.HasRoom rows (slice_index_or values.old k running.Nothing) }
    ensures value { values.new ≡ set values.old k
        (spec.next item (row_at block.now row) (slice_index_or values.old k running.Nothing)) }
    ensures room { spec.HasRoom (rows + 1)
        (spec.next item (row_at block.now row) (slice_index_or values.old k running.Nothing)) }
    ensures len { length values.new ≡ length values.old }
{
    values[k] = next(item, cell_of(item, block, row), values[k], rows);
}

// Adds a row of a block to the value of an item at a place.
fn step_at(
    values: &mut [Vec<Running>],
    place: usize,
    k: usize,
    item: Item,
    block: &Block,
    row: u32,
    rows: u32,
)
    requires row { row < 64 }
    requires in_row { IsInRow item block.now.width }
    requires few { rows < MOST_ROWS }
    requires there { place < length values.old }
    requires item { k < length (values_at (lists values.old) place) }
    requires room { spec.HasRoom rows (value_at (lists values.old) place k) }
    ensures values { lists values.new ≡ set (lists values.old) place (set (values_at (lists values.old) place) k
        (spec.next item (row_at block.now row) (value_at (lists values.old) place k))) }
    ensures room { spec.HasRoom (rows + 1)
        (spec.next item (row_at block.now row) (value_at (lists values.old) place k)) }
{
    let kept = &mut values[place];
    step(kept, k, item, block, row, rows);
}

// Adds the chosen rows of a block to the value of an item at each place.
fn step_item(
    values: &mut [Vec<Running>],
    k: usize,
    item: Item,
    places: &[usize],
    block: &Block,
    word: u64,
    rows: u32,
)
    requires few { rows + block.now.count ≤ MOST_ROWS }
    requires in_row { IsInRow item block.now.width }
    requires long { length places.now ≡ 64 }
    requires there { (i : ℕ) → i < block.now.count → bit_at word i ≡ 1
        → slice_index_or places.now i 0 < length values.old }
    requires below { AreInBlock block.now.count word }
    requires item { HasItem rows k (lists values.old) }
    ensures { AddsItem item k (rows + count_ones word) block.now word places.now (chosen_in block.now word)
        (lists values.old) (lists values.new) }
{
    let mut added = rows;
    let mut from = 0;
    while let Some(row) = next_chosen(word, from) {
        step_at(values, places[row as usize], k, item, block, row, added);
        added += 1;
        from = row + 1;
    }
}

// The same. Each kind of item has a call of its own, so that it is told once for all rows.
fn step_kind(
    values: &mut [Vec<Running>],
    k: usize,
    item: Item,
    places: &[usize],
    block: &Block,
    word: u64,
    rows: u32,
)
    requires few { rows + block.now.count ≤ MOST_ROWS }
    requires in_row { IsInRow item block.now.width }
    requires long { length places.now ≡ 64 }
    requires there { (i : ℕ) → i < block.now.count → bit_at word i ≡ 1
        → slice_index_or places.now i 0 < length values.old }
    requires below { AreInBlock block.now.count word }
    requires item { HasItem rows k (lists values.old) }
    ensures { AddsItem item k (rows + count_ones word) block.now word places.now (chosen_in block.now word)
        (lists values.old) (lists values.new) }
{
    match item {
        Item::CountAll => step_item(values, k, Item::CountAll, places, block, word, rows),
        Item::Count(x) => step_item(values, k, Item::Count(x), places, block, word, rows),
        Item::Sum(x) => step_item(values, k, Item::Sum(x), places, block, word, rows),
        Item::Min(x) => step_item(values, k, Item::Min(x), places, block, word, rows),
        Item::Max(x) => step_item(values, k, Item::Max(x), places, block, word, rows),
        Item::Key(_) => {}
    }
}

/// Adds each chosen row of a block to the values at its place.
pub(crate) fn step_all(
    values: &mut [Vec<Running>],
    places: &[usize],
    items: &[Item],
    block: &Block,
    word: u64,
    rows: u32,
)
    requires few { rows + block.now.count ≤ MOST_ROWS }
    requires in_row { All (λ i. IsInRow i block.now.width) items.now }
    requires long { length places.now ≡ 64 }
    requires there { (i : ℕ) → i < block.now.count → bit_at word i ≡ 1
        → slice_index_or places.now i 0 < length values.old }
    requires below { AreInBlock block.now.count word }
    requires sound { AreSound rows (length items.now) (lists values.old) }
    ensures added { AddsRows items.now block.now word places.now (lists values.old) (lists values.new) }
    ensures sound { AreSound (rows + count_ones word) (length items.now) (lists values.new) }
    ensures len { length values.new ≡ length values.old }
{
    for k in 0..items.len() {
        step_kind(values, k, items[k], places, block, word, rows);
    }
}
