// The places of the rows of a block.
ghost use Rattle.std.specs.Prelude.{◌≡◌, ◌<◌, length, map, None, All, OnErr, OnOk, IfOk};
ghost use Rattle.row_blocks.specs.Blocks.{row_at};
ghost use Rattle.agg_groups.specs.Blocks.{AreInBlock, chosen_in};
ghost use Rattle.query_meaning.specs.Cells.{codes};
ghost use Rattle.query_meaning.specs.Meaning.{cell, key_of};
ghost use Rattle.agg_groups.specs.Table.{AreFound, HasGrown, HasNamed, IsPlaceFor};
ghost use Rattle.agg_groups.specs.Table.{IsReady, KnowsRows, StaySound, place_at, seen};

use crate::chosen::next_chosen;
use crate::lanes::cell_in;
use crate::met::{known, pair_of, remember};
use crate::place::Last;
use crate::table::GroupTable;
use query_meaning::Item;
use row_blocks::Block;
use table_core::{Cell, Memory};

// Writes the key of a row of a block, in place.
fn write_key(key: &mut [Cell], keys: &[u32], block: &Block, row: u32)
    requires row { row < 64 }
    requires same { length key.old ≡ length keys.now }
    requires in_row { All (λ x. x < block.now.width) keys.now }
    ensures value { key.new ≡ key_of codes keys.now (row_at block.now row) }
    ensures len { length key.new ≡ length key.old }
{
    for i in 0..keys.len() {
        key[i] = cell_in(block, row, keys[i]);
    }
}

// The place of a row's group by the table.
fn look_up(
    table: &mut GroupTable,
    last: &mut Last,
    items: &[Item],
    keys: &[u32],
    block: &Block,
    row: u32,
) -> Result<usize, Memory>
    requires row { row < 64 }
    requires ready { IsReady (length keys.now) last.old.key.items last.old.place last.old.met.items table.old }
    requires in_row { All (λ x. x < block.now.width) keys.now }
    ensures ok { IfOk result (λ place. IsPlaceFor items.now (key_of codes keys.now (row_at block.now row)) place
        table.old table.new) }
    ensures ready { IsReady (length keys.now) last.new.key.items last.new.place last.new.met.items table.new }
    ensures err { OnErr result (table.new ≡ table.old) }
    ensures unknown { OnErr result (place_at table.old.places (key_of codes keys.now (row_at block.now row)) ≡ None) }
{
    last.place = None;
    write_key(&mut last.key, keys, block, row);
    let place = table.place_for(items, &last.key)?;
    last.place = Some(place);
    Ok(place)
}

// The place of a row's group, which is made where its key is new. It takes no memory where the key is known.
fn place_of(
    table: &mut GroupTable,
    last: &mut Last,
    items: &[Item],
    keys: &[u32],
    block: &Block,
    row: u32,
) -> Result<usize, Memory>
    requires row { row < 64 }
    requires ready { IsReady (length keys.now) last.old.key.items last.old.place last.old.met.items table.old }
    requires in_row { All (λ x. x < block.now.width) keys.now }
    ensures ok { IfOk result (λ place. IsPlaceFor items.now (key_of codes keys.now (row_at block.now row)) place
        table.old table.new) }
    ensures ready { IsReady (length keys.now) last.new.key.items last.new.place last.new.met.items table.new }
    ensures err { OnErr result (table.new ≡ table.old) }
    ensures unknown { OnErr result (place_at table.old.places (key_of codes keys.now (row_at block.now row)) ≡ None) }
{
    if keys.len() > 2 {
        return look_up(table, last, items, keys, block, row);
    }
    let (first, second) = pair_of(keys, block, row);
    if let Some(place) = known(&last.met, first, second) {
        return Ok(place);
    }
    let place = look_up(table, last, items, keys, block, row)?;
    remember(&mut last.met, first, second, place);
    Ok(place)
}

// The places of all chosen rows. Out of memory, those that were made stay.
fn find_all(
    table: &mut GroupTable,
    last: &mut Last,
    items: &[Item],
    keys: &[u32],
    block: &Block,
    word: u64,
    places: &mut [usize],
) -> Result<(), Memory>
    requires ready { IsReady (length keys.now) last.old.key.items last.old.place last.old.met.items table.old }
    requires in_row { All (λ x. x < block.now.width) keys.now }
    requires long { length places.old ≡ 64 }
    requires below { AreInBlock block.now.count word }
    ensures found { OnOk result (AreFound keys.now block.now word places.new table.new) }
    ensures named { OnOk result (HasNamed table.old.places (map (key_of codes keys.now) (chosen_in block.now word))
        table.new.places) }
    ensures unknown { OnErr result (KnowsRows keys.now (chosen_in block.now word) table.old → ⊥) }
    ensures grown { HasGrown items.now table.old table.new }
    ensures ready { IsReady (length keys.now) last.new.key.items last.new.place last.new.met.items table.new }
    ensures sound { StaySound (length items.now) table.old.values table.new.values }
    ensures long { length places.new ≡ 64 }
{
    let mut from = 0;
    while let Some(row) = next_chosen(word, from) {
        let place = place_of(table, last, items, keys, block, row)?;
        places[row as usize] = place;
        from = row + 1;
    }
    Ok(())
}

/// The places of all chosen rows of a block, which are made where keys are new. It takes no memory where all keys are
/// known.
///
/// Out of memory, the groups are as they were.
pub(crate) fn places_in_block(
    table: &mut GroupTable,
    last: &mut Last,
    items: &[Item],
    keys: &[u32],
    block: &Block,
    word: u64,
    places: &mut [usize],
) -> Result<(), Memory>
    requires ready { IsReady (length keys.now) last.old.key.items last.old.place last.old.met.items table.old }
    requires in_row { All (λ x. x < block.now.width) keys.now }
    requires long { length places.old ≡ 64 }
    requires below { AreInBlock block.now.count word }
    ensures found { OnOk result (AreFound keys.now block.now word places.new table.new) }
    ensures named { OnOk result (HasNamed table.old.places (map (key_of codes keys.now) (chosen_in block.now word))
        table.new.places) }
    ensures grown { OnOk result (HasGrown items.now table.old table.new) }
    ensures unknown { OnErr result (KnowsRows keys.now (chosen_in block.now word) table.old → ⊥) }
    ensures err { OnErr result (seen table.new ≡ seen table.old) }
    ensures ready { IsReady (length keys.now) last.new.key.items last.new.place last.new.met.items table.new }
    ensures sound { StaySound (length items.now) table.old.values table.new.values }
    ensures long { length places.new ≡ 64 }
{
    let count = table.len();
    match find_all(table, last, items, keys, block, word, places) {
        Ok(()) => Ok(()),
        Err(memory) => {
            table.keep_first(count);
            last.place = None;
            last.met.clear();
            Err(memory)
        }
    }
}
