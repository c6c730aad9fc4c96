// Where groups are kept: a map from keys to places, and the running values at each place.
ghost use Rattle.std.specs.Prelude.{◌≡◌, ◌<◌, ◌≤◌, ◌+◌, ◌^◌, ℕ, List, [], length, map, set, count_ones, All, Contains};
ghost use Rattle.std.specs.Prelude.{Some, None, is_some, true, OnOk, OnErr, IfOk, if◌then◌else◌, slice_index_or, take};
ghost use Rattle.std.specs.Int.{bit_at};
ghost use Rattle.table_core.specs.declared.cell.Cell.{Cell};
ghost use Rattle.query_meaning.specs.Cells.{codes};
ghost use Rattle.agg_groups.specs.Running.{HasRoom, nexts, joins, runnings, all_shown, FitsCell};
ghost use Rattle.query_meaning.specs.Places.{IsInRow};
ghost use Rattle.table_core.specs.Lists.{lists};
ghost use Rattle.agg_groups.specs.Blocks.{AreInBlock, chosen_in};
ghost use Rattle.agg_groups.specs.Table.{AddsRows, first_places, Placed, IsPlaced, IsNewPlace, IsPlaceFor};
ghost use Rattle.agg_groups.specs.Table.{AreSound, StaySound, place_at, values_at, seen, at, merged, first_over};
ghost use Rattle.agg_groups.specs.Table.{result_rows, AllFit, AreBelow, Puts, base, HasGrown, HasNamed};
ghost use Rattle.agg_groups.specs.Table.{HasValues, HavePlaces, HasRoomAt, KeepsPlaces, names, plain_places};

use crate::lanes::add_chosen;
use crate::running::{Running, join_all, over, row_of, starts, step};
use crate::steps::step_all;
use query_meaning::Item;
use row_blocks::Block;
use std::alloc::Global;
use std::collections::BTreeMap;
use std::marker::Model;
use table_core::{Cell, MOST_ROWS, Memory, cell_order};

type Places = BTreeMap<Vec<Cell>, usize>;

/// The groups that were met, seen as the places of their keys in key order, and the values at each place.
///
/// A group keeps its place, so the group met last is found again without a search.
#[derive(Drop)]
pub(crate) struct GroupTable {
    places: Places,
    values: Vec<Vec<Running>>,
}

impl Model for GroupTable {
    ghost Value = { Placed };

    ghost view = { λ t. record { places = plain_places t.places.entries; values = lists t.values.items } };

    ghost invariant = { λ t. IsPlaced
        (record { places = plain_places t.places.entries; values = lists t.values.items }) };
}

// Puts a key that had no place at a new one, with the values of no rows.
fn put_start(
    places: &mut Places,
    values: &mut Vec<Vec<Running>>,
    items: &[Item],
    key: &[Cell],
) -> Result<usize, Memory>
    requires placed { IsPlaced (record { places = plain_places places.old.entries; values = lists values.old.items }) }
    requires none { place_at (plain_places places.old.entries) key.now ≡ None }
    ensures ok { IfOk result (λ place. IsNewPlace items.now key.now place
        (record { places = plain_places places.old.entries; values = lists values.old.items })
        (record { places = plain_places places.new.entries; values = lists values.new.items })) }
    ensures placed { OnOk result (IsPlaced (record
        { places = plain_places places.new.entries; values = lists values.new.items })) }
    ensures err_places { OnErr result (places.new.entries ≡ places.old.entries) }
    ensures err_values { OnErr result (values.new.items ≡ values.old.items) }
{
    cell_order();
    let alloc = *values.allocator();
    let place = values.len();
    let start = starts(alloc, items)?;
    let key = Vec::from_slice(alloc, key)?;
    values.push(start)?;
    let Ok(_) = places.insert(key, place) else {
        values.pop();
        return Err(Memory);
    };
    Ok(place)
}

// The values at a place.
fn values_of(values: &[Vec<Running>], place: usize) -> &[Running]
    requires { place < length values.now }
    ensures { result.now ≡ values_at (lists values.now) place }
{
    values[place].as_slice()
}

// Adds a row to the values at a place.
fn step_at(values: &mut [Vec<Running>], place: usize, items: &[Item], row: &[Cell], rows: u32)
    requires in_row { All (λ i. IsInRow i (length row.now)) items.now }
    requires few { rows < MOST_ROWS }
    requires there { place < length values.old }
    requires same { length (values_at (lists values.old) place) ≡ length items.now }
    requires room { All (HasRoom rows) (values_at (lists values.old) place) }
    ensures values { lists values.new ≡ set (lists values.old) place
        (nexts items.now row.now (values_at (lists values.old) place)) }
    ensures room { All (HasRoom (rows + 1)) (nexts items.now row.now (values_at (lists values.old) place)) }
{
    let kept = &mut values[place];
    step(items, row, rows, kept);
}

// Takes back the places from `count` on.
fn keep_below(places: &mut Places, count: usize)
    ensures { plain_places places.new.entries ≡ first_places count (plain_places places.old.entries) }
{
    places.retain(|_, place| *place < count);
}

// Adds the values over other rows to those at a place.
fn join_at(
    values: &mut [Vec<Running>],
    place: usize,
    items: &[Item],
    others: &[Running],
    rows: u32,
    more: u32,
)
    requires few { rows + more ≤ MOST_ROWS }
    requires there { place < length values.old }
    requires same { length (values_at (lists values.old) place) ≡ length items.now }
    requires same_more { length others.now ≡ length items.now }
    requires room { All (HasRoom rows) (values_at (lists values.old) place) }
    requires room_more { All (HasRoom more) others.now }
    ensures { lists values.new ≡ set (lists values.old) place
        (joins items.now (values_at (lists values.old) place) others.now) }
{
    let kept = &mut values[place];
    join_all(items, kept, others, rows, more);
}

// Adds the chosen rows of a block to the values at a place.
fn add_chosen_at(
    values: &mut [Vec<Running>],
    place: usize,
    items: &[Item],
    block: &Block,
    word: u64,
    rows: u32,
)
    requires few { rows + block.now.count ≤ MOST_ROWS }
    requires in_row { All (λ i. IsInRow i block.now.width) items.now }
    requires below { AreInBlock block.now.count word }
    requires there { place < length values.old }
    requires same { length (values_at (lists values.old) place) ≡ length items.now }
    requires room { All (HasRoom rows) (values_at (lists values.old) place) }
    ensures values { lists values.new ≡ set (lists values.old) place
        (joins items.now (values_at (lists values.old) place) (runnings items.now (chosen_in block.now word))) }
    ensures room { All (HasRoom (rows + count_ones word))
        (joins items.now (values_at (lists values.old) place) (runnings items.now (chosen_in block.now word))) }
{
    let kept = &mut values[place];
    add_chosen(items, kept, block, word, rows);
}

// Makes a place for each key that has none. Out of memory, those that were made stay.
fn place_all(table: &mut GroupTable, items: &[Item], others: &Places) -> Result<(), Memory>
    requires placed { IsPlaced table.old }
    ensures named { OnOk result (HasNamed table.old.places (names (plain_places others.now.entries)) table.new.places) }
    ensures grown { HasGrown items.now table.old table.new }
    ensures placed { IsPlaced table.new }
    ensures sound { StaySound (length items.now) table.old.values table.new.values }
{
    for (key, _) in others {
        table.place_for(items, key)?;
    }
    Ok(())
}

// Makes a place for each key that has none. Out of memory, the groups are as they were.
fn make_places(table: &mut GroupTable, items: &[Item], others: &Places) -> Result<(), Memory>
    requires placed { IsPlaced table.old }
    ensures named { OnOk result (HasNamed table.old.places (names (plain_places others.now.entries)) table.new.places) }
    ensures grown { OnOk result (HasGrown items.now table.old table.new) }
    ensures err { OnErr result (seen table.new ≡ seen table.old) }
    ensures kept { KeepsPlaces table.old.places table.new.places }
    ensures placed { IsPlaced table.new }
    ensures sound { StaySound (length items.now) table.old.values table.new.values }
{
    let count = table.len();
    match place_all(table, items, others) {
        Ok(()) => Ok(()),
        Err(memory) => {
            table.keep_first(count);
            Err(memory)
        }
    }
}

// Adds the groups of places and values, whose values are over `more` rows, to those of their keys.
fn join_groups(
    table: &mut GroupTable,
    items: &[Item],
    places: &Places,
    values: &[Vec<Running>],
    rows: u32,
    more: u32,
)
    requires few { rows + more ≤ MOST_ROWS }
    requires sound { AreSound rows (length items.now) table.old.values }
    requires placed_table { IsPlaced table.old }
    requires placed { IsPlaced (record { places = plain_places places.now.entries; values = lists values.now }) }
    requires sound_other { AreSound more (length items.now) (lists values.now) }
    requires known { HavePlaces (names (plain_places places.now.entries)) table.old.places }
    ensures joined { (q : List Cell) → at (seen table.new) q ≡ merged items.now (at (seen table.old) q)
        (at (seen (record { places = plain_places places.now.entries; values = lists values.now })) q) }
    ensures places { table.new.places ≡ table.old.places }
    ensures sound { AreSound (rows + more) (length items.now) table.new.values }
    ensures placed { IsPlaced table.new }
{
    for (key, place) in places {
        table.join_known(items, key, values_of(values, *place), rows, more);
    }
}

// The first sum in key order that is no whole number of 64 bits.
fn first_over_in(places: &Places, values: &[Vec<Running>], items: &[Item]) -> Option<(u32, i128)>
    requires few { length items.now < 2 ^ 32 }
    requires below { AreBelow (length values.now) (plain_places places.now.entries) }
    requires sound { (i : ℕ) → i < length (lists values.now) → length (values_at (lists values.now) i)
        ≡ length items.now }
    ensures { result ≡ first_over (seen (record
        { places = plain_places places.now.entries; values = lists values.now })) }
{
    for (_, place) in places {
        let one = over(values_of(values, *place));
        if one.is_some() {
            return one;
        }
    }
    None
}

// The result rows in key order.
fn rows_in(
    alloc: Global,
    places: &Places,
    values: &[Vec<Running>],
    items: &[Item],
) -> Result<Vec<Vec<Cell>>, Memory>
    requires same { (i : ℕ) → i < length (lists values.now) → length (values_at (lists values.now) i)
        ≡ length items.now }
    requires below { AreBelow (length values.now) (plain_places places.now.entries) }
    requires fits { AllFit (seen (record { places = plain_places places.now.entries; values = lists values.now })) }
    ensures { IfOk result (λ rows. lists rows.items
        ≡ result_rows items.now (seen (record
        { places = plain_places places.now.entries; values = lists values.now }))) }
{
    let mut rows = Vec::new(alloc);
    for (key, place) in places {
        let row = row_of(alloc, key, items, values_of(values, *place))?;
        rows.push(row)?;
    }
    Ok(rows)
}

impl GroupTable {
    /// No groups.
    pub(crate) fn new(alloc: Global) -> Self
        ensures empty { result ≡ record { places = []; values = [] } }
        ensures placed { IsPlaced result }
    {
        GroupTable {
            places: BTreeMap::new(alloc),
            values: Vec::new(alloc),
        }
    }

    // The place of a key.
    fn known(&self, key: &[Cell]) -> Option<usize>
        ensures { result ≡ place_at self.now.places key.now }
    {
        cell_order();
        self.places.get(key).copied()
    }

    /// The place of a key, which is made where the key is new. It takes no memory where the key is known.
    pub(crate) fn place_for(&mut self, items: &[Item], key: &[Cell]) -> Result<usize, Memory>
        ensures ok { IfOk result (λ place. IsPlaceFor items.now key.now place self.old self.new) }
        ensures err { OnErr result (self.new ≡ self.old) }
        ensures unknown { OnErr result (Contains (names self.old.places) key.now → ⊥) }
        ensures none { OnErr result (place_at self.old.places key.now ≡ None) }
        ensures placed { IsPlaced self.new }
    {
        match self.known(key) {
            Some(place) => Ok(place),
            None => put_start(&mut self.places, &mut self.values, items, key),
        }
    }

    /// How many places there are.
    pub(crate) fn len(&self) -> usize
        ensures { result ≡ length self.now.values }
    {
        self.values.len()
    }

    /// Takes back the places from `count` on, with their values.
    pub(crate) fn keep_first(&mut self, count: usize)
        requires { count ≤ length self.old.values }
        ensures places { self.new.places ≡ first_places count self.old.places }
        ensures values { self.new.values ≡ take count self.old.values }
        ensures placed { IsPlaced self.new }
    {
        keep_below(&mut self.places, count);
        self.values.truncate(count);
    }

    /// Adds each chosen row of a block to the values at its place.
    pub(crate) fn add_rows(
        &mut self,
        places: &[usize],
        items: &[Item],
        block: &Block,
        word: u64,
        rows: u32,
    )
        requires few { rows + block.now.count ≤ MOST_ROWS }
        requires in_row { All (λ i. IsInRow i block.now.width) items.now }
        requires long { length places.now ≡ 64 }
        requires there { (i : ℕ) → i < block.now.count → bit_at word i ≡ 1
            → slice_index_or places.now i 0 < length self.old.values }
        requires below { AreInBlock block.now.count word }
        requires sound { AreSound rows (length items.now) self.old.values }
        ensures places { self.new.places ≡ self.old.places }
        ensures added { AddsRows items.now block.now word places.now self.old.values self.new.values }
        ensures sound { AreSound (rows + count_ones word) (length items.now) self.new.values }
        ensures placed { IsPlaced self.new }
    {
        step_all(&mut self.values, places, items, block, word, rows);
    }

    /// Adds a row to the values at a place.
    pub(crate) fn step(&mut self, place: usize, items: &[Item], row: &[Cell], rows: u32)
        requires in_row { All (λ i. IsInRow i (length row.now)) items.now }
        requires few { rows < MOST_ROWS }
        requires values { HasValues rows (length items.now) place self.old.values }
        ensures places { self.new.places ≡ self.old.places }
        ensures values { self.new.values ≡ set self.old.values place
            (nexts items.now row.now (values_at self.old.values place)) }
        ensures room { All (HasRoom (rows + 1)) (nexts items.now row.now (values_at self.old.values place)) }
        ensures placed { IsPlaced self.new }
    {
        step_at(&mut self.values, place, items, row, rows);
    }

    /// Adds the chosen rows of a block to the values at a place.
    pub(crate) fn add_chosen(
        &mut self,
        place: usize,
        items: &[Item],
        block: &Block,
        word: u64,
        rows: u32,
    )
        requires few { rows + block.now.count ≤ MOST_ROWS }
        requires in_row { All (λ i. IsInRow i block.now.width) items.now }
        requires below { AreInBlock block.now.count word }
        requires values { HasValues rows (length items.now) place self.old.values }
        ensures places { self.new.places ≡ self.old.places }
        ensures values { self.new.values ≡ set self.old.values place
            (joins items.now (values_at self.old.values place) (runnings items.now (chosen_in block.now word))) }
        ensures room { All (HasRoom (rows + count_ones word))
            (joins items.now (values_at self.old.values place) (runnings items.now (chosen_in block.now word))) }
        ensures placed { IsPlaced self.new }
    {
        add_chosen_at(&mut self.values, place, items, block, word, rows);
    }

    // Adds the values over other rows to those at a place.
    fn join(&mut self, place: usize, items: &[Item], others: &[Running], rows: u32, more: u32)
        requires few { rows + more ≤ MOST_ROWS }
        requires values { HasValues rows (length items.now) place self.old.values }
        requires same_more { length others.now ≡ length items.now }
        requires room_more { All (HasRoom more) others.now }
        ensures places { self.new.places ≡ self.old.places }
        ensures values { self.new.values ≡ set self.old.values place
            (joins items.now (values_at self.old.values place) others.now) }
        ensures placed { IsPlaced self.new }
    {
        join_at(&mut self.values, place, items, others, rows, more);
    }

    // Adds to the values of a key that has a place its values over other rows.
    fn join_known(&mut self, items: &[Item], key: &[Cell], others: &[Running], rows: u32, more: u32)
        requires few { rows + more ≤ MOST_ROWS }
        requires known { is_some (place_at self.old.places key.now) ≡ true }
        requires same { length others.now ≡ length items.now }
        requires room_more { All (HasRoom more) others.now }
        requires room { HasRoomAt rows (length items.now) (at (seen self.old) key.now) }
        requires sound { AreSound (rows + more) (length items.now) self.old.values }
        requires placed { IsPlaced self.old }
        ensures joined { Puts key.now (joins items.now (base items.now (at (seen self.old) key.now)) others.now)
            (seen self.old) (seen self.new) }
        ensures places { self.new.places ≡ self.old.places }
        ensures sound { AreSound (rows + more) (length items.now) self.new.values }
        ensures placed { IsPlaced self.new }
    {
        if let Some(place) = self.known(key) {
            self.join(place, items, others, rows, more);
        }
    }

    /// Adds the groups of another table, whose values are over `more` rows. First each of their keys gets a place, so
    /// that joining can't fail. Each key keeps its place.
    ///
    /// Out of memory, the groups are as they were.
    pub(crate) fn absorb(
        &mut self,
        items: &[Item],
        other: &GroupTable,
        rows: u32,
        more: u32,
    ) -> Result<(), Memory>
        requires placed { IsPlaced self.old }
        requires few { rows + more ≤ MOST_ROWS }
        requires sound { AreSound rows (length items.now) self.old.values }
        requires sound_other { AreSound more (length items.now) other.now.values }
        ensures joined { OnOk result ((q : List Cell) → at (seen self.new) q
            ≡ merged items.now (at (seen self.old) q) (at (seen other.now) q)) }
        ensures sound { OnOk result (AreSound (rows + more) (length items.now) self.new.values) }
        ensures err { OnErr result (seen self.new ≡ seen self.old) }
        ensures err_sound { OnErr result (AreSound rows (length items.now) self.new.values) }
        ensures kept { KeepsPlaces self.old.places self.new.places }
        ensures placed { IsPlaced self.new }
    {
        make_places(self, items, &other.places)?;
        join_groups(self, items, &other.places, &other.values, rows, more);
        Ok(())
    }

    /// The first sum, in key order and then in item order, that is no whole number of 64 bits.
    pub(crate) fn first_over(&self, items: &[Item]) -> Option<(u32, i128)>
        requires few { length items.now < 2 ^ 32 }
        requires sound { (i : ℕ) → i < length self.now.values → length (values_at self.now.values i)
            ≡ length items.now }
        ensures { result ≡ first_over (seen self.now) }
    {
        first_over_in(&self.places, &self.values, items)
    }

    /// The result rows, in key order.
    pub(crate) fn result_rows(&self, items: &[Item]) -> Result<Vec<Vec<Cell>>, Memory>
        requires sound { AreSound MOST_ROWS (length items.now) self.now.values }
        requires fit { first_over (seen self.now) ≡ None }
        ensures { IfOk result (λ rows. lists rows.items ≡ result_rows items.now (seen self.now)) }
    {
        rows_in(*self.values.allocator(), &self.places, &self.values, items)
    }
}
