// The groups of a query's rows.
ghost use Rattle.std.specs.Prelude.{◌≡◌, ◌<◌, ◌≤◌, ◌+◌, ◌++◌, ℕ, List, [], ◌∷◌};
ghost use Rattle.std.specs.Prelude.{length, None, OnOk, OnErr, IfOk, IfErr, IsOk};
ghost use Rattle.std.specs.Bool.{OnFalse};
ghost use Rattle.table_core.specs.declared.cell.Cell.{Cell};
ghost use Rattle.agg_groups.specs.Blocks.{AreInBlock, chosen_in};
ghost use Rattle.query_meaning.specs.Cells.{codes};
ghost use Rattle.query_meaning.specs.Meaning.{key_of, meaning, overflow};
ghost use Rattle.agg_groups.specs.Groups.{Kept, KnowsAll, Stands, StandsInSomeOrder, IsFault, IsKnown};
ghost use Rattle.query_meaning.specs.Places.{NamesPlaces};
ghost use Rattle.agg_groups.specs.Table.{AreSound, IsReady, IsKept, IsFirst, seen};
ghost use Rattle.agg_groups.specs.declared.rows.FinishFault.TheVariants as FinishFault;

use crate::finding::places_in_block;
use crate::lanes::{count_of, in_block};
use crate::met::slots_for;
use crate::place::{Last, place_of};
use crate::rows::{FinishFault, Rows};
use crate::table::GroupTable;
use query_meaning::Item;
use row_blocks::Block;
use std::alloc::Global;
use std::marker::Model;
use table_core::{Cell, MOST_ROWS, Memory};

/// The groups of a query's rows, with the running values of its items: seen as its items, its key columns,
/// the number of rows, and for each key that was met, in key order, the running values.
///
/// It stands for a list of rows where the number is the list's length, and the keys and values are those that
/// the query's meaning gives for the list.
#[derive(Drop)]
pub struct Groups {
    items: Vec<Item>,
    keys: Vec<u32>,
    rows: u32,
    last: Last,
    table: GroupTable,
}

impl Model for Groups {
    ghost Value = { Kept };

    ghost view = { λ g. record { items = g.items.items; keys = g.keys.items; rows = g.rows; groups = seen g.table } };

    ghost invariant = { λ g. IsKept g.items.items g.keys.items g.rows g.last.key.items g.last.place
        g.last.met.items g.table };
}

// The groups of no rows: none, but for the one group of a query without key columns.
fn first_groups(alloc: Global, items: &[Item], keys: &[u32]) -> Result<(GroupTable, Last), Memory>
    ensures first { IfOk result (λ g. IsFirst items.now keys.now g.0) }
    ensures ready { IfOk result (λ g. IsReady (length keys.now) g.1.key.items g.1.place g.1.met.items g.0) }
    ensures sound { IfOk result (λ g. AreSound 0 (length items.now) g.0.values) }
{
    let key = vec![in alloc; Cell::Null; keys.len()]?;
    let met = slots_for(alloc, keys.len())?;
    let mut last = Last {
        key,
        place: None,
        met,
    };
    let mut table = GroupTable::new(alloc);
    if keys.is_empty() {
        place_of(&mut table, &mut last, items, keys, &[])?;
        return Ok((table, last));
    }
    Ok((table, last))
}

fn sum_overflow(first: (u32, i128)) -> FinishFault
    ensures { result ≡ FinishFault.SumOverflow first.0 first.1 }
{
    FinishFault::SumOverflow {
        item: first.0,
        total: first.1,
    }
}

impl Groups {
    /// The groups of no rows. Without key columns one group stands there.
    ///
    /// More than 4294967295 items, which a refusal could not number, are answered as out of memory.
    pub fn new(alloc: Global, items: Vec<Item>, keys: Vec<u32>) -> Result<Self, Memory>
        ensures stands { IfOk result (λ g. Stands g []) }
        ensures items { IfOk result (λ g. g.items ≡ items.items) }
        ensures keys { IfOk result (λ g. g.keys ≡ keys.items) }
    {
        if items.len() > u32::MAX as usize {
            return Err(Memory);
        }
        let (table, last) = first_groups(alloc, &items, &keys)?;
        Ok(Groups {
            items,
            keys,
            rows: 0,
            last,
            table,
        })
    }

    /// Adds a row. Where a row of its key was met before it takes no memory, so it is never refused.
    ///
    /// Out of memory, the groups stay as they were.
    pub fn add_row(&mut self, row: &[Cell]) -> Result<(), Memory>
        requires few { self.old.rows < MOST_ROWS }
        requires places { NamesPlaces self.old.items self.old.keys (length row.now) }
        ensures ok { OnOk result ((rows : List (List Cell)) → Stands self.old rows
            → Stands self.new (rows ++ row.now ∷ [])) }
        ensures count { OnOk result (self.new.rows ≡ self.old.rows + 1) }
        ensures free { IsKnown self.old (key_of codes self.old.keys row.now) → IsOk result }
        ensures items { self.new.items ≡ self.old.items }
        ensures keys { self.new.keys ≡ self.old.keys }
        ensures err { OnErr result (self.new ≡ self.old) }
    {
        let items = self.items.as_slice();
        let place = place_of(&mut self.table, &mut self.last, items, &self.keys, row)?;
        self.table.step(place, items, row, self.rows);
        self.rows += 1;
        Ok(())
    }

    // Adds the chosen rows of a block where there are no key columns: all to one group, a column at a time.
    fn add_to_one(&mut self, block: &Block, word: u64) -> Result<(), Memory>
        requires few { self.old.rows + block.now.count ≤ MOST_ROWS }
        requires places { NamesPlaces self.old.items self.old.keys block.now.width }
        requires below { AreInBlock block.now.count word }
        requires one { self.old.keys ≡ [] }
        ensures ok { OnOk result ((rows : List (List Cell)) → Stands self.old rows
            → Stands self.new (rows ++ chosen_in block.now word)) }
        ensures count { OnOk result (self.new.rows ≡ self.old.rows + length (chosen_in block.now word)) }
        ensures free { IsKnown self.old [] → IsOk result }
        ensures items { self.new.items ≡ self.old.items }
        ensures keys { self.new.keys ≡ self.old.keys }
        ensures err { OnErr result (self.new ≡ self.old) }
    {
        let items = self.items.as_slice();
        let place = place_of(&mut self.table, &mut self.last, items, &self.keys, &[])?;
        self.table.add_chosen(place, items, block, word, self.rows);
        self.rows += count_of(word);
        Ok(())
    }

    // Adds the chosen rows of a block: first all their places are found, or made, then each row is added to its values.
    fn add_to_places(&mut self, block: &Block, word: u64) -> Result<(), Memory>
        requires few { self.old.rows + block.now.count ≤ MOST_ROWS }
        requires places { NamesPlaces self.old.items self.old.keys block.now.width }
        requires below { AreInBlock block.now.count word }
        ensures ok { OnOk result ((rows : List (List Cell)) → Stands self.old rows
            → Stands self.new (rows ++ chosen_in block.now word)) }
        ensures count { OnOk result (self.new.rows ≡ self.old.rows + length (chosen_in block.now word)) }
        ensures free { KnowsAll self.old (chosen_in block.now word) → IsOk result }
        ensures items { self.new.items ≡ self.old.items }
        ensures keys { self.new.keys ≡ self.old.keys }
        ensures err { OnErr result (self.new ≡ self.old) }
    {
        let items = self.items.as_slice();
        let mut places = [0; 64];
        places_in_block(
            &mut self.table,
            &mut self.last,
            items,
            &self.keys,
            block,
            word,
            &mut places,
        )?;
        self.table.add_rows(&places, items, block, word, self.rows);
        self.rows += count_of(word);
        Ok(())
    }

    /// Adds the rows of a block whose bits are set in `chosen`, in their order. A bit past the block's rows chooses
    /// none.
    /// Where a row of each key was met before it takes no memory, so it is never refused.
    ///
    /// Out of memory, the groups stay as they were.
    pub fn add_block(&mut self, block: &Block, chosen: u64) -> Result<(), Memory>
        requires few { self.old.rows + block.now.count ≤ MOST_ROWS }
        requires places { NamesPlaces self.old.items self.old.keys block.now.width }
        ensures ok { OnOk result ((rows : List (List Cell)) → Stands self.old rows
            → Stands self.new (rows ++ chosen_in block.now chosen)) }
        ensures count { OnOk result (self.new.rows ≡ self.old.rows + length (chosen_in block.now chosen)) }
        ensures free { KnowsAll self.old (chosen_in block.now chosen) → IsOk result }
        ensures items { self.new.items ≡ self.old.items }
        ensures keys { self.new.keys ≡ self.old.keys }
        ensures err { OnErr result (self.new ≡ self.old) }
    {
        let word = in_block(block, chosen);
        if count_of(word) == 0 {
            return Ok(());
        }
        if self.keys.is_empty() {
            return self.add_to_one(block, word);
        }
        self.add_to_places(block, word)
    }

    /// Adds the rows of other groups, of the same items and key columns, behind its own.
    ///
    /// Out of memory, the groups stay as they were, and the other groups come back.
    pub fn merge(&mut self, other: Groups) -> Result<(), (Groups, Memory)>
        requires items { other.items ≡ self.old.items }
        requires keys { other.keys ≡ self.old.keys }
        requires few { self.old.rows + other.rows ≤ MOST_ROWS }
        ensures ok { OnOk result ((rows more : List (List Cell)) → Stands self.old rows → Stands other more
            → Stands self.new (rows ++ more)) }
        ensures count { OnOk result (self.new.rows ≡ self.old.rows + other.rows) }
        ensures items { self.new.items ≡ self.old.items }
        ensures keys { self.new.keys ≡ self.old.keys }
        ensures err { OnErr result (self.new ≡ self.old) }
        ensures back { IfErr result (λ e. e.0 ≡ other) }
    {
        match self
            .table
            .absorb(&self.items, &other.table, self.rows, other.rows)
        {
            Ok(()) => {
                self.rows += other.rows;
                Ok(())
            }
            Err(memory) => Err((other, memory)),
        }
    }

    /// The result rows: the meaning of each list of rows that the groups stand for, in whatever order its rows came.
    ///
    /// A sum that is no whole number of 64 bits is refused, and no partial sum is. Out of memory, the groups are gone.
    pub fn finish(self) -> Result<Rows, FinishFault>
        ensures ok { IfOk result (λ answer. (rows : List (List Cell)) → StandsInSomeOrder self rows → answer
            ≡ meaning codes self.items self.keys rows) }
        ensures fits { OnOk result ((rows : List (List Cell)) → StandsInSomeOrder self rows
            → overflow codes self.items self.keys rows ≡ None) }
        ensures err { IfErr result (λ fault. (rows : List (List Cell)) → StandsInSomeOrder self rows
            → IsFault fault (overflow codes self.items self.keys rows)) }
    {
        if let Some(first) = self.table.first_over(&self.items) {
            return Err(sum_overflow(first));
        }
        let rows = self.table.result_rows(&self.items)?;
        Ok(Rows::new(rows))
    }
}
