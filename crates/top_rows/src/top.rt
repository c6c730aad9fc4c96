// The first rows in the order that a rows query asks for.
ghost use Rattle.std.specs.Prelude.{◌≡◌, ◌<◌, ◌≤◌, ◌+◌, ◌++◌, ◌∷◌, ℕ, List, [], length};
ghost use Rattle.std.specs.Prelude.{map, take, false, All, OnOk, OnErr, IfOk, IfErr, IsOk};
ghost use Rattle.std.specs.Bool.{OnTrue, OnFalse};
ghost use Rattle.table_core.specs.declared.cell.Cell.{Cell};
ghost use Rattle.query_meaning.specs.Cells.{codes};
ghost use Rattle.query_meaning.specs.Meaning.{cell};
ghost use Rattle.table_core.specs.Lists.{lists};
ghost use Rattle.row_blocks.specs.Blocks.{row_at};
ghost use Rattle.row_blocks.specs.Chosen.{chosen as chosen_rows};
ghost use Rattle.top_rows.specs.Blocks.{HoldsInPart, numbered_rows};
ghost use Rattle.query_meaning.specs.Rows.{Numbered, AreApart, AreDistinct, has_number, insert_row, rows_meaning};
ghost use Rattle.top_rows.specs.Standing.{AreKeyed, numbered};
ghost use Rattle.top_rows.specs.Top.{IsBehind, Kept, Stands, StandsInSomeOrder};

use crate::Picked;
use crate::standing::{Standing, cell_at, is_before, is_before_in, places_of, standing_order};
use query_meaning::{Order, RowPlan};
use row_blocks::{Block, is_chosen};
use std::alloc::{AllocError, Global};
use std::collections::BTreeMap;
use std::marker::Model;
use table_core::{Cell, Memory};

type Ranked = BTreeMap<Standing, Vec<Cell>>;

/// The first rows of those that were added, in the order of a plan: seen as the plan, and the rows in order with their
/// numbers.
///
/// It stands for a list of rows with distinct numbers where the rows that it keeps are the first ones of that list.
/// A row's number is its place in the table, counted from 0.
#[derive(Drop)]
pub struct TopRows {
    columns: Vec<u32>,
    order: Vec<Order>,
    limit: u32,
    rows: Ranked,
}

impl Model for TopRows {
    ghost Value = { Kept };

    ghost view = { λ t.
        record {
          plan = record { columns = t.columns.items; order = t.order.items; limit = t.limit };
          rows = numbered
              t.rows.entries;
        } };

    ghost invariant = { λ t. AreKeyed t.order.items t.rows.entries × (length t.rows.entries ≤ t.limit) };
}

// Whether a row can't be among the first ones: there are `limit` already, and it doesn't stand before the last one.
fn is_behind(rows: &Ranked, order: &[Order], limit: u32, number: u32, row: &[Cell]) -> bool
    requires keyed { AreKeyed order.now rows.now.entries }
    requires few { length rows.now.entries ≤ limit }
    ensures behind { OnTrue result (take limit
        (insert_row codes order.now (number, row.now) (numbered rows.now.entries)) ≡ numbered rows.now.entries) }
    ensures among { OnFalse result (IsBehind limit order.now (numbered rows.now.entries) (number, row.now) → ⊥) }
{
    standing_order();
    if rows.len() < limit as usize {
        return false;
    }
    match rows.last_key_value() {
        Some((last, cells)) => !is_before(order, number, row, last.number, cells),
        None => true,
    }
}

// Whether a row of a block can't be among the first ones: its other columns aren't read.
fn is_behind_in(
    rows: &Ranked,
    order: &[Order],
    limit: u32,
    number: u32,
    block: &Block,
    row: u32,
) -> bool
    requires row { row < block.now.count }
    requires place { row < 64 }
    requires keyed { AreKeyed order.now rows.now.entries }
    requires few { length rows.now.entries ≤ limit }
    ensures behind { OnTrue result (take limit (insert_row codes order.now
        (number, row_at block.now row) (numbered rows.now.entries)) ≡ numbered rows.now.entries) }
    ensures among { OnFalse result
        (IsBehind limit order.now (numbered rows.now.entries) (number, row_at block.now row) → ⊥) }
{
    standing_order();
    if rows.len() < limit as usize {
        return false;
    }
    match rows.last_key_value() {
        Some((last, cells)) => !is_before_in(order, number, block, row, last.number, cells),
        None => true,
    }
}

// Puts a row at its place in the order.
fn put(
    rows: &mut Ranked,
    alloc: Global,
    order: &[Order],
    number: u32,
    row: &[Cell],
) -> Result<(), Memory>
    requires keyed { AreKeyed order.now rows.old.entries }
    ensures ok { OnOk result (has_number (numbered rows.old.entries) number ≡ false → numbered rows.new.entries
        ≡ insert_row codes order.now (number, row.now) (numbered rows.old.entries)) }
    ensures keyed { OnOk result (AreKeyed order.now rows.new.entries) }
    ensures few { OnOk result (length rows.new.entries ≤ length rows.old.entries + 1) }
    ensures err { OnErr result (rows.new.entries ≡ rows.old.entries) }
{
    standing_order();
    let places = places_of(alloc, order, row)?;
    let row = Vec::from_slice(alloc, row)?;
    rows.insert(Standing { places, number }, row)?;
    Ok(())
}

// Lets the last row go where there are more than `limit`.
fn cut(rows: &mut Ranked, limit: u32)
    requires { length rows.old.entries ≤ limit + 1 }
    ensures { rows.new.entries ≡ take limit rows.old.entries }
{
    if rows.len() > limit as usize {
        rows.pop_last();
    }
}

// Adds a row to the first ones.
fn add_to(
    rows: &mut Ranked,
    alloc: Global,
    order: &[Order],
    limit: u32,
    number: u32,
    row: &[Cell],
) -> Result<(), Memory>
    requires keyed { AreKeyed order.now rows.old.entries }
    requires few { length rows.old.entries ≤ limit }
    ensures ok { OnOk result (has_number (numbered rows.old.entries) number ≡ false → numbered rows.new.entries
        ≡ take limit (insert_row codes order.now (number, row.now) (numbered rows.old.entries))) }
    ensures free { IsBehind limit order.now (numbered rows.old.entries) (number, row.now) → IsOk result }
    ensures keyed { AreKeyed order.now rows.new.entries }
    ensures few { length rows.new.entries ≤ limit }
    ensures err { OnErr result (rows.new.entries ≡ rows.old.entries) }
{
    if is_behind(rows, order, limit, number, row) {
        return Ok(());
    }
    put(rows, alloc, order, number, row)?;
    cut(rows, limit);
    Ok(())
}

// Adds the rows of a map, one after another. Out of memory, some of them may have been added.
fn absorb(top: &mut TopRows, rows: &Ranked) -> Result<(), Memory>
    ensures ok { OnOk result ((before : List (Numbered Cell)) → Stands top.old before
        → AreDistinct (before ++ numbered rows.now.entries) → Stands top.new (before ++ numbered rows.now.entries)) }
    ensures plan { top.new.plan ≡ top.old.plan }
{
    for (standing, row) in rows {
        top.add(standing.number, row)?;
    }
    Ok(())
}

// The values of the named columns of a row.
fn values_of(alloc: Global, columns: &[u32], row: &[Cell]) -> Result<Vec<Cell>, AllocError>
    ensures { IfOk result (λ values. values.items ≡ map (cell codes row.now) columns.now) }
{
    columns.iter().map(|x| cell_at(row, *x)).collect(alloc)
}

// The values of the named columns of each row.
fn answer(alloc: Global, columns: &[u32], rows: &Ranked) -> Result<Vec<Vec<Cell>>, Memory>
    ensures { IfOk result (λ answer. lists answer.items
        ≡ map (λ (r : Numbered Cell). map (cell codes r.1) columns.now) (numbered rows.now.entries)) }
{
    let mut answer = Vec::with_capacity(alloc, rows.len())?;
    for (_, row) in rows {
        let values = values_of(alloc, columns, row)?;
        answer.push(values)?;
    }
    Ok(answer)
}

impl TopRows {
    /// The first rows of no rows. It takes no memory.
    pub fn new(alloc: Global, plan: RowPlan) -> Result<Self, Memory>
        ensures stands { IfOk result (λ t. Stands t []) }
        ensures plan { IfOk result (λ t. t.plan ≡ plan) }
    {
        let RowPlan {
            columns,
            order,
            limit,
        } = plan;
        Ok(TopRows {
            columns,
            order,
            limit,
            rows: BTreeMap::new(alloc),
        })
    }

    /// Adds a row by its number. A column behind the row's end counts as NULL, so a row may have any length.
    ///
    /// A row that can't be among the first ones costs one comparison and takes no memory, so it is never refused.
    /// Out of memory, the first rows stay as they were.
    pub fn add(&mut self, number: u32, row: &[Cell]) -> Result<(), Memory>
        ensures ok { OnOk result ((rows : List (Numbered Cell)) → Stands self.old rows → has_number rows number
            ≡ false → Stands self.new (rows ++ (number, row.now) ∷ [])) }
        ensures free { IsBehind self.old.plan.limit self.old.plan.order self.old.rows (number, row.now) → IsOk result }
        ensures plan { self.new.plan ≡ self.old.plan }
        ensures err { OnErr result (self.new ≡ self.old) }
    {
        let alloc = *self.columns.allocator();
        add_to(&mut self.rows, alloc, &self.order, self.limit, number, row)?;
        Ok(())
    }

    // Whether a row of a block can't be among the first ones, which its order columns alone tell.
    fn passes_over(&self, number: u32, block: &Block, row: u32) -> bool
        requires row { row < block.now.count }
        requires place { row < 64 }
        ensures behind { OnTrue result (take self.now.plan.limit (insert_row codes self.now.plan.order
            (number, row_at block.now row) self.now.rows) ≡ self.now.rows) }
        ensures among { OnFalse result
            (IsBehind self.now.plan.limit self.now.plan.order self.now.rows (number, row_at block.now row) → ⊥) }
    {
        is_behind_in(&self.rows, &self.order, self.limit, number, block, row)
    }

    /// Adds the chosen rows of a block, those whose bits are set, numbered on from the first row of the block.
    ///
    /// A row that can't be among the first ones is passed over by its order columns alone: it costs one comparison and
    /// takes no memory, so a block of such rows is never refused. Out of memory, the first ones of the chosen rows may
    /// have been added, and no other row.
    pub fn add_block(&mut self, first: u32, block: &Block, chosen: u64) -> Result<(), Memory>
        requires numbers { first + block.now.count ≤ 4294967296 }
        ensures ok { OnOk result ((rows : List (Numbered Cell)) → Stands self.old rows
            → AreApart rows (chosen_rows chosen (numbered_rows first block.now))
            → Stands self.new (rows ++ chosen_rows chosen (numbered_rows first block.now))) }
        ensures free { All (IsBehind self.old.plan.limit self.old.plan.order self.old.rows)
            (chosen_rows chosen (numbered_rows first block.now)) → IsOk result }
        ensures plan { self.new.plan ≡ self.old.plan }
        ensures err { OnErr result ((rows : List (Numbered Cell)) → Stands self.old rows
            → AreApart rows (chosen_rows chosen (numbered_rows first block.now))
            → HoldsInPart (Stands self.new) rows (chosen_rows chosen (numbered_rows first block.now))) }
    {
        let mut cells = [Cell::Null; 16];
        let cells = &mut cells[..block.width() as usize];
        for row in 0..block.len() {
            if !is_chosen(chosen, row) {
                continue;
            }
            if self.passes_over(first + row, block, row) {
                continue;
            }
            block.row(row, cells);
            self.add(first + row, cells)?;
        }
        Ok(())
    }

    /// How many rows are kept: never more than the limit of the plan.
    pub fn kept(&self) -> usize
        ensures count { result ≡ length self.now.rows }
        ensures few { result ≤ self.now.plan.limit }
    {
        self.rows.len()
    }

    // First rows of the same plan that stand for no rows.
    fn empty(&self) -> Result<Self, Memory>
        ensures stands { IfOk result (λ t. Stands t []) }
        ensures plan { IfOk result (λ t. t.plan ≡ self.now.plan) }
    {
        let alloc = *self.columns.allocator();
        Ok(TopRows {
            columns: Vec::from_slice(alloc, &self.columns)?,
            order: Vec::from_slice(alloc, &self.order)?,
            limit: self.limit,
            rows: BTreeMap::new(alloc),
        })
    }

    // First rows of their own that stand for the rows of two.
    fn united(&self, other: &TopRows) -> Result<TopRows, Memory>
        requires { other.now.plan ≡ self.now.plan }
        ensures ok { IfOk result (λ t. (rows more : List (Numbered Cell)) → Stands self.now rows
            → Stands other.now more → AreApart rows more → Stands t (rows ++ more)) }
        ensures plan { IfOk result (λ t. t.plan ≡ self.now.plan) }
    {
        let mut both = self.empty()?;
        absorb(&mut both, &self.rows)?;
        absorb(&mut both, &other.rows)?;
        Ok(both)
    }

    /// Adds the rows of other first rows, of the same plan, behind its own.
    ///
    /// Out of memory, the first rows stay as they were, and the others come back.
    pub fn merge(&mut self, other: TopRows) -> Result<(), (TopRows, Memory)>
        requires { other.plan ≡ self.old.plan }
        ensures ok { OnOk result ((rows more : List (Numbered Cell)) → Stands self.old rows → Stands other more
            → AreApart rows more → Stands self.new (rows ++ more)) }
        ensures plan { self.new.plan ≡ self.old.plan }
        ensures err { OnErr result (self.new ≡ self.old) }
        ensures back { IfErr result (λ e. e.0 ≡ other) }
    {
        match self.united(&other) {
            Ok(both) => {
                *self = both;
                Ok(())
            }
            Err(memory) => Err((other, memory)),
        }
    }

    /// The answer: the meaning of each list of rows that the first rows stand for, in whatever order its rows came.
    ///
    /// Out of memory, the rows are gone.
    pub fn finish(self) -> Result<Picked, Memory>
        ensures { IfOk result (λ picked. (rows : List (Numbered Cell)) → StandsInSomeOrder self rows → picked
            ≡ rows_meaning codes self.plan rows) }
    {
        let alloc = *self.columns.allocator();
        let rows = answer(alloc, &self.columns, &self.rows)?;
        Ok(Picked::new(rows))
    }
}
