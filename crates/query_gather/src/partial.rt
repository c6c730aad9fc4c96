// What a query's scan gathers.
ghost use Rattle.std.specs.Prelude.{◌≡◌, ◌<◌, ◌≤◌, ◌+◌, ◌++◌, ℕ, List, [], ◌∷◌};
ghost use Rattle.std.specs.Prelude.{length, false, All, OnOk, OnErr, IfOk, IsOk};
ghost use Rattle.table_core.specs.declared.cell.Cell.{Cell};
ghost use Rattle.row_blocks.specs.Blocks.{rows_in};
ghost use Rattle.row_blocks.specs.Chosen.{chosen as chosen_rows};
ghost use Rattle.agg_groups.specs.Groups as grouped;
ghost use Rattle.query_meaning.specs.Places.{NamesPlaces};
ghost use Rattle.top_rows.specs.Blocks.{HoldsInPart, numbered_rows};
ghost use Rattle.query_meaning.specs.Rows.{Numbered, AreApart};
ghost use Rattle.top_rows.specs.Top as first;
ghost use Rattle.sql_bind.specs.declared.plan.Plan.{Plan};
ghost use Rattle.scan_story.specs.declared.cause.Cause.TheVariants as cause;
ghost use Rattle.query_gather.specs.Answer.{IsAnswerOver, StopsFor};
ghost use Rattle.query_gather.specs.Partial as spec;
ghost use Rattle.sql_bind.specs.Meaning as meaning;

use crate::answer::Answer;
use crate::choosing::{chosen_of, matches};
use agg_groups::{FinishFault, Groups};
use row_blocks::Block;
use scan_story::Cause;
use sql_bind::Plan;
use std::alloc::Global;
use table_core::{Cell, MOST_ROWS, Memory};
use top_rows::TopRows;

/// What a query's scan gathers of the rows that match: their groups, or the first of them.
///
/// It stands for a list of numbered rows where its groups or first rows do. A row's number is its place in the table,
/// counted from 0. Groups count the rows that were added, at most `MOST_ROWS`; first rows count none, so that bound is
/// of groups alone.
#[derive(Drop)]
pub enum Partial {
    /// The groups of a query without a limit.
    Groups(Groups),
    /// The first rows of a query with one.
    Top(TopRows),
}

// Adds the chosen rows of a block to groups. Out of memory, none of them is added.
fn add_chosen_rows(groups: &mut Groups, block: &Block, chosen: u64) -> Result<(), Memory>
    requires few { groups.old.rows + block.now.count ≤ MOST_ROWS }
    requires places { NamesPlaces groups.old.items groups.old.keys block.now.width }
    ensures ok { OnOk result ((rows : List (List Cell)) → grouped.Stands groups.old rows
        → grouped.Stands groups.new (rows ++ chosen_rows chosen (rows_in block.now))) }
    ensures count { groups.new.rows ≤ groups.old.rows + block.now.count }
    ensures items { groups.new.items ≡ groups.old.items }
    ensures keys { groups.new.keys ≡ groups.old.keys }
    ensures err { OnErr result ((rows : List (List Cell)) → grouped.Stands groups.old rows
        → HoldsInPart (grouped.Stands groups.new) rows (chosen_rows chosen (rows_in block.now))) }
{
    groups.add_block(block, chosen)
}

// Adds the rows of other groups behind. Out of memory, the others are gone.
fn join_groups(groups: &mut Groups, other: Groups) -> Result<(), Memory>
    requires items { other.items ≡ groups.old.items }
    requires keys { other.keys ≡ groups.old.keys }
    requires few { groups.old.rows + other.rows ≤ MOST_ROWS }
    ensures ok { OnOk result ((rows more : List (List Cell)) → grouped.Stands groups.old rows
        → grouped.Stands other more → grouped.Stands groups.new (rows ++ more)) }
    ensures count { OnOk result (groups.new.rows ≡ groups.old.rows + other.rows) }
    ensures items { groups.new.items ≡ groups.old.items }
    ensures keys { groups.new.keys ≡ groups.old.keys }
{
    match groups.merge(other) {
        Ok(()) => Ok(()),
        Err((_, memory)) => Err(memory),
    }
}

// Adds the rows of other first rows. Out of memory, the others are gone.
fn join_top(top: &mut TopRows, other: TopRows) -> Result<(), Memory>
    requires { other.plan ≡ top.old.plan }
    ensures ok { OnOk result ((rows more : List (Numbered Cell)) → first.Stands top.old rows → first.Stands other more
        → AreApart rows more → first.Stands top.new (rows ++ more)) }
    ensures plan { top.new.plan ≡ top.old.plan }
{
    match top.merge(other) {
        Ok(()) => Ok(()),
        Err((_, memory)) => Err(memory),
    }
}

impl Partial {
    /// What is gathered of no rows.
    pub fn of(alloc: Global, plan: &Plan) -> Result<Self, Memory>
        ensures plan { IfOk result (λ p. spec.FitsPlan plan.now p) }
        ensures stands { IfOk result (λ p. spec.Stands p []) }
        ensures count { IfOk result (λ p. spec.row_count p ≡ 0) }
    {
        match &plan.rows {
            Some(rows) => Ok(Partial::Top(TopRows::new(alloc, rows.copy(alloc)?)?)),
            None => {
                let items = Vec::from_slice(alloc, &plan.items)?;
                let keys = Vec::from_slice(alloc, &plan.keys)?;
                Ok(Partial::Groups(Groups::new(alloc, items, keys)?))
            }
        }
    }

    // Adds a row that matches.
    fn add_matching(&mut self, number: u32, row: &[Cell]) -> Result<(), Memory>
        requires width { spec.HasPlaces self.old (length row.now) }
        requires few { spec.row_count self.old < MOST_ROWS }
        ensures ok { OnOk result ((rows : List (Numbered Cell)) → spec.Stands self.old rows
            → spec.IsNew self.old rows number → spec.Stands self.new (rows ++ (number, row.now) ∷ [])) }
        ensures alike { spec.IsAlike self.old self.new }
        ensures count { spec.row_count self.new ≤ spec.row_count self.old + 1 }
        ensures err { OnErr result (self.new ≡ self.old) }
    {
        match self {
            Partial::Groups(groups) => groups.add_row(row),
            Partial::Top(top) => top.add(number, row),
        }
    }

    /// Adds a row, by its number, where the plan's condition is true of it, and else nothing.
    ///
    /// A row of which it isn't true takes no memory. Out of memory, what is gathered stays as it was.
    pub fn add_row(&mut self, plan: &Plan, number: u32, row: &[Cell]) -> Result<(), Memory>
        requires cond { spec.FitsCond plan.now.cond row.now }
        requires width { spec.FitsWidth plan.now (length row.now) }
        requires plan { spec.FitsPlan plan.now self.old }
        requires few { spec.row_count self.old < MOST_ROWS }
        ensures ok { OnOk result ((rows : List (Numbered Cell)) → spec.Stands self.old rows
            → spec.IsNew self.old rows number
            → spec.Stands self.new (rows ++ spec.matching plan.now ((number, row.now) ∷ []))) }
        ensures plan { (p : Plan) → spec.FitsPlan p self.old → spec.FitsPlan p self.new }
        ensures count { spec.row_count self.new ≤ spec.row_count self.old + 1 }
        // A row that doesn't match is never refused.
        ensures free { meaning.matches plan.now.cond row.now ≡ false → IsOk result }
        ensures err { OnErr result (self.new ≡ self.old) }
    {
        if !matches(&plan.cond, row) {
            return Ok(());
        }
        self.add_matching(number, row)
    }

    // Adds the chosen rows of a block.
    fn add_chosen(&mut self, first: u32, block: &Block, chosen: u64) -> Result<(), Memory>
        requires width { spec.HasPlaces self.old block.now.width }
        requires few { spec.row_count self.old + block.now.count ≤ MOST_ROWS }
        requires numbers { first + block.now.count ≤ MOST_ROWS }
        ensures ok { OnOk result ((rows : List (Numbered Cell)) → spec.Stands self.old rows
            → spec.MayJoin self.old rows (numbered_rows first block.now)
            → spec.Stands self.new (rows ++ chosen_rows chosen (numbered_rows first block.now))) }
        ensures alike { spec.IsAlike self.old self.new }
        ensures count { spec.row_count self.new ≤ spec.row_count self.old + block.now.count }
        ensures err { OnErr result ((rows : List (Numbered Cell)) → spec.Stands self.old rows
            → spec.MayJoin self.old rows (numbered_rows first block.now)
            → HoldsInPart (spec.Stands self.new) rows (chosen_rows chosen (numbered_rows first block.now))) }
    {
        match self {
            Partial::Groups(groups) => add_chosen_rows(groups, block, chosen),
            Partial::Top(top) => top.add_block(first, block, chosen),
        }
    }

    /// Adds the rows of a block of which the plan's condition is true, or all of them where there is none, by their
    /// numbers: the first row of the block has the number `first`.
    ///
    /// Out of memory, the first ones of the rows that match may have been added, and no other row.
    pub fn add_block(&mut self, plan: &Plan, first: u32, block: &Block) -> Result<(), Memory>
        requires cond { spec.FitsCondOver plan.now.cond block.now }
        requires width { spec.FitsWidth plan.now block.now.width }
        requires plan { spec.FitsPlan plan.now self.old }
        requires few { spec.row_count self.old + block.now.count ≤ MOST_ROWS }
        requires numbers { first + block.now.count ≤ MOST_ROWS }
        ensures ok { OnOk result ((rows : List (Numbered Cell)) → spec.Stands self.old rows
            → spec.MayJoin self.old rows (numbered_rows first block.now)
            → spec.Stands self.new (rows ++ spec.matching plan.now (numbered_rows first block.now))) }
        ensures plan { (p : Plan) → spec.FitsPlan p self.old → spec.FitsPlan p self.new }
        ensures count { spec.row_count self.new ≤ spec.row_count self.old + block.now.count }
        ensures err { OnErr result ((rows : List (Numbered Cell)) → spec.Stands self.old rows
            → spec.MayJoin self.old rows (numbered_rows first block.now)
            → HoldsInPart (spec.Stands self.new) rows (spec.matching plan.now (numbered_rows first block.now))) }
    {
        let chosen = chosen_of(&plan.cond, block);
        self.add_chosen(first, block, chosen)
    }

    /// The answer: what the plan means over each list of rows that is gathered.
    ///
    /// A query without a limit is answered its result rows, or the first sum that overflows, and one with a limit its
    /// rows.
    /// Out of memory, it is stopped.
    pub fn finish(self) -> Answer
        ensures answer { (p : Plan) (rows : List (Numbered Cell)) → spec.FitsPlan p self → spec.Stands self rows
            → IsAnswerOver p rows result }
        ensures stops { StopsFor cause.Memory result }
    {
        match self {
            Partial::Groups(groups) => match groups.finish() {
                Ok(rows) => Answer::Rows(rows),
                Err(FinishFault::SumOverflow { item, total }) => Answer::Overflow { item, total },
                Err(FinishFault::Memory) => Answer::Stopped(Cause::Memory),
            },
            Partial::Top(top) => match top.finish() {
                Ok(picked) => Answer::Picked(picked),
                Err(Memory) => Answer::Stopped(Cause::Memory),
            },
        }
    }

    // Adds what another one gathered, behind its own. Out of memory, the other is gone.
    fn merge(&mut self, other: Partial) -> Result<(), Memory>
        requires alike { spec.IsAlike self.old other }
        requires few { spec.row_count self.old + spec.row_count other ≤ MOST_ROWS }
        ensures ok { OnOk result ((rows more : List (Numbered Cell)) → spec.Stands self.old rows
            → spec.Stands other more → spec.MayJoin self.old rows more → spec.Stands self.new (rows ++ more)) }
        ensures alike { spec.IsAlike self.old self.new }
        ensures count { OnOk result (spec.row_count self.new ≡ spec.row_count self.old + spec.row_count other) }
    {
        match (self, other) {
            (Partial::Groups(groups), Partial::Groups(other)) => join_groups(groups, other),
            (Partial::Top(top), Partial::Top(other)) => join_top(top, other),
            _ => unreachable!(),
        }
    }
}

/// Joins what parts of a query gathered, in order.
///
/// Out of memory, all of them are gone.
pub fn join_parts(first: Partial, rest: Vec<Partial>) -> Result<Partial, Memory>
    requires alike { All (spec.IsAlike first) rest.items }
    requires few { spec.row_count first + spec.rows_of_all rest.items ≤ MOST_ROWS }
    ensures stands { IfOk result (λ whole. (rows : List (Numbered Cell)) (lists : List (List (Numbered Cell)))
        → spec.Stands first rows → spec.StandForEach rest.items lists
        → spec.MayJoinAll first rows lists → spec.Stands whole (rows ++ spec.joined lists)) }
    ensures plan { IfOk result (λ whole. (p : Plan) → spec.FitsPlan p first → spec.FitsPlan p whole) }
{
    let mut whole = first;
    let mut rest = rest;
    while !rest.is_empty() {
        let part = rest.remove(0);
        whole.merge(part)?;
    }
    Ok(whole)
}
