// What no clause says: the worked answers, from one part to three, and that each call finds memory.
ghost use Rattle.std.specs.Prelude.{◌≤◌, All, IfOk, length};
ghost use Rattle.std.specs.Bool.{OnTrue};
ghost use Rattle.query_gather.specs.Partial as spec;
ghost use Rattle.query_gather.specs.declared.partial.Partial as spec_partial;

use crate::fitting::{are_rows, fits_row, items_in, keys_in};
use agg_groups::Item;
use filter_zones::{Bound, Cond};
use query_gather::{Answer, Cause, Partial, join_parts};
use sql_bind::Plan;
use std::alloc::Global;
use std::process::Abort;
use std::test::Fail;
use table_core::Cell::{Code, Int, Null};
use table_core::{Cell, ColumnSet, Memory, Op};
use top_rows::{Order, RowPlan};

type Row = (u32, &'static [Cell]);

const MOST: i64 = 9223372036854775807;

const ID: u32 = 0;

const DEPT: u32 = 1;

const PAY: u32 = 2;

// The rows of a table `id,dept,pay`, with their numbers.
const ROWS: [Row; 5] = [
    (0, &[Int(1), Code(0), Int(10)]),
    (1, &[Int(2), Code(1), Int(20)]),
    (2, &[Int(3), Code(0), Null]),
    (3, &[Int(4), Code(2), Int(40)]),
    (4, &[Int(5), Code(1), Int(-5)]),
];

// Rows of which each sum is too great.
const GREAT: [Row; 4] = [
    (0, &[Int(MOST), Code(1), Int(MOST)]),
    (1, &[Int(MOST), Code(0), Int(1)]),
    (2, &[Int(1), Code(1), Int(MOST)]),
    (3, &[Int(1), Code(0), Int(MOST)]),
];

// What an answer is to be.
#[derive(Clone, Copy)]
enum Wanted {
    Rows(&'static [&'static [Cell]]),
    Picked(&'static [&'static [Cell]]),
    Overflow(u32, i128),
}

fn fits_cond(cond: &Option<Cond>, row: &[Cell]) -> bool
    ensures { OnTrue result (spec.FitsCond cond.now row.now) }
{
    match cond {
        Some(cond) => fits_row(cond, row),
        None => true,
    }
}

fn fits_plan(plan: &Plan, row: &[Cell]) -> bool
    ensures width { OnTrue result (spec.FitsWidth plan.now (length row.now)) }
    ensures cond { OnTrue result (spec.FitsCond plan.now.cond row.now) }
{
    items_in(&plan.items, row.len()) && keys_in(&plan.keys, row.len()) && fits_cond(&plan.cond, row)
}

// What some rows leave.
fn gathered(rt: &impl Abort, alloc: Global, plan: &Plan, rows: &[Row]) -> Result<Partial, Memory>
    ensures plan { IfOk result (λ p. spec.FitsPlan plan.now p) }
    ensures few { IfOk result (λ p. spec.row_count p ≤ 100) }
{
    assert!(rt; rows.len() <= 100);
    let mut partial = Partial::of(alloc, plan)?;
    for (number, row) in rows {
        assert!(rt; fits_plan(plan, row));
        partial.add_row(plan, *number, row)?;
    }
    Ok(partial)
}

// What the rows of two parts leave.
fn both_gathered(
    rt: &impl Abort,
    alloc: Global,
    plan: &Plan,
    second: &[Row],
    third: &[Row],
) -> Result<Vec<Partial>, Memory>
    ensures alike { IfOk result (λ v. (p : spec_partial.Partial) → spec.FitsPlan plan.now p
        → All (spec.IsAlike p) v.items) }
    ensures few { IfOk result (λ v. spec.rows_of_all v.items ≤ 200) }
{
    let second = gathered(rt, alloc, plan, second)?;
    let third = gathered(rt, alloc, plan, third)?;
    Ok(vec![in alloc; second, third]?)
}

// Whether the rows give the answer that is wanted where they come in three parts.
fn give(
    rt: &impl Abort,
    alloc: Global,
    plan: &Plan,
    (first, second, third): (&[Row], &[Row], &[Row]),
    wanted: &Wanted,
) -> Result<bool, Memory> {
    let first = gathered(rt, alloc, plan, first)?;
    let rest = both_gathered(rt, alloc, plan, second, third)?;
    Ok(is_wanted(&join_parts(first, rest)?.finish(), wanted))
}

// Whether the rows give the answer that is wanted where they come in one part.
fn give_at_once(
    rt: &impl Abort,
    alloc: Global,
    plan: &Plan,
    rows: &[Row],
    wanted: &Wanted,
) -> Result<bool, Memory> {
    let whole = gathered(rt, alloc, plan, rows)?;
    Ok(is_wanted(&join_parts(whole, Vec::new(alloc))?.finish(), wanted))
}

fn is_wanted(answer: &Answer, wanted: &Wanted) -> bool {
    match (answer, wanted) {
        (Answer::Rows(rows), Wanted::Rows(cells)) => are_rows(rows.as_slice(), cells),
        (Answer::Picked(rows), Wanted::Picked(cells)) => are_rows(rows.as_slice(), cells),
        (Answer::Overflow { item, total }, Wanted::Overflow(place, sum)) => item == place
            && total == sum,
        _ => false,
    }
}

// The answer over rows in three parts, the first of which ends here.
fn check_cut(
    rt: &impl Abort,
    alloc: Global,
    name: &str,
    plan: &Plan,
    rows: &[Row],
    cut: usize,
    wanted: &Wanted,
) -> Result<(), Fail>
    requires { cut ≤ length rows.now }
{
    for end in cut..rows.len() + 1 {
        let parts = (&rows[..cut], &rows[cut..end], &rows[end..]);
        let give = give(rt, alloc, plan, parts, wanted)?;
        assert!(rt; give, "{name}, cut at {cut} and {end}");
    }
    Ok(())
}

// The answer over rows in up to three parts, cut at each place.
fn check(
    rt: &impl Abort,
    alloc: Global,
    name: &str,
    plan: &Plan,
    rows: &[Row],
    wanted: &Wanted,
) -> Result<(), Fail> {
    let give = give_at_once(rt, alloc, plan, rows, wanted)?;
    assert!(rt; give, "{name}");
    for cut in 0..rows.len() + 1 {
        check_cut(rt, alloc, name, plan, rows, cut, wanted)?;
    }
    Ok(())
}

// What is asked of the rows that match: groups of items by keys, or so many rows of columns in an order.
#[derive(Clone, Copy)]
enum Asked {
    Groups(&'static [Item], &'static [u32]),
    Rows(&'static [u32], &'static [Order], u32),
}

fn rows_asked(alloc: Global, asked: Asked) -> Result<Option<RowPlan>, Memory> {
    let Asked::Rows(columns, order, limit) = asked else {
        return Ok(None);
    };
    Ok(Some(RowPlan {
        columns: Vec::from_slice(alloc, columns)?,
        order: Vec::from_slice(alloc, order)?,
        limit,
    }))
}

fn plan_of(alloc: Global, asked: Asked, cond: Option<Cond>) -> Result<Plan, Memory> {
    let (items, keys) = match asked {
        Asked::Groups(items, keys) => (items, keys),
        Asked::Rows(..) => (&[][..], &[][..]),
    };
    Ok(Plan {
        items: Vec::from_slice(alloc, items)?,
        keys: Vec::from_slice(alloc, keys)?,
        cond,
        columns: ColumnSet::empty(),
        rows: rows_asked(alloc, asked)?,
    })
}

// Which rows match: all, those whose pay is greater than a number, or those of which that isn't true.
#[derive(Clone, Copy)]
enum Where {
    All,
    PaysMore(i64),
    PaysNoMore(i64),
}

// The pay is greater than this number.
fn pays_more(than: i64) -> Cond {
    Cond::Compare {
        column: PAY,
        op: Op::Gt,
        value: Bound::Number(i128::from(than) * 2),
    }
}

fn cond_of(alloc: Global, rows: Where) -> Result<Option<Cond>, Memory> {
    Ok(match rows {
        Where::All => None,
        Where::PaysMore(than) => Some(pays_more(than)),
        Where::PaysNoMore(than) => Some(Cond::Not(Box::new(alloc, pays_more(than))?)),
    })
}

// A name, what is asked, of which rows, those of the table, and the answer.
type Case = (&'static str, Asked, Where, &'static [Row], Wanted);

fn check_case(rt: &impl Abort, alloc: Global, case: &Case) -> Result<(), Fail> {
    let (name, asked, rows, table, wanted) = case;
    let plan = plan_of(alloc, *asked, cond_of(alloc, *rows)?)?;
    check(rt, alloc, name, &plan, table, wanted)
}

fn check_cases(rt: &impl Abort, alloc: Global, cases: &[Case]) -> Result<(), Fail> {
    for case in cases {
        check_case(rt, alloc, case)?;
    }
    Ok(())
}

const BY_DEPT: Asked = Asked::Groups(&[Item::Key(0), Item::CountAll, Item::Sum(PAY)], &[DEPT]);

const ALL_GROUPS: Wanted = Wanted::Rows(&[
    &[Code(0), Int(2), Int(10)],
    &[Code(1), Int(2), Int(15)],
    &[Code(2), Int(1), Int(40)],
]);

const PAID_GROUPS: Wanted = Wanted::Rows(&[
    &[Code(0), Int(1), Int(10)],
    &[Code(1), Int(1), Int(20)],
    &[Code(2), Int(1), Int(40)],
]);

const UNPAID_GROUPS: Wanted = Wanted::Rows(&[&[Code(1), Int(1), Int(-5)]]);

const NO_GROUPS: Wanted = Wanted::Rows(&[]);

const ONE_GROUP: Wanted = Wanted::Rows(&[&[Int(0), Null]]);

const GROUPS: &[Case] = &[
    ("all rows", BY_DEPT, Where::All, &ROWS, ALL_GROUPS),
    (
        "no row, no group",
        BY_DEPT,
        Where::PaysMore(40),
        &ROWS,
        NO_GROUPS,
    ),
    (
        "one without keys",
        Asked::Groups(&[Item::CountAll, Item::Sum(PAY)], &[]),
        Where::PaysMore(40),
        &ROWS,
        ONE_GROUP,
    ),
];

#[test]
fn groups_are_answered_with_their_rows(rt: HostRuntime) -> Result<(), Fail> {
    check_cases(&rt, rt.alloc(), GROUPS)
}

const UNKNOWN: &[Case] = &[
    (
        "more than 0",
        BY_DEPT,
        Where::PaysMore(0),
        &ROWS,
        PAID_GROUPS,
    ),
    (
        "not more than 0",
        BY_DEPT,
        Where::PaysNoMore(0),
        &ROWS,
        UNPAID_GROUPS,
    ),
];

#[test]
fn a_condition_that_is_unknown_leaves_a_row_out(rt: HostRuntime) -> Result<(), Fail> {
    check_cases(&rt, rt.alloc(), UNKNOWN)
}

const SUMS: Asked = Asked::Groups(&[Item::Max(ID), Item::Sum(PAY), Item::Sum(ID)], &[DEPT]);

const OVERFLOWS: &[Case] = &[
    (
        "first in key order",
        SUMS,
        Where::All,
        &GREAT,
        Wanted::Overflow(2, 9223372036854775808),
    ),
    (
        "in a later group",
        SUMS,
        Where::PaysMore(1),
        &GREAT,
        Wanted::Overflow(2, 18446744073709551614),
    ),
];

#[test]
fn the_first_sum_that_overflows_is_answered(rt: HostRuntime) -> Result<(), Fail> {
    check_cases(&rt, rt.alloc(), OVERFLOWS)
}

const GREATEST_FIRST: [Order; 1] = [Order {
    column: PAY,
    descending: true,
}];

const FIRSTS: &[Case] = &[
    (
        "the greatest first",
        Asked::Rows(&[ID, PAY], &GREATEST_FIRST, 2),
        Where::All,
        &ROWS,
        Wanted::Picked(&[&[Int(4), Int(40)], &[Int(2), Int(20)]]),
    ),
    (
        "of those that match",
        Asked::Rows(&[ID], &GREATEST_FIRST, 9),
        Where::PaysNoMore(20),
        &ROWS,
        Wanted::Picked(&[&[Int(2)], &[Int(1)], &[Int(5)]]),
    ),
];

#[test]
fn first_rows_are_answered(rt: HostRuntime) -> Result<(), Fail> {
    check_cases(&rt, rt.alloc(), FIRSTS)
}

const PLAIN: &[Case] = &[
    (
        "by their numbers",
        Asked::Rows(&[ID], &[], 3),
        Where::All,
        &ROWS,
        Wanted::Picked(&[&[Int(1)], &[Int(2)], &[Int(3)]]),
    ),
    (
        "none asked for",
        Asked::Rows(&[ID], &[], 0),
        Where::All,
        &ROWS,
        Wanted::Picked(&[]),
    ),
];

#[test]
fn first_rows_without_an_order_stand_by_their_numbers(rt: HostRuntime) -> Result<(), Fail> {
    check_cases(&rt, rt.alloc(), PLAIN)
}

#[test]
fn stopped_queries_have_no_answer(rt: HostRuntime) {
    let read = Cause::Read {
        before: 1,
        after: 2,
    };
    let damage = Cause::Damage { piece: 3, word: 4 };
    for cause in [read, damage, Cause::Memory] {
        assert!(rt; Answer::Stopped(cause).is_stopped());
    }
}
