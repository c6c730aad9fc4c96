// What no clause says: the worked answers, and that each call finds memory.
ghost use Rattle.std.specs.Prelude.{◌≡◌, ◌≤◌, ◌+◌, All, length, OnOk, IfOk};
ghost use Rattle.table_core.specs.Value.{places_of};
ghost use Rattle.query_meaning.specs.Places.{NamesPlaces};

use crate::fitting::{are_rows, items_in, keys_in, one_price};
use agg_groups::{FinishFault, Groups, Item, Rows, rows_text};
use std::alloc::Global;
use std::process::Abort;
use std::test::Fail;
use table_core::Cell::{self, Code, Int, Null};
use table_core::{Bytes, Dict, MOST_ROWS, Memory, Schema};

const MOST: i64 = 9223372036854775807;

pub(crate) fn empty(alloc: Global, items: &[Item], keys: &[u32]) -> Result<Groups, Memory>
    ensures items { IfOk result (λ g. g.items ≡ items.now) }
    ensures keys { IfOk result (λ g. g.keys ≡ keys.now) }
    ensures rows { IfOk result (λ g. g.rows ≡ 0) }
{
    let items = Vec::from_slice(alloc, items)?;
    Groups::new(alloc, items, Vec::from_slice(alloc, keys)?)
}

// Adds rows of two cells.
fn add_rows(groups: &mut Groups, rows: &[[Cell; 2]]) -> Result<(), Memory>
    requires places { NamesPlaces groups.old.items groups.old.keys 2 }
    requires few { groups.old.rows + length rows.now ≤ 100 }
    ensures items { groups.new.items ≡ groups.old.items }
    ensures keys { groups.new.keys ≡ groups.old.keys }
    ensures rows { OnOk result (groups.new.rows ≡ groups.old.rows + length rows.now) }
{
    for row in rows {
        groups.add_row(row)?;
    }
    Ok(())
}

// The groups of rows of two cells.
fn grouped(
    alloc: Global,
    items: &[Item],
    keys: &[u32],
    rows: &[[Cell; 2]],
) -> Result<Groups, Memory>
    requires places { NamesPlaces items.now keys.now 2 }
    requires few { length rows.now ≤ 100 }
    ensures items { IfOk result (λ g. g.items ≡ items.now) }
    ensures keys { IfOk result (λ g. g.keys ≡ keys.now) }
    ensures rows { IfOk result (λ g. g.rows ≡ length rows.now) }
{
    let mut groups = empty(alloc, items, keys)?;
    add_rows(&mut groups, rows)?;
    Ok(groups)
}

type Answer = Result<&'static [&'static [Cell]], FinishFault>;

fn is_wanted(got: &Result<Rows, FinishFault>, wanted: Answer) -> bool {
    match (got, wanted) {
        (Ok(rows), Ok(lines)) => are_rows(rows.as_slice(), lines),
        (Err(fault), Err(other)) => *fault == other,
        _ => false,
    }
}

// Adds groups behind the others.
fn merge(groups: &mut Groups, more: Groups) -> Result<(), Memory>
    requires items { more.items ≡ groups.old.items }
    requires keys { more.keys ≡ groups.old.keys }
    requires few { groups.old.rows + more.rows ≤ MOST_ROWS }
{
    match groups.merge(more) {
        Ok(()) => Ok(()),
        Err((_, memory)) => Err(memory),
    }
}

// Whether the groups of the rows, merged with those of more rows, give the answer.
fn gives(
    alloc: Global,
    items: &[Item],
    keys: &[u32],
    rows: &[[Cell; 2]],
    more: &[[Cell; 2]],
    wanted: Answer,
) -> Result<bool, Memory>
    requires places { NamesPlaces items.now keys.now 2 }
    requires few { length rows.now ≤ 50 }
    requires few_more { length more.now ≤ 50 }
{
    let mut groups = grouped(alloc, items, keys, rows)?;
    merge(&mut groups, grouped(alloc, items, keys, more)?)?;
    Ok(is_wanted(&groups.finish(), wanted))
}

// A name, items, keys, rows of two cells, and the answer.
type Case = (
    &'static str,
    &'static [Item],
    &'static [u32],
    &'static [[Cell; 2]],
    Answer,
);

// Tests the answer, where the rows are cut in two parts at each place.
fn check(rt: &impl Abort, alloc: Global, case: &Case) -> Result<(), Fail> {
    let (name, items, keys, rows, wanted) = *case;
    assert!(rt; items_in(items, 2) && keys_in(keys, 2));
    assert!(rt; rows.len() <= 50);
    for cut in 0..rows.len() + 1 {
        let gives = gives(alloc, items, keys, &rows[..cut], &rows[cut..], wanted)?;
        assert!(rt; gives, "{name}, cut at {cut}");
    }
    Ok(())
}

fn check_cases(rt: &impl Abort, alloc: Global, cases: &[Case]) -> Result<(), Fail> {
    for case in cases {
        check(rt, alloc, case)?;
    }
    Ok(())
}

const PAY: [[Cell; 2]; 5] = [
    [Code(0), Int(10)],
    [Code(1), Int(20)],
    [Code(0), Null],
    [Code(2), Int(40)],
    [Code(1), Int(-5)],
];

const BY_DEPT: [Item; 3] = [Item::Key(0), Item::Sum(1), Item::Count(1)];

const OF_EACH_ITEM: [Item; 5] = [
    Item::CountAll,
    Item::Count(0),
    Item::Sum(0),
    Item::Min(0),
    Item::Max(1),
];

const CASES: &[Case] = &[
    (
        "sums and counts by dept",
        &BY_DEPT,
        &[0],
        &PAY,
        Ok(&[
            &[Code(0), Int(10), Int(1)],
            &[Code(1), Int(15), Int(2)],
            &[Code(2), Int(40), Int(1)],
        ]),
    ),
    (
        "all rows",
        &[Item::CountAll, Item::Min(1), Item::Max(1)],
        &[],
        &PAY,
        Ok(&[&[Int(5), Int(-5), Int(40)]]),
    ),
    (
        "no rows",
        &[Item::CountAll, Item::Sum(1), Item::Min(1)],
        &[],
        &[],
        Ok(&[&[Int(0), Null, Null]]),
    ),
    ("no rows by dept", &BY_DEPT, &[0], &[], Ok(&[])),
    (
        "NULL keys form one group",
        &[Item::Key(0), Item::Sum(1)],
        &[0],
        &[[Code(7), Int(2)], [Null, Int(1)], [Null, Int(3)]],
        Ok(&[&[Null, Int(4)], &[Code(7), Int(2)]]),
    ),
    (
        "no value is left",
        &OF_EACH_ITEM,
        &[],
        &[[Null, Null], [Null, Null]],
        Ok(&[&[Int(2), Int(0), Null, Null, Null]]),
    ),
    (
        "two key columns",
        &[Item::CountAll, Item::Key(1), Item::Key(0)],
        &[0, 1],
        &[
            [Int(2), Int(1)],
            [Int(1), Int(2)],
            [Int(2), Int(0)],
            [Int(1), Int(2)],
        ],
        Ok(&[
            &[Int(2), Int(2), Int(1)],
            &[Int(1), Int(0), Int(2)],
            &[Int(1), Int(1), Int(2)],
        ]),
    ),
];

#[test]
fn sums_counts_least_and_greatest_by_key(rt: HostRuntime) -> Result<(), Fail> {
    check_cases(&rt, rt.alloc(), CASES)
}

const EDGES: &[Case] = &[
    (
        "one above",
        &[Item::Sum(0)],
        &[],
        &[[Int(MOST), Null], [Int(1), Null]],
        Err(FinishFault::SumOverflow {
            item: 1,
            total: 9223372036854775808,
        }),
    ),
    (
        "back again",
        &[Item::Sum(0)],
        &[],
        &[[Int(MOST), Null], [Int(1), Null], [Int(-1), Null]],
        Ok(&[&[Int(MOST)]]),
    ),
    (
        "the least",
        &[Item::Sum(0)],
        &[],
        &[[Int(-MOST), Null], [Int(-1), Null]],
        Ok(&[&[Int(-MOST - 1)]]),
    ),
    (
        "merged sums",
        &[Item::Sum(0)],
        &[],
        &[[Int(5), Null], [Int(-2), Null]],
        Ok(&[&[Int(3)]]),
    ),
    (
        "the first in key order",
        &[Item::CountAll, Item::Sum(0)],
        &[1],
        &[
            [Int(MOST), Int(8)],
            [Int(-MOST), Int(2)],
            [Int(-2), Int(2)],
            [Int(1), Int(8)],
        ],
        Err(FinishFault::SumOverflow {
            item: 2,
            total: -9223372036854775809,
        }),
    ),
];

#[test]
fn sums_at_the_edge_of_64_bits(rt: HostRuntime) -> Result<(), Fail> {
    check_cases(&rt, rt.alloc(), EDGES)
}

// The text of one row with a count, a sum and a NULL over a column with two places.
fn row_text(alloc: Global, schema: &Schema, dicts: &[Dict]) -> Result<Bytes, Memory>
    requires one { length schema.now ≡ 1 }
    requires dicts { length dicts.now ≡ 1 }
    requires places { All (λ c. places_of c.kind ≤ 9) schema.now }
{
    let row = vec![in alloc; Int(3), Int(-25), Null]?;
    let rows = Rows::new(vec![in alloc; row]?);
    let items = [Item::CountAll, Item::Sum(0), Item::Max(0)];
    rows_text(alloc, 7, &items, &[], schema, dicts, &rows)
}

fn one_text(alloc: Global) -> Result<Bytes, Memory> {
    let schema = one_price(alloc)?;
    let dicts = vec![in alloc; Dict::new(alloc)]?;
    row_text(alloc, &schema, &dicts)
}

#[test]
fn counts_and_sums_are_printed(rt: HostRuntime) -> Result<(), Fail> {
    let text = one_text(rt.alloc())?;
    assert!(rt; text.as_slice() == b"query 7\n3, -0.25, NULL\n".as_slice());
    Ok(())
}
