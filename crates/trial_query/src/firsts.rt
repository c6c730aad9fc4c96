// What no clause says: the worked answers, and that each call finds memory.
ghost use Rattle.std.specs.Prelude.{◌≡◌, ◌≤◌, All, IfOk, length};
ghost use Rattle.table_core.specs.Value.{places_of};

use crate::fitting::{are_rows, one_price};
use std::alloc::Global;
use std::process::Abort;
use std::test::Fail;
use table_core::Cell::{Code, Int, Null};
use table_core::{Bytes, Cell, Dict, Memory, Schema};
use top_rows::{Order, Picked, RowPlan, TopRows, picked_text};

type Row = (u32, &'static [Cell]);

// The rows of a table `id,dept,pay`, with their numbers.
const PAY: [Row; 5] = [
    (0, &[Int(1), Code(0), Int(10)]),
    (1, &[Int(2), Code(1), Int(20)]),
    (2, &[Int(3), Code(0), Null]),
    (3, &[Int(4), Code(2), Int(40)]),
    (4, &[Int(5), Code(1), Int(-5)]),
];

// The rows behind the first.
const LATER: [Row; 4] = [
    (1, &[Int(2), Code(1), Int(20)]),
    (2, &[Int(3), Code(0), Null]),
    (3, &[Int(4), Code(2), Int(40)]),
    (4, &[Int(5), Code(1), Int(-5)]),
];

// The rows of the table in another order.
const MIXED: [Row; 5] = [
    (4, &[Int(5), Code(1), Int(-5)]),
    (2, &[Int(3), Code(0), Null]),
    (3, &[Int(4), Code(2), Int(40)]),
    (0, &[Int(1), Code(0), Int(10)]),
    (1, &[Int(2), Code(1), Int(20)]),
];

const ID: u32 = 0;

const DEPT: u32 = 1;

const AMOUNT: u32 = 2;

fn plan_of(alloc: Global, columns: &[u32], order: &[Order], limit: u32) -> Result<RowPlan, Memory> {
    Ok(RowPlan {
        columns: Vec::from_slice(alloc, columns)?,
        order: Vec::from_slice(alloc, order)?,
        limit,
    })
}

// The first rows of some.
fn first_of(alloc: Global, plan: &RowPlan, rows: &[Row]) -> Result<TopRows, Memory>
    ensures { IfOk result (λ t. t.plan ≡ plan.now) }
{
    let mut top = TopRows::new(alloc, plan.copy(alloc)?)?;
    for (number, row) in rows {
        top.add(*number, row)?;
    }
    Ok(top)
}

// A name, columns, an order, how many rows, the orders in which the rows come, and the answer.
type Case = (
    &'static str,
    &'static [u32],
    &'static [Order],
    u32,
    &'static [&'static [Row]],
    &'static [&'static [Cell]],
);

// The first rows of two parts.
fn merged(alloc: Global, plan: &RowPlan, rows: &[Row], more: &[Row]) -> Result<TopRows, Memory> {
    let mut top = first_of(alloc, plan, rows)?;
    match top.merge(first_of(alloc, plan, more)?) {
        Ok(()) => Ok(top),
        Err((_, memory)) => Err(memory),
    }
}

// Whether the rows of two parts give the answer.
fn give(
    alloc: Global,
    plan: &RowPlan,
    rows: &[Row],
    more: &[Row],
    wanted: &[&[Cell]],
) -> Result<bool, Memory> {
    let top = merged(alloc, plan, rows, more)?;
    let kept = top.kept();
    let picked = top.finish()?;
    Ok(kept == wanted.len() && are_rows(picked.as_slice(), wanted))
}

// Tests the answer, where the rows come in two parts, cut at each place.
fn check_cut(
    rt: &impl Abort,
    alloc: Global,
    name: &str,
    plan: &RowPlan,
    rows: &[Row],
    wanted: &[&[Cell]],
) -> Result<(), Fail> {
    for cut in 0..rows.len() + 1 {
        let give = give(alloc, plan, &rows[..cut], &rows[cut..], wanted)?;
        assert!(rt; give, "{name}, cut at {cut}");
    }
    Ok(())
}

fn check(rt: &impl Abort, alloc: Global, case: &Case) -> Result<(), Fail> {
    let plan = plan_of(alloc, case.1, case.2, case.3)?;
    for rows in case.4 {
        check_cut(rt, alloc, case.0, &plan, rows, case.5)?;
    }
    Ok(())
}

fn check_cases(rt: &impl Abort, alloc: Global, cases: &[Case]) -> Result<(), Fail> {
    for case in cases {
        check(rt, alloc, case)?;
    }
    Ok(())
}

const BOTH: [&[Row]; 2] = [&PAY, &MIXED];

const ID_UP: Order = Order {
    column: ID,
    descending: false,
};

const DEPT_UP: Order = Order {
    column: DEPT,
    descending: false,
};

const DEPT_DOWN: Order = Order {
    column: DEPT,
    descending: true,
};

const AMOUNT_UP: Order = Order {
    column: AMOUNT,
    descending: false,
};

const AMOUNT_DOWN: Order = Order {
    column: AMOUNT,
    descending: true,
};

const IN_ORDER: &[Case] = &[
    (
        "the greatest first",
        &[ID, AMOUNT],
        &[AMOUNT_DOWN, ID_UP],
        3,
        &BOTH,
        &[&[Int(4), Int(40)], &[Int(2), Int(20)], &[Int(1), Int(10)]],
    ),
    (
        "NULL is smallest",
        &[ID],
        &[AMOUNT_UP],
        1,
        &BOTH,
        &[&[Int(3)]],
    ),
    (
        "NULL is last where great stands first",
        &[ID],
        &[AMOUNT_DOWN],
        5,
        &BOTH,
        &[&[Int(4)], &[Int(2)], &[Int(1)], &[Int(5)], &[Int(3)]],
    ),
    (
        "fewer rows than the limit",
        &[DEPT],
        &[DEPT_UP],
        10,
        &[&LATER],
        &[&[Code(0)], &[Code(1)], &[Code(1)], &[Code(2)]],
    ),
    ("no row is asked for", &[ID], &[], 0, &BOTH, &[]),
];

#[test]
fn first_rows_in_an_order(rt: HostRuntime) -> Result<(), Fail> {
    check_cases(&rt, rt.alloc(), IN_ORDER)
}

const EQUAL: &[Case] = &[
    (
        "two of a dept",
        &[ID, DEPT],
        &[DEPT_DOWN],
        4,
        &BOTH,
        &[
            &[Int(4), Code(2)],
            &[Int(2), Code(1)],
            &[Int(5), Code(1)],
            &[Int(1), Code(0)],
        ],
    ),
    (
        "no order is asked for, and a column twice",
        &[AMOUNT, ID, AMOUNT],
        &[],
        2,
        &BOTH,
        &[&[Int(10), Int(1), Int(10)], &[Int(20), Int(2), Int(20)]],
    ),
    ("no rows", &[ID, DEPT], &[DEPT_DOWN], 4, &[&[]], &[]),
];

#[test]
fn equal_rows_stand_by_their_numbers(rt: HostRuntime) -> Result<(), Fail> {
    check_cases(&rt, rt.alloc(), EQUAL)
}

// The text of two picked rows of a column with two places.
fn rows_text(alloc: Global, schema: &Schema, dicts: &[Dict]) -> Result<Bytes, Memory>
    requires one { length schema.now ≡ 1 }
    requires dicts { length dicts.now ≡ 1 }
    requires places { All (λ c. places_of c.kind ≤ 9) schema.now }
{
    let first = vec![in alloc; Int(150), Null]?;
    let second = vec![in alloc; Int(-25), Int(3)]?;
    let picked = Picked::new(vec![in alloc; first, second]?);
    picked_text(alloc, 2, &[0, 0], schema, dicts, &picked)
}

fn two_text(alloc: Global) -> Result<Bytes, Memory> {
    let schema = one_price(alloc)?;
    let dicts = vec![in alloc; Dict::new(alloc)]?;
    rows_text(alloc, &schema, &dicts)
}

#[test]
fn picked_rows_are_printed(rt: HostRuntime) -> Result<(), Fail> {
    let text = two_text(rt.alloc())?;
    assert!(rt; text.as_slice() == b"query 2\n1.50, NULL\n-0.25, 0.03\n".as_slice());
    Ok(())
}
