// Which plan a statement has, or why it has none.
use crate::plans::plan;
use agg_groups::Item;
use sql_bind::{BindRefusal, Plan, StatementRefusal};
use sql_tokens::TextRefusal;
use std::alloc::Global;
use std::process::Abort;
use std::test::Fail;
use top_rows::Order;

fn text_word(why: TextRefusal) -> &'static [u8] {
    match why {
        TextRefusal::Syntax => b"syntax",
        TextRefusal::TooNested => b"too nested",
        TextRefusal::TooManyItems => b"too many items",
        TextRefusal::Memory => b"memory",
    }
}

// Why there is no plan, as a word and the name that it has; nothing where there is one.
fn shown(plan: &Result<Plan, StatementRefusal>) -> (&'static [u8], &[u8]) {
    let why = match plan {
        Ok(_) => return (b"", b""),
        Err(StatementRefusal::Text(why)) => return (text_word(*why), b""),
        Err(StatementRefusal::Query(why)) => why,
    };
    match why {
        BindRefusal::UnknownTable { name } => (b"table", name.as_slice()),
        BindRefusal::UnknownColumn { name } => (b"column", name.as_slice()),
        BindRefusal::WrongKind { name } => (b"kind", name.as_slice()),
        BindRefusal::NotGrouped { name } => (b"plain", name.as_slice()),
        BindRefusal::Memory => (b"memory", b""),
    }
}

// Why there is no plan, as a word and the name that it has, and the statement; no word where there is a plan.
const REFUSALS: &str = "\
table|u|SELECT COUNT(*) FROM u
table|T|SELECT COUNT(*) FROM \"T\"
table|u|SELECT zz FROM u
column|zz|SELECT zz FROM t
column|zz|SELECT zz, yy FROM t WHERE dept = 1
column|zz|SELECT SUM(dept), zz FROM t
column|zz|SELECT COUNT(*) FROM t WHERE dept = 1 AND zz = 1
column|yy|SELECT COUNT(*) FROM t WHERE (NOT yy IS NULL OR zz = 1) AND xx = 1
column|zz|SELECT COUNT(*) FROM t WHERE zz IS NOT NULL GROUP BY yy
column|yy|SELECT COUNT(*) FROM t GROUP BY dept, yy, zz
column|yy|SELECT COUNT(yy) FROM t WHERE zz = 1
column|yy|SELECT id FROM t ORDER BY yy, zz LIMIT 1
column|zz|SELECT id FROM t WHERE zz = 1 ORDER BY yy LIMIT 1
column|zz|SELECT zz FROM t ORDER BY yy LIMIT 1
column|ID|SELECT ID FROM t LIMIT 1
column|id |SELECT MIN(\"id \") FROM t
kind|dept|SELECT SUM(dept) FROM t
kind|code|SELECT SUM(id), SUM(code), SUM(dept) FROM t
kind|dept|SELECT SUM(dept) FROM t WHERE code = 1
kind|id|SELECT COUNT(*) FROM t WHERE id = 'a'
kind|price|SELECT COUNT(*) FROM t WHERE price < 'a'
kind|dept|SELECT COUNT(*) FROM t WHERE dept = 1.5
kind|code|SELECT COUNT(*) FROM t WHERE id = 1 AND NOT (code = 1 OR dept = 1)
kind|dept|SELECT id FROM t WHERE dept = 1
kind|dept|SELECT id FROM t WHERE dept = 1 LIMIT 1
plain|id|SELECT id FROM t
plain|id|SELECT dept, id, pay FROM t GROUP BY dept
plain|dept|SELECT COUNT(*), pay, dept, id FROM t GROUP BY pay
syntax||SELECT x FROM
too many items||SELECT zz FROM t LIMIT 4097
||SELECT id, pay FROM t LIMIT 0
||SELECT dept, dept, COUNT(*) FROM t GROUP BY dept, dept
||SELECT COUNT(dept), MIN(dept), MAX(code), SUM(price) FROM t
||SELECT COUNT(*) FROM t WHERE id = 1.5 AND price = 1 AND dept = '' AND code IS NULL
||SELECT COUNT(*) FROM t GROUP BY id
||SELECT \"dept\" FROM t GROUP BY dept
||SELECT id FROM t ORDER BY dept DESC, price LIMIT 4096
||SELECT COUNT(*) FROM \"t\"";

// The three parts of a line, which bars divide.
fn parts(line: &str) -> Option<(&str, &str, &str)> {
    let (word, rest) = line.split_once('|')?;
    let (name, text) = rest.split_once('|')?;
    Some((word, name, text))
}

// Whether the statement of a line is refused with its word and its name.
fn is_refused(rt: &impl Abort, alloc: Global, line: &str) -> Result<bool, Fail> {
    let Some((word, name, text)) = parts(line) else {
        return Ok(false);
    };
    let plan = plan(rt, alloc, text.as_bytes())?;
    Ok(shown(&plan) == (word.as_bytes(), name.as_bytes()))
}

// Tests the word and the name of each refusal.
fn expect_shown(rt: &impl Abort, alloc: Global, lines: &str) -> Result<(), Fail> {
    for line in lines.split('\n') {
        let is_refused = is_refused(rt, alloc, line)?;
        assert!(rt; is_refused, "{line}");
    }
    Ok(())
}

#[test]
fn a_query_is_refused_for_its_first_cause_at_the_first_place(rt: HostRuntime) -> Result<(), Fail> {
    expect_shown(&rt, rt.alloc(), REFUSALS)
}

// The columns of a plan, as bits.
fn named(plan: &Plan) -> u32 {
    let mut bits = 0;
    for column in 0..16 {
        if plan.columns.has(column) {
            bits |= 1 << column;
        }
    }
    bits
}

// A query, and its plan's items, keys and columns.
type Planned<'a> = (&'a [u8], &'a [Item], &'a [u32], u32);

const PLANS: &[Planned<'static>] = &[
    (b"SELECT COUNT(*) FROM t", &[Item::CountAll], &[], 0b1),
    (b"SELECT SUM(pay) FROM t", &[Item::Sum(2)], &[], 0b100),
    (
        b"SELECT dept, SUM(pay), COUNT(pay) FROM t GROUP BY dept",
        &[Item::Key(0), Item::Sum(2), Item::Count(2)],
        &[1],
        0b110,
    ),
    (
        b"SELECT MAX(code), id, dept, MIN(id) FROM t GROUP BY dept, id, dept",
        &[Item::Max(4), Item::Key(1), Item::Key(0), Item::Min(0)],
        &[1, 0, 1],
        0b10011,
    ),
    (
        b"SELECT COUNT(*) FROM t WHERE price > 1 OR NOT pay IS NULL",
        &[Item::CountAll],
        &[],
        0b1100,
    ),
    (b"SELECT pay, id FROM t LIMIT 3", &[], &[], 0b101),
    (
        b"SELECT pay FROM t WHERE dept = 'a' ORDER BY price DESC, code LIMIT 3",
        &[],
        &[],
        0b11110,
    ),
];

// Whether the plan has these items, keys and columns, and rows where it has no items.
fn is_planned(plan: &Plan, items: &[Item], keys: &[u32], columns: u32) -> bool {
    plan.items.as_slice() == items
        && plan.keys.as_slice() == keys
        && named(plan) == columns
        && plan.rows.is_some() == items.is_empty()
}

// Whether the query has the plan of its row.
fn is_row(rt: &impl Abort, alloc: Global, row: &Planned<'_>) -> Result<bool, Fail> {
    let (text, items, keys, columns) = *row;
    match plan(rt, alloc, text)? {
        Ok(plan) => Ok(is_planned(&plan, items, keys, columns)),
        Err(_) => Ok(false),
    }
}

fn expect_planned(rt: &impl Abort, alloc: Global, rows: &[Planned<'_>]) -> Result<(), Fail> {
    for row in rows {
        let is_row = is_row(rt, alloc, row)?;
        assert!(rt; is_row, "{:?}", row.0);
    }
    Ok(())
}

#[test]
fn a_plan_has_the_columns_that_its_query_names(rt: HostRuntime) -> Result<(), Fail> {
    expect_planned(&rt, rt.alloc(), PLANS)
}

const ORDERS: [Order; 3] = [
    Order {
        column: 2,
        descending: true,
    },
    Order {
        column: 1,
        descending: false,
    },
    Order {
        column: 4,
        descending: false,
    },
];

// Whether the plan asks for so many rows of these columns in this order.
fn asks_for(plan: &Plan, columns: &[u32], order: &[Order], limit: u32) -> bool {
    match &plan.rows {
        Some(rows) => {
            rows.columns.as_slice() == columns
                && rows.order.as_slice() == order
                && rows.limit == limit
        }
        None => false,
    }
}

#[test]
fn a_query_with_a_limit_asks_for_columns_in_an_order(rt: HostRuntime) -> Result<(), Fail> {
    let text = b"SELECT pay, id, pay FROM t ORDER BY pay DESC, dept, code ASC LIMIT 30";
    let Ok(plan) = plan(&rt, rt.alloc(), text)? else {
        panic!(rt; "no plan")
    };
    assert!(rt; asks_for(&plan, &[2, 0, 2], &ORDERS, 30));
    Ok(())
}
