// Three truths: AND gives the least of two, OR the greatest, and NOT the opposite.
use crate::conds::{both, compare, either, not, truth};
use filter_zones::{Cond, Truth};
use std::process::Abort;
use std::test::Fail;
use table_core::{Cell, Op};

// `x = 1` is false of 0, unknown of NULL and true of 1.
const NO: Cell = Cell::Int(0);

const NULL: Cell = Cell::Null;

const YES: Cell = Cell::Int(1);

// The cells of two columns, and the truths of `x = 1 AND y = 1` and of `x = 1 OR y = 1`.
type Joined = (Cell, Cell, Truth, Truth);

const JOINED: &[Joined] = &[
    (NO, NO, Truth::False, Truth::False),
    (NO, NULL, Truth::False, Truth::Unknown),
    (NO, YES, Truth::False, Truth::True),
    (NULL, NO, Truth::False, Truth::Unknown),
    (NULL, NULL, Truth::Unknown, Truth::Unknown),
    (NULL, YES, Truth::Unknown, Truth::True),
    (YES, NO, Truth::False, Truth::True),
    (YES, NULL, Truth::Unknown, Truth::True),
    (YES, YES, Truth::True, Truth::True),
];

fn expect_joined(rt: &impl Abort, and: &Cond, or: &Cond, rows: &[Joined]) {
    for (a, b, of_and, of_or) in rows {
        let row = [*a, *b];
        let truths = (truth(rt, and, &row), truth(rt, or, &row));
        assert!(rt; truths == (*of_and, *of_or), "{row:?}");
    }
}

// A cell, and how true the condition is of it.
type Judged = (Cell, Truth);

fn expect_truths(rt: &impl Abort, cond: &Cond, rows: &[Judged]) {
    for (cell, wanted) in rows {
        assert!(rt; truth(rt, cond, &[*cell]) == *wanted, "{cell:?}");
    }
}

const NOT_ONE: &[Judged] = &[
    (NO, Truth::True),
    (NULL, Truth::Unknown),
    (YES, Truth::False),
];

#[test]
fn not_has_three_truths(rt: HostRuntime) -> Result<(), Fail> {
    let turned = not(rt.alloc(), compare(0, Op::Eq, 1))?;
    expect_truths(&rt, &turned, NOT_ONE);
    Ok(())
}

#[test]
fn and_and_or_have_three_truths(rt: HostRuntime) -> Result<(), Fail> {
    let and = both(rt.alloc(), compare(0, Op::Eq, 1), compare(1, Op::Eq, 1))?;
    let or = either(rt.alloc(), compare(0, Op::Eq, 1), compare(1, Op::Eq, 1))?;
    expect_joined(&rt, &and, &or, JOINED);
    Ok(())
}

const NOT_ABOVE_15: &[Judged] = &[
    (Cell::Int(10), Truth::True),
    (Cell::Int(20), Truth::False),
    (Cell::Null, Truth::Unknown),
    (Cell::Int(40), Truth::False),
    (Cell::Int(-5), Truth::True),
];

#[test]
fn not_of_an_unknown_truth_is_unknown(rt: HostRuntime) -> Result<(), Fail> {
    let not_above = not(rt.alloc(), compare(0, Op::Gt, 15))?;
    expect_truths(&rt, &not_above, NOT_ABOVE_15);
    Ok(())
}
