// Every row of small zones: the truths that are possible are those that some row has.
use crate::conds::{NULLS, OPS, both, chunk_of, compare, either, expect, not, set_of, truth};
use filter_zones::{Bound, Cond, Truth, TruthSet, Zone};
use std::alloc::{AllocError, Global};
use std::process::Abort;
use std::test::Fail;
use table_core::{Cell, Op};

const SMALL_CELLS: [Cell; 4] = [Cell::Null, Cell::Int(0), Cell::Int(1), Cell::Int(2)];

const HALVES: [i128; 7] = [-1, 0, 1, 2, 3, 4, 5];

const SMALL_RANGES: [Option<(Cell, Cell)>; 7] = [
    None,
    Some((Cell::Int(0), Cell::Int(0))),
    Some((Cell::Int(0), Cell::Int(1))),
    Some((Cell::Int(0), Cell::Int(2))),
    Some((Cell::Int(1), Cell::Int(1))),
    Some((Cell::Int(1), Cell::Int(2))),
    Some((Cell::Int(2), Cell::Int(2))),
];

// The zones over these cells, but for the empty one: with a NULL and without values, then without a NULL, then with it.
fn small_zone(n: usize) -> Zone {
    match n {
        0 => Zone {
            has_null: true,
            range: None,
        },
        _ => Zone {
            has_null: n > 6,
            range: SMALL_RANGES[(n - 1) % 6 + 1],
        },
    }
}

fn allows(zone: Zone, cell: Cell) -> bool {
    match (cell, zone.range) {
        (Cell::Null, _) => zone.has_null,
        (_, None) => false,
        (cell, Some((low, high))) => low <= cell && cell <= high,
    }
}

// The truths of all rows of two columns that the zones allow.
fn truths_of_rows(rt: &impl Abort, cond: &Cond, first: Zone, second: Zone) -> TruthSet {
    let mut set = set_of(b'N', false);
    for a in SMALL_CELLS {
        for b in SMALL_CELLS {
            if allows(first, a) && allows(second, b) {
                match truth(rt, cond, &[a, b]) {
                    Truth::False => set.can_false = true,
                    Truth::Unknown => set.can_unknown = true,
                    Truth::True => set.can_true = true,
                }
            }
        }
    }
    set
}

// The truths of one comparison in a column of this zone: those of its rows, and those of a value between two cells,
// which no cell equals.
fn truths_in_zone(rt: &impl Abort, zone: Zone, cond: &Cond, op: Op, half: i128) -> TruthSet {
    let rows = truths_of_rows(rt, cond, zone, NULLS);
    // 1 and 3 are the doubles of 0.5 and 1.5, which no cell equals.
    let between = match (half, zone.range) {
        (1, Some((low, high))) => low == Cell::Int(0) && high != Cell::Int(0),
        (3, Some((low, high))) => low != Cell::Int(2) && high == Cell::Int(2),
        _ => false,
    };
    TruthSet {
        can_false: rows.can_false || between && op == Op::Ne,
        can_unknown: rows.can_unknown,
        can_true: rows.can_true || between && op == Op::Eq,
    }
}

fn expect_compared(rt: &impl Abort, zone: Zone, op: Op, half: i128) {
    let cond = Cond::Compare {
        column: 0,
        op,
        value: Bound::Number(half),
    };
    let wanted = truths_in_zone(rt, zone, &cond, op, half);
    expect(rt, &cond, &chunk_of(zone, NULLS), wanted);
}

#[test]
fn one_comparison_may_be_what_some_row_is_but_where_no_cell_equals_the_value(rt: HostRuntime) {
    for n in 0..13 {
        for op in OPS {
            for half in HALVES {
                expect_compared(&rt, small_zone(n), op, half);
            }
        }
    }
}

fn leaf(column: u32, n: usize) -> Cond {
    match OPS.get(n) {
        Some(op) => compare(column, *op, 1),
        None => Cond::IsNull {
            column,
            negated: n > 6,
        },
    }
}

// Over each two small zones the condition may be what some row is.
fn expect_of_rows(rt: &impl Abort, cond: &Cond) {
    for a in 0..13 {
        for b in 0..13 {
            let (a, b) = (small_zone(a), small_zone(b));
            let wanted = truths_of_rows(rt, cond, a, b);
            expect(rt, cond, &chunk_of(a, b), wanted);
        }
    }
}

// Two parts joined by AND, of which the second is negated.
fn and_of(alloc: Global, first: usize, second: usize) -> Result<Cond, AllocError> {
    both(alloc, leaf(0, first), not(alloc, leaf(1, second))?)
}

// Two parts joined by OR, of which the first is negated.
fn or_of(alloc: Global, first: usize, second: usize) -> Result<Cond, AllocError> {
    either(alloc, not(alloc, leaf(0, first))?, leaf(1, second))
}

fn expect_parts(rt: &impl Abort, alloc: Global, first: usize, second: usize) -> Result<(), Fail> {
    expect_of_rows(rt, &and_of(alloc, first, second)?);
    expect_of_rows(rt, &or_of(alloc, first, second)?);
    Ok(())
}

#[test]
fn conditions_on_two_columns_may_be_what_some_row_is(rt: HostRuntime) -> Result<(), Fail> {
    for first in 0..8 {
        for second in 0..8 {
            expect_parts(&rt, rt.alloc(), first, second)?;
        }
    }
    Ok(())
}

const LOW_TO_HIGH: Zone = Zone {
    has_null: false,
    range: Some((Cell::Int(0), Cell::Int(2))),
};

// No number is below 1 and above 1, but each part may be true over the cells 0 to 2.
#[test]
fn two_parts_on_one_column_may_be_what_no_row_is(rt: HostRuntime) -> Result<(), Fail> {
    let cond = both(rt.alloc(), compare(0, Op::Lt, 1), compare(0, Op::Gt, 1))?;
    let rows = truths_of_rows(&rt, &cond, LOW_TO_HIGH, NULLS);
    assert!(rt; rows == set_of(b'F', false));
    expect(
        &rt,
        &cond,
        &chunk_of(LOW_TO_HIGH, NULLS),
        set_of(b'B', false),
    );
    Ok(())
}
