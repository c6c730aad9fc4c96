// Conditions, and their truth on a row.
ghost use Rattle.std.specs.Prelude.{◌≡◌, ◌<◌, ◌+ℤ◌, length};
ghost use Rattle.std.specs.Ordering.{int_cmp, is_gt, is_lt, nat_cmp};
ghost use Rattle.filter_zones.specs.Truth as spec;

use crate::truth::Truth;
use std::cmp::Ordering;
use table_core::{Cell, Op};

/// A value with which the cells of a column are compared.
///
/// It says how each cell stands to it, so a number or text that no cell of the column equals has its place
/// between two cells.
#[derive(Clone, Copy, Debug, PartialEq, Eq)]
pub enum Bound {
    /// Twice a number: a cell `n` is compared with it as `2 * n`. An odd one stands between two whole numbers.
    Number(i128),
    /// A text by its place in the column's dictionary.
    Code(u32),
    /// A text that isn't in the column's dictionary, by the number of texts below it. It stands between two codes.
    Gap(u32),
}

/// A condition on a row. Columns are numbered from 0.
#[derive(Debug, Drop, PartialEq, Eq)]
pub enum Cond {
    /// The cell of a column is compared with a value: unknown where the cell is NULL.
    Compare { column: u32, op: Op, value: Bound },
    /// The cell of a column is NULL or, where this is negated, isn't NULL. It is never unknown.
    IsNull { column: u32, negated: bool },
    /// The least of both truths.
    And(Box<Cond>, Box<Cond>),
    /// The greatest of both truths.
    Or(Box<Cond>, Box<Cond>),
    /// False and True exchanged.
    Not(Box<Cond>),
}

// How two numbers stand.
fn number_order(a: i128, b: i128) -> Ordering
    ensures { result ≡ int_cmp a b }
{
    a.cmp(&b)
}

// How two codes stand.
fn code_order(a: u32, b: u32) -> Ordering
    ensures { result ≡ nat_cmp a b }
{
    a.cmp(&b)
}

fn doubled(n: i64) -> i128
    ensures { result ≡ n +ℤ n }
{
    let n = i128::from(n);
    n + n
}

// How a cell stands to a value.
fn order_of(cell: Cell, value: Bound) -> Ordering
    ensures { result ≡ spec.order_of cell value }
{
    match (cell, value) {
        (Cell::Int(n), Bound::Number(h)) => number_order(doubled(n), h),
        (Cell::Code(k), Bound::Code(j)) => code_order(k, j),
        (Cell::Code(k), Bound::Gap(p)) => if k < p {
            Ordering::Less
        } else {
            Ordering::Greater
        },
        _ => Ordering::Equal,
    }
}

// Whether a cell is below a value.
pub(crate) fn is_below(cell: Cell, value: Bound) -> bool
    ensures { result ≡ is_lt (spec.order_of cell value) }
{
    match (cell, value) {
        (Cell::Int(n), Bound::Number(h)) => number_order(doubled(n), h).is_lt(),
        (Cell::Code(k), Bound::Code(j)) => code_order(k, j).is_lt(),
        (Cell::Code(k), Bound::Gap(p)) => k < p,
        _ => false,
    }
}

// Whether a cell is above a value.
pub(crate) fn is_above(cell: Cell, value: Bound) -> bool
    ensures { result ≡ is_gt (spec.order_of cell value) }
{
    match (cell, value) {
        (Cell::Int(n), Bound::Number(h)) => number_order(doubled(n), h).is_gt(),
        (Cell::Code(k), Bound::Code(j)) => code_order(k, j).is_gt(),
        (Cell::Code(k), Bound::Gap(p)) => p <= k,
        _ => false,
    }
}

// Whether a cell that stands so to a value meets the comparison.
fn is_met(op: Op, order: Ordering) -> bool
    ensures { result ≡ spec.is_met op order }
{
    match op {
        Op::Eq => order.is_eq(),
        Op::Ne => !order.is_eq(),
        Op::Lt => order.is_lt(),
        Op::Le => order.is_le(),
        Op::Gt => order.is_gt(),
        Op::Ge => order.is_ge(),
    }
}

pub(crate) fn is_null(cell: Cell) -> bool
    ensures { result ≡ spec.is_null cell }
{
    matches!(cell, Cell::Null)
}

fn comparison(op: Op, value: Bound, cell: Cell) -> Truth
    ensures { result ≡ spec.comparison op value cell }
{
    if is_null(cell) {
        return Truth::Unknown;
    }
    Truth::of(is_met(op, order_of(cell, value)))
}

fn null_test(negated: bool, cell: Cell) -> Truth
    ensures { result ≡ spec.null_test negated cell }
{
    Truth::of(is_null(cell) != negated)
}

fn cell_at(row: &[Cell], column: u32) -> Cell
    requires { column < length row.now }
    ensures { result ≡ spec.cell_at row.now column }
{
    row[column as usize]
}

/// The truth of a condition on a row.
///
/// Each column of the condition is a place of the row, and each value is of the kind of the cell that it is
/// compared with, where that isn't NULL. It visits each part of the condition at most once.
pub fn truth_of(cond: &Cond, row: &[Cell]) -> Truth
    requires { spec.FitsRow cond.now row.now }
    ensures { result ≡ spec.truth_of cond.now row.now }
{
    match cond {
        Cond::Compare { column, op, value } => comparison(*op, *value, cell_at(row, *column)),
        Cond::IsNull { column, negated } => null_test(*negated, cell_at(row, *column)),
        Cond::And(a, b) => match truth_of(a, row) {
            Truth::False => Truth::False,
            first => first.and(truth_of(b, row)),
        },
        Cond::Or(a, b) => match truth_of(a, row) {
            Truth::True => Truth::True,
            first => first.or(truth_of(b, row)),
        },
        Cond::Not(a) => truth_of(a, row).opposite(),
    }
}
