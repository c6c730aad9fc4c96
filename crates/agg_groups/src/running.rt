// The running value of an item over the rows of a group.
ghost use Rattle.std.specs.Prelude.{◌≡◌, ◌<◌, ◌≤◌, ◌+◌, ◌^◌, ◌*◌, ◌==◌, ℕ, List, [], length, All};
ghost use Rattle.std.specs.Prelude.{true, false, IfOk, neg_ℤ, pos, ◌≤ℤ◌, ◌+ℤ◌, if◌then◌else◌};
ghost use Rattle.table_core.specs.declared.cell.Cell.TheVariants.{Null, Int};
ghost use Rattle.agg_groups.specs.declared.running.Running.TheVariants as running;
ghost use Rattle.query_meaning.specs.Cells as cells;
ghost use Rattle.query_meaning.specs.Cells.{codes};
ghost use Rattle.query_meaning.specs.Meaning as meaning;
ghost use Rattle.agg_groups.specs.Running as spec;
ghost use Rattle.query_meaning.specs.Places.{IsInRow};

use query_meaning::Item;
use std::alloc::{AllocError, Global};
use table_core::{Cell, MOST_ROWS};

/// The value of an item over the rows so far.
#[derive(Clone, Copy)]
pub enum Running {
    /// So many rows, or cells that aren't NULL.
    Count(u64),
    /// So many numbers, and their sum.
    Sum(u64, i128),
    /// The least or greatest cell, NULL for none.
    Best(Cell),
    /// An item of the key, which has no running value.
    Nothing,
}

// Whether one cell stands before another.
fn is_less(a: &Cell, b: &Cell) -> bool
    ensures { result ≡ meaning.is_less codes a.now b.now }
{
    a < b
}

fn cell_at(row: &[Cell], column: u32) -> Cell
    requires { column < length row.now }
    ensures { result ≡ meaning.cell codes row.now column }
{
    row[column as usize]
}

fn is_value(cell: Cell) -> bool
    ensures { result ≡ cells.is_value cell }
{
    !matches!(cell, Cell::Null)
}

fn int_of(cell: Cell) -> i64
    ensures { result ≡ cells.int_of cell }
{
    match cell {
        Cell::Int(n) => n,
        _ => 0,
    }
}

pub(crate) fn lesser(a: Cell, c: Cell) -> Cell
    ensures { result ≡ meaning.lesser codes a c }
{
    if !is_value(a) {
        c
    } else if !is_value(c) {
        a
    } else if is_less(&c, &a) {
        c
    } else {
        a
    }
}

pub(crate) fn greater(a: Cell, c: Cell) -> Cell
    ensures { result ≡ meaning.greater codes a c }
{
    if is_less(&a, &c) { c } else { a }
}

// One number more in the sum of at most `rows` numbers.
fn add(t: i128, n: i64, rows: u32) -> i128
    requires few { rows < MOST_ROWS }
    requires low { neg_ℤ (pos (rows * 2 ^ 63)) ≤ℤ t }
    requires high { t ≤ℤ pos (rows * 2 ^ 63) }
    ensures value { result ≡ t +ℤ n }
    ensures low { neg_ℤ (pos ((rows + 1) * 2 ^ 63)) ≤ℤ result }
    ensures high { result ≤ℤ pos ((rows + 1) * 2 ^ 63) }
{
    t + i128::from(n)
}

// The cell of a row that an item reads, NULL where it reads none.
fn cell_of(item: Item, row: &[Cell]) -> Cell
    requires { IsInRow item (length row.now) }
    ensures { result ≡ spec.cell_of item row.now }
{
    match item {
        Item::Count(x) | Item::Sum(x) | Item::Min(x) | Item::Max(x) => cell_at(row, x),
        Item::CountAll | Item::Key(_) => Cell::Null,
    }
}

/// The value of an item with one more cell.
pub(crate) fn next(item: Item, cell: Cell, old: Running, rows: u32) -> Running
    requires few { rows < MOST_ROWS }
    requires room { spec.HasRoom rows old }
    ensures value { result ≡ spec.next_of item cell old }
    ensures room { spec.HasRoom (rows + 1) result }
{
    match (item, old) {
        (Item::CountAll, Running::Count(n)) => Running::Count(n + 1),
        (Item::Count(_), Running::Count(n)) if is_value(cell) => Running::Count(n + 1),
        (Item::Sum(_), Running::Sum(n, t)) if is_value(cell) => {
            Running::Sum(n + 1, add(t, int_of(cell), rows))
        }
        (Item::Min(_), Running::Best(b)) if is_value(cell) => Running::Best(lesser(b, cell)),
        (Item::Max(_), Running::Best(b)) if is_value(cell) => Running::Best(greater(b, cell)),
        (_, old) => old,
    }
}

// The value of an item over no rows.
fn start(item: Item) -> Running
    ensures { result ≡ spec.running_of [] item }
{
    match item {
        Item::CountAll | Item::Count(_) => Running::Count(0),
        Item::Sum(_) => Running::Sum(0, 0),
        Item::Min(_) | Item::Max(_) => Running::Best(Cell::Null),
        Item::Key(_) => Running::Nothing,
    }
}

/// The values of all items over no rows.
pub(crate) fn starts(alloc: Global, items: &[Item]) -> Result<Vec<Running>, AllocError>
    ensures { IfOk result (λ v. v.items ≡ spec.runnings items.now []) }
{
    items.iter().map(|i| start(*i)).collect(alloc)
}

/// Adds a row to the value of each item, in place.
pub(crate) fn step(items: &[Item], row: &[Cell], rows: u32, values: &mut [Running])
    requires in_row { All (λ i. IsInRow i (length row.now)) items.now }
    requires few { rows < MOST_ROWS }
    requires same { length values.old ≡ length items.now }
    requires room { All (spec.HasRoom rows) values.old }
    ensures value { values.new ≡ spec.nexts items.now row.now values.old }
    ensures room { All (spec.HasRoom (rows + 1)) values.new }
    ensures len { length values.new ≡ length values.old }
{
    for i in 0..items.len() {
        values[i] = next(items[i], cell_of(items[i], row), values[i], rows);
    }
}

fn add_sums(s: i128, t: i128, rows: u32, more: u32) -> i128
    requires few { rows + more ≤ MOST_ROWS }
    requires low { neg_ℤ (pos (rows * 2 ^ 63)) ≤ℤ s }
    requires high { s ≤ℤ pos (rows * 2 ^ 63) }
    requires low_more { neg_ℤ (pos (more * 2 ^ 63)) ≤ℤ t }
    requires high_more { t ≤ℤ pos (more * 2 ^ 63) }
    ensures { result ≡ s +ℤ t }
{
    s + t
}

fn best(item: Item, a: Cell, b: Cell) -> Running
    ensures { result ≡ spec.join (running.Best a) (running.Best b) item }
{
    match item {
        Item::Min(_) => Running::Best(lesser(a, b)),
        _ => Running::Best(greater(a, b)),
    }
}

// The value of an item over two lists of rows.
pub(crate) fn join(item: Item, a: Running, b: Running, rows: u32, more: u32) -> Running
    requires few { rows + more ≤ MOST_ROWS }
    requires room { spec.HasRoom rows a }
    requires room_more { spec.HasRoom more b }
    ensures { result ≡ spec.join a b item }
{
    match (a, b) {
        (Running::Count(m), Running::Count(n)) => Running::Count(m + n),
        (Running::Sum(m, s), Running::Sum(n, t)) => Running::Sum(m + n, add_sums(s, t, rows, more)),
        (Running::Best(x), Running::Best(y)) => best(item, x, y),
        (a, _) => a,
    }
}

/// Adds to the value of each item its value over other rows, in place.
pub(crate) fn join_all(
    items: &[Item],
    values: &mut [Running],
    others: &[Running],
    rows: u32,
    more: u32,
)
    requires few { rows + more ≤ MOST_ROWS }
    requires same { length values.old ≡ length items.now }
    requires same_more { length others.now ≡ length items.now }
    requires room { All (spec.HasRoom rows) values.old }
    requires room_more { All (spec.HasRoom more) others.now }
    ensures value { values.new ≡ spec.joins items.now values.old others.now }
    ensures len { length values.new ≡ length values.old }
{
    for i in 0..items.len() {
        values[i] = join(items[i], values[i], others[i], rows, more);
    }
}

/// Whether a sum is a whole number of 64 bits.
fn fits(t: i128) -> bool
    ensures { result ≡ meaning.fits t }
{
    !(t < -9223372036854775808) && t < 9223372036854775808
}

fn key_cell(key: &[Cell], place: u32) -> Cell
    ensures { result ≡ meaning.cell codes key.now place }
{
    let place = place as usize;
    if place < key.len() {
        key[place]
    } else {
        Cell::Null
    }
}

fn sum_cell(n: u64, t: i128) -> Cell
    requires { meaning.fits t ≡ true }
    ensures { result ≡ (if n == 0 then Null else Int t) }
{
    if n == 0 {
        Cell::Null
    } else {
        Cell::Int(t as i64)
    }
}

// The cell of an item in the result row of a key.
fn shown(key: &[Cell], item: Item, value: Running) -> Cell
    requires { spec.FitsCell value }
    ensures { result ≡ spec.shown key.now item value }
{
    match (item, value) {
        (Item::Key(place), _) => key_cell(key, place),
        (_, Running::Count(n)) => Cell::Int(n as i64),
        (_, Running::Sum(n, t)) => sum_cell(n, t),
        (_, Running::Best(c)) => c,
        (_, Running::Nothing) => Cell::Null,
    }
}

/// The result row of a key.
pub(crate) fn row_of(
    alloc: Global,
    key: &[Cell],
    items: &[Item],
    values: &[Running],
) -> Result<Vec<Cell>, AllocError>
    requires same { length values.now ≡ length items.now }
    requires fits { All spec.FitsCell values.now }
    ensures { IfOk result (λ r. r.items ≡ spec.all_shown key.now items.now values.now) }
{
    let mut row = Vec::with_capacity(alloc, items.len())?;
    for i in 0..items.len() {
        row.push(shown(key, items[i], values[i]))?;
    }
    Ok(row)
}

/// The first sum that is no whole number of 64 bits, with its item, counted from 1.
pub(crate) fn over(values: &[Running]) -> Option<(u32, i128)>
    requires { length values.now < 2 ^ 32 }
    ensures { result ≡ spec.over_shown 1 values.now }
{
    for i in 0..values.len() {
        if let Running::Sum(_, t) = values[i] {
            if !fits(t) {
                return Some((i as u32 + 1, t));
            }
        }
    }
    None
}
