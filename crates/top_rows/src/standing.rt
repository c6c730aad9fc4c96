// Where a row stands among others.
ghost use Rattle.std.specs.Prelude.{◌≡◌, ◌<◌, IfOk, if◌then◌else◌};
ghost use Rattle.std.specs.Ordering.{is_lt, ordering_then, nat_cmp};
ghost use Rattle.query_meaning.specs.Cells.{codes};
ghost use Rattle.query_meaning.specs.Meaning as meaning;
ghost use Rattle.row_blocks.specs.Blocks.{row_at};
ghost use Rattle.query_meaning.specs.Rows as rows;
ghost use Rattle.top_rows.specs.Standing as spec;

use query_meaning::Order;
use row_blocks::Block;
use std::alloc::{AllocError, Global};
use std::cmp::{Ordering, Reverse};
use table_core::Cell;

/// A row's cell in an order: as it is, or turned round.
#[derive(Clone, Copy, PartialEq, Eq, PartialOrd, Ord)]
pub enum Place {
    /// From small to great.
    Up(Cell),
    /// From great to small.
    Down(Reverse<Cell>),
}

/// Where a row stands: by its cells in the orders from left to right, then by its number.
#[derive(PartialEq, Eq, PartialOrd, Ord, Drop)]
pub struct Standing {
    /// The cells by which it is ordered.
    pub places: Vec<Place>,
    /// The row's number.
    pub number: u32,
}

/// The order of standings is `standing_cmp`: a law, for proofs about maps whose keys are standings. It does nothing.
pub(crate) fn standing_order()
    ensures { (p q : Standing) → ⟦<Standing as Ord>⟧.cmp p q ≡ spec.standing_cmp p q }
{}

// The cell of a column; NULL behind the row's end.
pub(crate) fn cell_at(row: &[Cell], column: u32) -> Cell
    ensures { result ≡ meaning.cell codes row.now column }
{
    let column = column as usize;
    if column < row.len() {
        row[column]
    } else {
        Cell::Null
    }
}

// The cell of a column in a row of a block; NULL behind the row's end.
fn cell_in(block: &Block, row: u32, column: u32) -> Cell
    requires row { row < block.now.count }
    requires place { row < 64 }
    ensures { result ≡ meaning.cell codes (row_at block.now row) column }
{
    if column < block.width() {
        block.lane(column).cell(row)
    } else {
        Cell::Null
    }
}

fn place_of(order: Order, row: &[Cell]) -> Place
    ensures { result ≡ spec.place_of order row.now }
{
    let cell = cell_at(row, order.column);
    if order.descending {
        Place::Down(Reverse(cell))
    } else {
        Place::Up(cell)
    }
}

/// A row's places in the orders.
pub(crate) fn places_of(
    alloc: Global,
    orders: &[Order],
    row: &[Cell],
) -> Result<Vec<Place>, AllocError>
    ensures { IfOk result (λ places. places.items ≡ spec.places_of orders.now row.now) }
{
    orders.iter().map(|o| place_of(*o, row)).collect(alloc)
}

fn cell_cmp(a: Cell, b: Cell) -> Ordering
    ensures { result ≡ codes.order a b }
{
    a.cmp(&b)
}

// How two cells stand in an order: the greater one first where it is descending.
fn order_cmp(order: Order, a: Cell, b: Cell) -> Ordering
    ensures { result ≡ (if order.descending then codes.order b a else codes.order a b) }
{
    if order.descending {
        cell_cmp(b, a)
    } else {
        cell_cmp(a, b)
    }
}

// How two rows stand in the first order in which they differ.
fn orders_cmp(orders: &[Order], a: &[Cell], b: &[Cell]) -> Ordering
    ensures { result ≡ rows.orders_cmp codes orders.now a.now b.now }
{
    for order in orders {
        let stand = order_cmp(*order, cell_at(a, order.column), cell_at(b, order.column));
        if stand.is_ne() {
            return stand;
        }
    }
    Ordering::Equal
}

// How a row of a block and another row stand in the first order in which they differ.
fn orders_cmp_in(orders: &[Order], block: &Block, row: u32, other: &[Cell]) -> Ordering
    requires row { row < block.now.count }
    requires place { row < 64 }
    ensures { result ≡ rows.orders_cmp codes orders.now (row_at block.now row) other.now }
{
    for order in orders {
        let cell = cell_in(block, row, order.column);
        let stand = order_cmp(*order, cell, cell_at(other, order.column));
        if stand.is_ne() {
            return stand;
        }
    }
    Ordering::Equal
}

// Whether a row stands before another, by how they stand in the orders and by their numbers.
fn leads(stand: Ordering, number: u32, other: u32) -> bool
    ensures { result ≡ is_lt (ordering_then stand (nat_cmp number other)) }
{
    match stand {
        Ordering::Less => true,
        Ordering::Equal => number < other,
        Ordering::Greater => false,
    }
}

/// Whether a row stands before another; both are given as their numbers and cells.
pub(crate) fn is_before(
    orders: &[Order],
    number: u32,
    row: &[Cell],
    other_number: u32,
    other: &[Cell],
) -> bool
    ensures { result ≡ is_lt (rows.row_cmp codes orders.now (number, row.now) (other_number, other.now)) }
{
    leads(orders_cmp(orders, row, other), number, other_number)
}

/// Whether a row of a block stands before another row: of the block it reads the lanes of the orders alone.
pub(crate) fn is_before_in(
    orders: &[Order],
    number: u32,
    block: &Block,
    row: u32,
    other_number: u32,
    other: &[Cell],
) -> bool
    requires row { row < block.now.count }
    requires place { row < 64 }
    ensures { result ≡ is_lt
        (rows.row_cmp codes orders.now (number, row_at block.now row) (other_number, other.now)) }
{
    leads(
        orders_cmp_in(orders, block, row, other),
        number,
        other_number,
    )
}
