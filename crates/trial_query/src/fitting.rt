// What a trial asks of a row, of a block or of a plan before it calls what requires it.
ghost use Rattle.std.specs.Prelude.{◌≡◌, ◌<◌, ◌≤◌, All, IfOk, length};
ghost use Rattle.std.specs.Bool.{OnTrue};
ghost use Rattle.filter_zones.specs.Truth as truth;
ghost use Rattle.filter_zones.specs.Truths.{FitsBlock};
ghost use Rattle.query_meaning.specs.Places.{IsInRow};
ghost use Rattle.table_core.specs.Value.{places_of};

use agg_groups::Item;
use filter_zones::{Bound, Cond};
use row_blocks::Block;
use std::alloc::Global;
use table_core::{Bytes, Cell, Column, Kind, Memory, Schema};

pub(crate) fn fits_cell(cell: Cell, value: Bound) -> bool
    ensures { OnTrue result (truth.Fits cell value) }
{
    match (cell, value) {
        (Cell::Null, _) => true,
        (Cell::Int(_), Bound::Number(_)) => true,
        (Cell::Code(_), Bound::Code(_)) => true,
        (Cell::Code(_), Bound::Gap(_)) => true,
        _ => false,
    }
}

pub(crate) fn fits_row(cond: &Cond, row: &[Cell]) -> bool
    ensures { OnTrue result (truth.FitsRow cond.now row.now) }
{
    match cond {
        Cond::Compare {
            column,
            op: _,
            value,
        } => { (*column as usize) < row.len() && fits_cell(row[*column as usize], *value) }
        Cond::IsNull { column, negated: _ } => (*column as usize) < row.len(),
        Cond::And(a, b) | Cond::Or(a, b) => fits_row(a, row) && fits_row(b, row),
        Cond::Not(a) => fits_row(a, row),
    }
}

// Whether the condition fits each row of a block of three columns.
pub(crate) fn fits_block(cond: &Cond, block: &Block) -> bool
    ensures { OnTrue result (FitsBlock cond.now block.now) }
{
    if block.width() != 3 {
        return false;
    }
    let mut row = [Cell::Null; 3];
    for i in 0..block.len() {
        block.row(i, &mut row);
        if !fits_row(cond, &row) {
            return false;
        }
    }
    true
}

fn is_in(item: Item, width: usize) -> bool
    ensures { OnTrue result (IsInRow item width) }
{
    match item {
        Item::CountAll | Item::Key(_) => true,
        Item::Count(x) | Item::Sum(x) | Item::Min(x) | Item::Max(x) => (x as usize) < width,
    }
}

// Whether the items are of rows of so many cells.
pub(crate) fn items_in(items: &[Item], width: usize) -> bool
    ensures { OnTrue result (All (λ i. IsInRow i width) items.now) }
{
    items.iter().all(|item| is_in(*item, width))
}

// Whether the keys are columns of rows of so many cells.
pub(crate) fn keys_in(keys: &[u32], width: usize) -> bool
    ensures { OnTrue result (All (λ x. x < width) keys.now) }
{
    keys.iter().all(|key| (*key as usize) < width)
}

// Whether these are the rows that were wanted.
pub(crate) fn are_rows(got: &[Vec<Cell>], wanted: &[&[Cell]]) -> bool {
    got.len() == wanted.len()
        && got
            .iter()
            .zip(wanted)
            .all(|(row, cells)| row.as_slice() == *cells)
}

// A column with two places.
pub(crate) fn one_price(alloc: Global) -> Result<Schema, Memory>
    ensures one { IfOk result (λ s. length s ≡ 1) }
    ensures places { IfOk result (λ s. All (λ c. places_of c.kind ≤ 9) s) }
{
    let name = Bytes::new(Vec::from_slice(alloc, b"p")?);
    let kind = Kind::Dec { places: 2 };
    Ok(Schema::new(vec![in alloc; Column { name, kind }]?))
}
