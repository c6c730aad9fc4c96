// The tables that are cut: among them the columns `id`, `dept` and `pay`, whose texts are a, b and c.
ghost use Rattle.std.specs.Prelude.{IfOk};
ghost use Rattle.table_core.specs.Codes.{IsCode};
ghost use Rattle.piece_format.specs.Cells.{IsTableOf};
ghost use Rattle.piece_format.specs.Shape.{IsShape};

use crate::asked::{are_columns, can_follow, fits_dicts, has_shape};
use piece_format::{Layout, Shape};
use std::alloc::{AllocError, Global};
use std::process::Abort;
use std::test::Fail;
use table_core::{Bytes, Cell, Cells, Codes, Column, Dict, Kind, Memory, Numbers, Schema, Table};
use table_pieces::shape_of;

pub(crate) const KINDS: [Kind; 3] = [Kind::Int, Kind::Text, Kind::Int];

// How many texts the dictionaries of those columns have.
pub(crate) const COUNTS: [u8; 3] = [0, 3, 0];

pub(crate) const CELLS: [Cell; 15] = [
    Cell::Int(1),
    Cell::Code(0),
    Cell::Int(10),
    Cell::Int(2),
    Cell::Code(1),
    Cell::Int(20),
    Cell::Int(3),
    Cell::Code(0),
    Cell::Null,
    Cell::Int(4),
    Cell::Code(2),
    Cell::Int(40),
    Cell::Int(5),
    Cell::Code(1),
    Cell::Int(-5),
];

pub(crate) const MINUS_5: u64 = 18446744073709551611;

// A column of 70 rows: each seventh is NULL, and the others are their numbers, as codes or not.
pub(crate) fn seventy(alloc: Global, codes: bool) -> Result<Vec<Cell>, AllocError> {
    let mut cells = Vec::new(alloc);
    for row in 0..70 {
        cells.push(if row % 7 == 0 {
            Cell::Null
        } else if codes {
            Cell::Code(row)
        } else {
            Cell::Int(i64::from(row))
        })?;
    }
    Ok(cells)
}

// The numbers of a column of cells that stand row by row.
fn numbers_of(
    alloc: Global,
    cells: &[Cell],
    width: usize,
    place: usize,
) -> Result<Numbers, AllocError> {
    let mut numbers = Numbers::new(alloc);
    for at in 0..cells.len() {
        if at.checked_rem(width) == Some(place) {
            numbers.push(match cells[at] {
                Cell::Int(number) => Some(number),
                _ => None,
            })?;
        }
    }
    Ok(numbers)
}

// A code that may stand in a column.
fn code_in(cell: Cell) -> Option<u32>
    ensures { IsCode result }
{
    match cell {
        Cell::Code(code) => if code < u32::MAX { Some(code) } else { None },
        _ => None,
    }
}

// The codes of a column of cells that stand row by row.
fn codes_of(
    alloc: Global,
    cells: &[Cell],
    width: usize,
    place: usize,
) -> Result<Codes, AllocError> {
    let mut codes = Codes::new(alloc);
    for at in 0..cells.len() {
        if at.checked_rem(width) == Some(place) {
            codes.push(code_in(cells[at]))?;
        }
    }
    Ok(codes)
}

// The columns of these kinds, of cells that stand row by row.
fn columns_of(alloc: Global, kinds: &[Kind], cells: &[Cell]) -> Result<Vec<Cells>, AllocError> {
    let mut columns = Vec::new(alloc);
    for place in 0..kinds.len() {
        columns.push(match kinds[place] {
            Kind::Text => Cells::Codes(codes_of(alloc, cells, kinds.len(), place)?),
            _ => Cells::Numbers(numbers_of(alloc, cells, kinds.len(), place)?),
        })?;
    }
    Ok(columns)
}

// The columns of these kinds, without names.
fn nameless(alloc: Global, kinds: &[Kind]) -> Result<Vec<Column>, AllocError> {
    let mut columns = Vec::new(alloc);
    for kind in kinds {
        columns.push(Column {
            name: Bytes::new(Vec::new(alloc)),
            kind: *kind,
        })?;
    }
    Ok(columns)
}

// The table of these kinds, of cells that stand row by row.
pub(crate) fn table_of(
    rt: &impl Abort,
    alloc: Global,
    kinds: &[Kind],
    cells: &[Cell],
) -> Result<Table, AllocError> {
    let columns = nameless(alloc, kinds)?;
    let rows = cells.len().checked_div(kinds.len()).unwrap_or(0);
    let cells = columns_of(alloc, kinds, cells)?;
    assert!(rt; are_columns(columns.len(), rows, cells.as_slice()));
    Ok(Table::new(Schema::new(columns), cells, rows))
}

// A dictionary of so many texts of one byte: a, b, c and so on.
fn dict_of(rt: &impl Abort, alloc: Global, count: u8) -> Result<Dict, AllocError> {
    let mut dict = Dict::new(alloc);
    for letter in b'a'..b'a'.saturating_add(count) {
        let text = [letter];
        assert!(rt; can_follow(&dict, &text));
        dict.push(&text)?;
    }
    Ok(dict)
}

fn dicts_of(rt: &impl Abort, alloc: Global, counts: &[u8]) -> Result<Vec<Dict>, AllocError> {
    let mut dicts = Vec::new(alloc);
    for count in counts {
        dicts.push(dict_of(rt, alloc, *count)?)?;
    }
    Ok(dicts)
}

// A table and its shape.
#[derive(Drop)]
pub(crate) struct Example {
    pub table: Table,
    pub shape: Shape,
}

// The shape of a table that has one.
fn shaped(
    rt: &impl Abort,
    alloc: Global,
    table: &Table,
    dicts: &[Dict],
    layout: Layout,
    per: u32,
) -> Result<Shape, Memory>
    ensures shape { IfOk result (λ s. IsShape s) }
    ensures table { IfOk result (λ s. IsTableOf s table.now) }
{
    assert!(rt; has_shape(table, dicts, layout, per));
    assert!(rt; fits_dicts(table, dicts));
    shape_of(alloc, table, dicts, layout, per)
}

// The table of these kinds, counts of texts and cells, cut.
pub(crate) fn cut_of(
    rt: &impl Abort,
    alloc: Global,
    kinds: &[Kind],
    counts: &[u8],
    cells: &[Cell],
    layout: Layout,
    per: u32,
) -> Result<Example, Fail>
    ensures shape { IfOk result (λ c. IsShape c.shape) }
    ensures table { IfOk result (λ c. IsTableOf c.shape c.table) }
{
    let table = table_of(rt, alloc, kinds, cells)?;
    let dicts = dicts_of(rt, alloc, counts)?;
    let shape = shaped(rt, alloc, &table, dicts.as_slice(), layout, per)?;
    Ok(Example { table, shape })
}

// The table of these cells in the columns `id`, `dept` and `pay`, cut.
pub(crate) fn cut(
    rt: &impl Abort,
    alloc: Global,
    cells: &[Cell],
    layout: Layout,
    per: u32,
) -> Result<Example, Fail>
    ensures shape { IfOk result (λ c. IsShape c.shape) }
    ensures table { IfOk result (λ c. IsTableOf c.shape c.table) }
{
    cut_of(rt, alloc, &KINDS, &COUNTS, cells, layout, per)
}

// The table of a column of 70 numbers, cut.
pub(crate) fn cut_seventy(
    rt: &impl Abort,
    alloc: Global,
    kind: Kind,
    layout: Layout,
    per: u32,
) -> Result<Example, Fail>
    ensures shape { IfOk result (λ c. IsShape c.shape) }
    ensures table { IfOk result (λ c. IsTableOf c.shape c.table) }
{
    let cells = seventy(alloc, false)?;
    cut_of(rt, alloc, &[kind], &[0], cells.as_slice(), layout, per)
}
