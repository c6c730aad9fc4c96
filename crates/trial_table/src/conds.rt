// What a condition asks of a row and of zones, tried, and conditions and zones in few words.
ghost use Rattle.std.specs.Bool.{OnTrue};
ghost use Rattle.filter_zones.specs.Truth as spec;
ghost use Rattle.filter_zones.specs.Possible.{FitsZones};

use filter_zones::{Bound, ChunkZones, Cond, Truth, TruthSet, Zone, may_be, truth_of};
use std::alloc::{AllocError, Global};
use std::process::Abort;
use table_core::{Cell, Op};

pub(crate) const OPS: [Op; 6] = [Op::Eq, Op::Ne, Op::Lt, Op::Le, Op::Gt, Op::Ge];

fn fits_cell(cell: Cell, value: Bound) -> bool
    ensures { OnTrue result (spec.Fits cell value) }
{
    match (cell, value) {
        (Cell::Null, _) => true,
        (Cell::Int(_), Bound::Number(_)) => true,
        (Cell::Code(_), Bound::Code(_)) => true,
        (Cell::Code(_), Bound::Gap(_)) => true,
        _ => false,
    }
}

fn fits_row(cond: &Cond, row: &[Cell]) -> bool
    ensures { OnTrue result (spec.FitsRow cond.now row.now) }
{
    match cond {
        Cond::Compare {
            column,
            op: _,
            value,
        } => { (*column as usize) < row.len() && fits_cell(row[*column as usize], *value) }
        Cond::IsNull { column, negated: _ } => (*column as usize) < row.len(),
        Cond::And(a, b) | Cond::Or(a, b) => fits_row(a, row) && fits_row(b, row),
        Cond::Not(a) => fits_row(a, row),
    }
}

pub(crate) fn fits_chunk(cond: &Cond, chunk: &ChunkZones) -> bool
    ensures { OnTrue result (FitsZones cond.now chunk.now.zones) }
{
    match cond {
        Cond::Compare {
            column,
            op: _,
            value,
        } => {
            (*column as usize) < chunk.zones.as_slice().len()
                && match chunk.zones[*column as usize].range {
                    None => true,
                    Some((low, high)) => fits_cell(low, *value) && fits_cell(high, *value),
                }
        }
        Cond::IsNull { column, negated: _ } => (*column as usize) < chunk.zones.as_slice().len(),
        Cond::And(a, b) | Cond::Or(a, b) => fits_chunk(a, chunk) && fits_chunk(b, chunk),
        Cond::Not(a) => fits_chunk(a, chunk),
    }
}

// How true the condition is of the row.
pub(crate) fn truth(rt: &impl Abort, cond: &Cond, row: &[Cell]) -> Truth {
    assert!(rt; fits_row(cond, row));
    truth_of(cond, row)
}

// Just these truths are possible in the chunk.
pub(crate) fn expect(rt: &impl Abort, cond: &Cond, chunk: &ChunkZones, wanted: TruthSet) {
    assert!(rt; fits_chunk(cond, chunk));
    assert!(rt; may_be(cond, chunk) == wanted, "{cond:?}");
}

pub(crate) const NOTHING: Zone = Zone {
    has_null: false,
    range: None,
};

pub(crate) const NULLS: Zone = Zone {
    has_null: true,
    range: None,
};

// A chunk of two columns.
pub(crate) fn chunk_of(first: Zone, second: Zone) -> ChunkZones {
    let mut zones = [NOTHING; 16];
    zones[0] = first;
    zones[1] = second;
    ChunkZones { zones }
}

pub(crate) fn both(alloc: Global, a: Cond, b: Cond) -> Result<Cond, AllocError> {
    Ok(Cond::And(Box::new(alloc, a)?, Box::new(alloc, b)?))
}

pub(crate) fn either(alloc: Global, a: Cond, b: Cond) -> Result<Cond, AllocError> {
    Ok(Cond::Or(Box::new(alloc, a)?, Box::new(alloc, b)?))
}

pub(crate) fn not(alloc: Global, a: Cond) -> Result<Cond, AllocError> {
    Ok(Cond::Not(Box::new(alloc, a)?))
}

pub(crate) fn compare(column: u32, op: Op, value: i64) -> Cond {
    Cond::Compare {
        column,
        op,
        value: Bound::Number(2 * i128::from(value)),
    }
}

// A set by a letter: True alone, False alone, Both, or Neither of them.
pub(crate) fn set_of(letter: u8, can_unknown: bool) -> TruthSet {
    TruthSet {
        can_false: letter == b'F' || letter == b'B',
        can_unknown,
        can_true: letter == b'T' || letter == b'B',
    }
}
