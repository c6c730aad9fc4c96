//! The rows of a held chunk, read.
ghost use Rattle.std.specs.Prelude.{◌≡◌, ◌<◌, ◌%◌, Some, length};
ghost use Rattle.piece_format.specs.Shape.{TableShape};
ghost use Rattle.cscan.specs.Scans.{ReadsColumns};
ghost use Rattle.cscan.specs.Scans.{IsScan};

use crate::notes::Notes;
use coop_outside::Depot;
use cscan::{CScan, Held, NoGate};
use frame_pool::Content;
use relevance::Policy;
use row_blocks::Block;
use scan_story::Origin;
use table_core::{Cell, ColumnSet};

// Reads the cells of a row again, one by one, and notes where one is another than in the row.
fn read_again<S: Origin, C: Content, P: Policy, D: Depot>(
    scan: &mut CScan<'_, S, C, P, D, NoGate>,
    held: &Held,
    row: u32,
    columns: &ColumnSet,
    cells: &[Cell],
    notes: &mut Notes,
)
    requires scan { IsScan S.origin C.pieces scan.old }
    requires out { scan.old.out ≡ Some held.now.given }
    requires row { row < held.now.given.rows }
    requires columns { ReadsColumns S.origin.setting scan.old.query columns.now }
    ensures { scan.new ≡ scan.old }
{
    for x in 0..cells.len() {
        notes.cell(cells[x]);
        if x < 16 && columns.has(x as u32) && held.cell(scan, row, x as u32) != cells[x] {
            notes.differs = true;
        }
    }
}

// Notes where a row of a block isn't these cells.
fn compare(block: &Block, i: u32, cells: &[Cell], notes: &mut Notes)
    requires row { i < 64 }
    requires width { block.now.width ≡ length cells.now }
{
    for x in 0..block.width() {
        if block.lane(x).cell(i) != cells[x as usize] {
            notes.differs = true;
        }
    }
}

// Reads up to 64 rows of the chunk: at once as a block, and then each for these columns and cell by cell.
fn read_block<S: Origin, C: Content, P: Policy, D: Depot>(
    scan: &mut CScan<'_, S, C, P, D, NoGate>,
    held: &Held,
    first: u32,
    columns: &ColumnSet,
    cells: &mut [Cell],
    notes: &mut Notes,
)
    requires scan { IsScan S.origin C.pieces scan.old }
    requires out { scan.old.out ≡ Some held.now.given }
    requires first { (first % 64 ≡ 0) × (first < held.now.given.rows) }
    requires columns { ReadsColumns S.origin.setting scan.old.query columns.now }
    requires width { length cells.old ≡ length scan.old.shape.now.kinds }
    ensures same { scan.new ≡ scan.old }
    ensures width { length cells.new ≡ length cells.old }
{
    let count = (held.rows() - first).min(64);
    let mut block = Block::new();
    held.block(scan, first, count, columns, &mut block);
    for i in 0..count {
        cells.fill(Cell::Int(77));
        held.row(scan, first + i, columns, cells);
        compare(&block, i, cells, notes);
        read_again(scan, held, first + i, columns, cells, notes);
    }
}

/// Reads the rows of the chunk that the scan has out: as blocks, each for these columns at once, and then cell by cell.
pub(crate) fn read_rows<S: Origin, C: Content, P: Policy, D: Depot>(
    scan: &mut CScan<'_, S, C, P, D, NoGate>,
    held: &Held,
    columns: &ColumnSet,
    cells: &mut [Cell],
    notes: &mut Notes,
)
    requires scan { IsScan S.origin C.pieces scan.old }
    requires out { scan.old.out ≡ Some held.now.given }
    requires columns { ReadsColumns S.origin.setting scan.old.query columns.now }
    requires width { length cells.old ≡ length scan.old.shape.now.kinds }
    ensures same { scan.new ≡ scan.old }
    ensures width { length cells.new ≡ length cells.old }
{
    for n in 0..held.rows().div_ceil(64) {
        read_block(scan, held, 64 * n, columns, cells, notes);
    }
}
