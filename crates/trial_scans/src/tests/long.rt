// Chunks of 1, 63, 64 and 65 rows: blocks that are full, that end early, and one of a single row behind a full one.
ghost use Rattle.std.specs.Prelude.{◌<◌, ◌≤◌};

use crate::outcome::Outcome;
use crate::single::alone;
use crate::tables::{NO_PIECE, put_words, shape};
use coop_outside::{MemDepot, SpoiltDepot};
use help_stories::{need, setting};
use piece_format::Layout;
use relevance::Relevance;
use scan_story::{Memory, PolicyName};
use std::alloc::{AllocError, Global};
use std::process::Abort;
use std::sync::Wait;
use std::test::Fail;
use table_core::Cell::{self, Code, Int, Null};
use table_core::Kind;

const ROWS: u32 = 193;

// The layout, the rows of a chunk, and the chunks: how many there are, and their numbers.
type Cut = (Layout, u32, u32, &'static [u32]);

const CUTS: [Cut; 4] = [
    (Layout::Row, 64, 4, &[0, 1, 2, 3]),
    (Layout::Row, 65, 3, &[0, 1, 2]),
    (Layout::Column, 64, 4, &[0, 1, 2, 3]),
    (Layout::Column, 65, 3, &[0, 1, 2]),
];

// The table: a column of numbers and one of codes, each with NULLs of its own.
fn cell_of(row: u32, column: u32) -> Cell {
    if row % 3 == column % 3 {
        return Null;
    }
    match column {
        0 => Int(i64::from(row) - 100),
        _ => Code(row % 5),
    }
}

fn word_of(row: u32, column: u32) -> u64 {
    match cell_of(row, column) {
        Null => 0,
        Int(n) => n.cast_unsigned(),
        Code(k) => u64::from(k),
    }
}

fn null_bit(row: u32, column: u32) -> u64 {
    u64::from(cell_of(row, column) == Null)
}

// The words of rows in the row layout.
fn row_words(alloc: Global, first: u32, end: u32) -> Result<Vec<u64>, AllocError> {
    let mut words = Vec::new(alloc);
    for row in first..end {
        words.push(null_bit(row, 0) | null_bit(row, 1) << 1)?;
        words.push(word_of(row, 0))?;
        words.push(word_of(row, 1))?;
    }
    Ok(words)
}

// The null bits of up to 64 rows.
fn null_word(first: u32, end: u32, column: u32) -> u64 {
    let mut word = 0;
    for bit in 0..64 {
        let row = first.saturating_add(bit);
        if row < end {
            word |= null_bit(row, column) << bit;
        }
    }
    word
}

// The words of up to 128 rows in the column layout.
fn column_words(alloc: Global, first: u32, end: u32, column: u32) -> Result<Vec<u64>, AllocError> {
    let mut words = Vec::new(alloc);
    for row in first..end {
        words.push(word_of(row, column))?;
    }
    words.push(null_word(first, end, column))?;
    let second = first.saturating_add(64);
    if second < end {
        words.push(null_word(second, end, column))?;
    }
    Ok(words)
}

// A depot that has the pieces of the table.
fn depot_of<R: Abort>(rt: &R, alloc: Global, cut: &Cut) -> Result<SpoiltDepot, Fail> {
    let (layout, per, _count, chunks) = *cut;
    let mut inner = MemDepot::new(alloc);
    for chunk in chunks {
        let first = chunk.saturating_mul(per);
        let end = first.saturating_add(per).min(ROWS);
        match layout {
            Layout::Row => put_words(
                rt,
                alloc,
                &mut inner,
                *chunk,
                &row_words(alloc, first, end)?,
            )?,
            Layout::Column => for column in 0..2 {
                let piece = chunk.saturating_mul(2).saturating_add(column);
                put_words(
                    rt,
                    alloc,
                    &mut inner,
                    piece,
                    &column_words(alloc, first, end, column)?,
                )?;
            }
        }
    }
    Ok(SpoiltDepot {
        inner,
        piece: NO_PIECE,
        word: 0,
        value: 0,
    })
}

// How many groups of columns there are.
fn groups_of(layout: Layout) -> u32
    ensures some { 0 < result }
    ensures few { result ≤ 2 }
{
    match layout {
        Layout::Row => 1,
        Layout::Column => 2,
    }
}

// What becomes of a scan over the whole table.
fn outcome_of<R: Abort + Wait>(rt: &R, alloc: Global, cut: &Cut) -> Result<Option<Outcome>, Fail> {
    let (layout, per, count, chunks) = *cut;
    let groups = groups_of(layout);
    let first = need(alloc, 1, 0, chunks, &[0, 1])?;
    let s = setting(
        alloc,
        PolicyName::Relevance,
        [count, 1, 4 * groups],
        groups,
        first,
        None,
    )?;
    let shape = shape(alloc, layout, &[Kind::Int, Kind::Text], &[0, 5], ROWS, per)?;
    let depot = depot_of(rt, alloc, cut)?;
    match alone(rt, alloc, &s, &shape, Relevance, depot, 9) {
        Ok(out) => Ok(out),
        Err(Memory) => Err(Fail::new("no memory")),
    }
}

// The scan reads each row of the table, as a block and cell by cell.
fn check<R: Abort + Wait>(rt: &R, alloc: Global, cut: &Cut) -> Result<(), Fail> {
    let Some(out) = outcome_of(rt, alloc, cut)? else {
        panic!(rt; "setting and shape don't fit")
    };
    let notes = &out.notes;
    assert!(rt; !notes.differs && !notes.lost, "{cut:?}");
    assert!(rt; notes.cells.len() == 386);
    for row in 0..ROWS {
        let at = 2 * row as usize;
        assert!(rt; notes.cells[at] == cell_of(row, 0), "{cut:?} row {row}");
        assert!(rt; notes.cells[at + 1] == cell_of(row, 1), "{cut:?} row {row}");
    }
    Ok(())
}

#[test]
fn long_chunks_are_read_block_by_block(rt: HostRuntime) -> Result<(), Fail> {
    for cut in CUTS {
        check(&rt, rt.alloc(), &cut)?;
    }
    Ok(())
}
