// The shape of a table, and the zones of its chunks.
use crate::example::{CELLS, KINDS, cut};
use filter_zones::{ChunkZones, Zone};
use piece_format::{Layout, Shape};
use std::alloc::Global;
use std::process::Abort;
use std::test::Fail;
use table_core::Cell::{self, Code, Int};
use table_pieces::{chunks_of, zones_of_chunks};

// The zones of the columns of each chunk, with two rows in a chunk.
const ZONES: &[[Zone; 3]] = &[
    [
        Zone {
            has_null: false,
            range: Some((Int(1), Int(2))),
        },
        Zone {
            has_null: false,
            range: Some((Code(0), Code(1))),
        },
        Zone {
            has_null: false,
            range: Some((Int(10), Int(20))),
        },
    ],
    [
        Zone {
            has_null: false,
            range: Some((Int(3), Int(4))),
        },
        Zone {
            has_null: false,
            range: Some((Code(0), Code(2))),
        },
        Zone {
            has_null: true,
            range: Some((Int(40), Int(40))),
        },
    ],
    [
        Zone {
            has_null: false,
            range: Some((Int(5), Int(5))),
        },
        Zone {
            has_null: false,
            range: Some((Code(1), Code(1))),
        },
        Zone {
            has_null: false,
            range: Some((Int(-5), Int(-5))),
        },
    ],
];

// Whether each chunk has just these zones in its first columns.
fn have_zones(chunks: &[ChunkZones], wanted: &[[Zone; 3]]) -> bool {
    if chunks.len() != wanted.len() {
        return false;
    }
    for c in 0..chunks.len() {
        if &chunks[c].zones[..3] != wanted[c].as_slice() {
            return false;
        }
    }
    true
}

// Whether the rows, two in a chunk, have just the chunks with these zones.
fn has_zones(
    rt: &impl Abort,
    alloc: Global,
    cells: &[Cell],
    wanted: &[[Zone; 3]],
) -> Result<bool, Fail> {
    let cut = cut(rt, alloc, cells, Layout::Row, 2)?;
    let zones = zones_of_chunks(alloc, &cut.shape, &cut.table)?;
    Ok(chunks_of(&cut.shape) as usize == wanted.len() && have_zones(zones.as_slice(), wanted))
}

#[test]
fn each_chunk_has_the_zones_of_its_rows(rt: HostRuntime) -> Result<(), Fail> {
    assert!(rt; has_zones(&rt, rt.alloc(), &CELLS, ZONES)?);
    assert!(rt; has_zones(&rt, rt.alloc(), &[], &[])?, "without rows");
    Ok(())
}

// Whether this is the shape of the five rows in columns, with so many rows in a chunk.
fn is_of_five(shape: &Shape, per: u32) -> bool {
    shape.kinds.as_slice() == KINDS.as_slice()
        && shape.dict_lens.as_slice() == [0, 3, 0].as_slice()
        && (shape.layout, shape.rows, shape.per) == (Layout::Column, 5, per)
}

// Whether the five rows have that shape, and so many chunks.
fn has_chunks(rt: &impl Abort, alloc: Global, per: u32, chunks: u32) -> Result<bool, Fail> {
    let cut = cut(rt, alloc, &CELLS, Layout::Column, per)?;
    Ok(is_of_five(&cut.shape, per) && chunks_of(&cut.shape) == chunks)
}

// Rows in a chunk, and how many chunks there are.
const CHUNKS: &[(u32, u32)] = &[(1, 5), (2, 3), (5, 1), (9, 1)];

fn expect_chunks(rt: &impl Abort, alloc: Global, rows: &[(u32, u32)]) -> Result<(), Fail> {
    for (per, chunks) in rows {
        assert!(rt; has_chunks(rt, alloc, *per, *chunks)?, "{per}");
    }
    Ok(())
}

#[test]
fn a_shape_has_kinds_lengths_and_rows(rt: HostRuntime) -> Result<(), Fail> {
    expect_chunks(&rt, rt.alloc(), CHUNKS)
}
