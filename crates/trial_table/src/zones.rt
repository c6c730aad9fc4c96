// The definitions against values from outside: the table of zones row by row, and the chunks that are needed.
ghost use Rattle.std.specs.Prelude.{All};
ghost use Rattle.std.specs.Bool.{OnTrue};
ghost use Rattle.filter_zones.specs.Possible.{FitsZones};

use crate::conds::{NOTHING, NULLS, OPS, both, chunk_of, compare, expect, fits_chunk, not, set_of};
use crate::example::{CELLS, KINDS, table_of};
use filter_zones::{Bound, ChunkZones, Cond, Zone, needed, zones_of};
use std::alloc::{AllocError, Global};
use std::process::Abort;
use std::test::Fail;
use table_core::{Cell, Op, Table};

// Each comparison, with its possible truths where the value is below the least cell 2, at it, between, at the greatest
// cell 4, and above it, and where it is below, at and above the only cell 3.
const TABLE: &[(Op, [u8; 8])] = &[
    (Op::Eq, *b"FBBBFFTF"),
    (Op::Ne, *b"TBBBTTFT"),
    (Op::Lt, *b"FFBBTFFT"),
    (Op::Le, *b"FBBTTFTT"),
    (Op::Gt, *b"TBBFFTFF"),
    (Op::Ge, *b"TTBBFTTF"),
];

// Values, each by its place in a row of the table.
const NUMBERS: &[(Bound, usize)] = &[
    (Bound::Number(2), 0),
    (Bound::Number(3), 0),
    (Bound::Number(4), 1),
    (Bound::Number(5), 2),
    (Bound::Number(6), 2),
    (Bound::Number(7), 2),
    (Bound::Number(8), 3),
    (Bound::Number(9), 4),
    (Bound::Number(10), 4),
    (Bound::Number(4), 5),
    (Bound::Number(5), 5),
    (Bound::Number(6), 6),
    (Bound::Number(7), 7),
    (Bound::Number(8), 7),
];

const CODES: &[(Bound, usize)] = &[
    (Bound::Code(1), 0),
    (Bound::Gap(0), 0),
    (Bound::Gap(2), 0),
    (Bound::Code(2), 1),
    (Bound::Gap(3), 2),
    (Bound::Code(3), 2),
    (Bound::Gap(4), 2),
    (Bound::Code(4), 3),
    (Bound::Gap(5), 4),
    (Bound::Code(2), 5),
    (Bound::Gap(3), 5),
    (Bound::Code(3), 6),
    (Bound::Gap(4), 7),
];

// One entry of the table, without a NULL and with one.
fn try_entry(rt: &impl Abort, op: Op, range: (Cell, Cell), value: Bound, letter: u8) {
    let cond = Cond::Compare {
        column: 0,
        op,
        value,
    };
    for has_null in [false, true] {
        let chunk = chunk_of(
            Zone {
                has_null,
                range: Some(range),
            },
            NOTHING,
        );
        expect(rt, &cond, &chunk, set_of(letter, has_null));
    }
}

// The entries of one comparison with each of these values, over the wide range or the narrow one.
fn try_values(
    rt: &impl Abort,
    op: Op,
    letters: &[u8; 8],
    values: &[(Bound, usize)],
    wide: (Cell, Cell),
    narrow: (Cell, Cell),
) {
    for (value, place) in values {
        let range = if *place < 5 { wide } else { narrow };
        try_entry(rt, op, range, *value, letters[*place % 8]);
    }
}

fn try_table(rt: &impl Abort, rows: &[(Op, [u8; 8])]) {
    for (op, letters) in rows {
        let (wide, narrow) = ((Cell::Int(2), Cell::Int(4)), (Cell::Int(3), Cell::Int(3)));
        try_values(rt, *op, letters, NUMBERS, wide, narrow);
        let (wide, narrow) = (
            (Cell::Code(2), Cell::Code(4)),
            (Cell::Code(3), Cell::Code(3)),
        );
        try_values(rt, *op, letters, CODES, wide, narrow);
    }
}

#[test]
fn comparisons_follow_the_table_of_zones(rt: HostRuntime) {
    try_table(&rt, TABLE);
}

#[test]
fn columns_without_values_have_neither_true_nor_false(rt: HostRuntime) {
    for op in OPS {
        let cond = compare(0, op, 3);
        expect(&rt, &cond, &chunk_of(NOTHING, NOTHING), set_of(b'N', false));
        expect(&rt, &cond, &chunk_of(NULLS, NOTHING), set_of(b'N', true));
    }
}

const VALUES: Zone = Zone {
    has_null: false,
    range: Some((Cell::Int(2), Cell::Int(4))),
};

const NULL_AND_VALUES: Zone = Zone {
    has_null: true,
    range: Some((Cell::Int(2), Cell::Int(4))),
};

// A zone, and the truths of IS NULL and of IS NOT NULL.
const NULL_TESTS: &[(Zone, u8, u8)] = &[
    (VALUES, b'F', b'T'),
    (NULL_AND_VALUES, b'B', b'B'),
    (NULLS, b'T', b'F'),
    (NOTHING, b'N', b'N'),
];

fn try_null_tests(rt: &impl Abort, rows: &[(Zone, u8, u8)]) {
    for (zone, is_null, is_not_null) in rows {
        let chunk = chunk_of(*zone, NOTHING);
        for (negated, letter) in [(false, *is_null), (true, *is_not_null)] {
            let cond = Cond::IsNull { column: 0, negated };
            expect(rt, &cond, &chunk, set_of(letter, false));
        }
    }
}

#[test]
fn null_tests_follow_the_table_of_zones(rt: HostRuntime) {
    try_null_tests(&rt, NULL_TESTS);
}

fn fits_chunks(cond: &Cond, chunks: &[ChunkZones]) -> bool
    ensures { OnTrue result (All (λ chunk. FitsZones cond.now chunk.zones) chunks.now) }
{
    for chunk in chunks {
        if !fits_chunk(cond, chunk) {
            return false;
        }
    }
    true
}

// The zones of the second of three chunks of the five rows, and of `pay` in the third.
const SECOND: [Zone; 4] = [
    Zone {
        has_null: false,
        range: Some((Cell::Int(3), Cell::Int(4))),
    },
    Zone {
        has_null: false,
        range: Some((Cell::Code(0), Cell::Code(2))),
    },
    Zone {
        has_null: true,
        range: Some((Cell::Int(40), Cell::Int(40))),
    },
    NOTHING,
];

const THIRD_PAY: Zone = Zone {
    has_null: false,
    range: Some((Cell::Int(-5), Cell::Int(-5))),
};

// The zones of the rows from one place up to another, of a table of three columns.
fn zones_between(rt: &impl Abort, table: &Table, from: usize, to: usize) -> ChunkZones {
    assert!(rt; from <= to && to <= table.len() && table.schema().len() == 3);
    zones_of(table, from, to)
}

// The zones of the chunks of the five rows, two in each but the last.
fn three_chunks(rt: &impl Abort, alloc: Global) -> Result<[ChunkZones; 3], AllocError> {
    let table = table_of(rt, alloc, &KINDS, &CELLS)?;
    Ok([
        zones_between(rt, &table, 0, 2),
        zones_between(rt, &table, 2, 4),
        zones_between(rt, &table, 4, 5),
    ])
}

#[test]
fn each_chunk_has_its_zones(rt: HostRuntime) -> Result<(), Fail> {
    let chunks = three_chunks(&rt, rt.alloc())?;
    assert!(rt; &chunks[1].zones[..4] == SECOND.as_slice());
    assert!(rt; chunks[2].zones[2] == THIRD_PAY);
    Ok(())
}

// How many of the chunks are needed without a condition.
fn count_needed(chunks: &[ChunkZones; 3]) -> u32 {
    needed(None, chunks).len()
}

// Which of three chunks the condition needs.
fn chunks_needed(rt: &impl Abort, cond: &Cond, chunks: &[ChunkZones; 3]) -> [bool; 3] {
    assert!(rt; fits_chunks(cond, chunks));
    let set = needed(Some(cond), chunks);
    [set.has(0), set.has(1), set.has(2)]
}

// The condition needs just these of the three chunks.
fn expect_needed(rt: &impl Abort, chunks: &[ChunkZones; 3], cond: &Cond, wanted: [bool; 3]) {
    assert!(rt; chunks_needed(rt, cond, chunks) == wanted, "{cond:?}");
}

#[test]
fn a_condition_skips_the_chunks_that_it_cannot_match(rt: HostRuntime) -> Result<(), Fail> {
    let chunks = three_chunks(&rt, rt.alloc())?;
    assert!(rt; count_needed(&chunks) == 3);
    expect_needed(&rt, &chunks, &compare(0, Op::Ge, 4), [false, true, true]);
    expect_needed(&rt, &chunks, &compare(0, Op::Gt, 9), [false, false, false]);
    let not_over_null = not(rt.alloc(), compare(2, Op::Gt, 15))?;
    expect_needed(&rt, &chunks, &not_over_null, [true, false, true]);
    Ok(())
}

// A comparison of a column and a test of another for a value, joined by AND.
fn with_there(alloc: Global, op: Op) -> Result<Cond, AllocError> {
    let there = Cond::IsNull {
        column: 1,
        negated: true,
    };
    both(alloc, compare(0, op, 1), there)
}

// No truth of a comparison, of its negation and of an AND is possible in the chunk.
fn expect_none(rt: &impl Abort, alloc: Global, chunk: &ChunkZones, op: Op) -> Result<(), Fail> {
    let none = set_of(b'N', false);
    expect(rt, &compare(0, op, 1), chunk, none);
    expect(rt, &not(alloc, compare(0, op, 1))?, chunk, none);
    expect(rt, &with_there(alloc, op)?, chunk, none);
    Ok(())
}

// The zones of no rows, which are nothing in each column.
fn empty_chunk(rt: &impl Abort, alloc: Global) -> Result<ChunkZones, AllocError> {
    let table = table_of(rt, alloc, &KINDS, &CELLS)?;
    Ok(zones_between(rt, &table, 2, 2))
}

fn is_empty(chunk: &ChunkZones) -> bool {
    let zones = [NOTHING; 16];
    *chunk == ChunkZones { zones }
}

#[test]
fn an_empty_chunk_has_no_truth(rt: HostRuntime) -> Result<(), Fail> {
    let chunk = empty_chunk(&rt, rt.alloc())?;
    assert!(rt; is_empty(&chunk));
    for op in OPS {
        expect_none(&rt, rt.alloc(), &chunk, op)?;
    }
    Ok(())
}
