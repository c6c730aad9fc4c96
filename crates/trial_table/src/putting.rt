// The pieces of a table in a depot.
ghost use Rattle.piece_format.specs.Cells.{IsTableOf};
ghost use Rattle.piece_format.specs.Shape.{IsShape};

use crate::example::{CELLS, Example, MINUS_5, cut, cut_seventy};
use crate::full_depot::FullDepot;
use coop_outside::{Depot, MemDepot};
use piece_format::Layout;
use std::alloc::{AllocError, Global};
use std::process::Abort;
use std::test::Fail;
use std::thread::Threads;
use table_core::{Cell, Kind};
use table_pieces::{BatchRefusal, put_pieces};

// The words of each piece, with two rows in a chunk.
const ROW_PIECES: [&[u64]; 3] = [
    &[0, 1, 0, 10, 0, 2, 1, 20],
    &[4, 3, 0, 0, 0, 4, 2, 40],
    &[0, 5, 1, MINUS_5],
];

const COLUMN_PIECES: [&[u64]; 9] = [
    &[1, 2, 0],
    &[0, 1, 0],
    &[10, 20, 0],
    &[3, 4, 0],
    &[0, 2, 0],
    &[0, 40, 1],
    &[5, 0],
    &[1, 0],
    &[MINUS_5, 0],
];

fn pieces(layout: Layout) -> &'static [&'static [u64]] {
    match layout {
        Layout::Row => &ROW_PIECES,
        Layout::Column => &COLUMN_PIECES,
    }
}

// Whether the depot holds just these bytes under the piece.
fn holds(depot: &MemDepot, piece: u32, words: &[u64]) -> bool {
    let Some(bytes) = depot.pieces.get(&piece) else {
        return false;
    };
    if bytes.len() != 8 * words.len() {
        return false;
    }
    for i in 0..words.len() {
        if &bytes.as_slice()[8 * i..8 * i + 8] != words[i].to_le_bytes().as_slice() {
            return false;
        }
    }
    true
}

// The depot holds the first of these pieces and no others.
fn holds_first(depot: &MemDepot, pieces: &[&[u64]], count: usize) -> bool {
    for p in 0..count.min(9).min(pieces.len()) {
        if !holds(depot, p as u32, pieces[p]) {
            return false;
        }
    }
    count <= pieces.len() && depot.pieces.len() == count
}

// Cells that are put, two rows in a chunk, by how many threads at most beside the caller's; the put that fails, counted
// from 1; what all of them answer, how many faults are counted, and how many of the first pieces the depot then holds.
#[derive(Clone, Copy)]
struct Case<'a> {
    cells: &'a [Cell],
    layout: Layout,
    most_threads: u32,
    fails: u64,
    answer: Result<(), BatchRefusal>,
    faults: u64,
    held: usize,
}

// Whether the depot is left as the case says.
fn is_left(depot: &MemDepot, case: &Case<'_>) -> bool {
    (depot.gets, depot.faults) == (0, case.faults)
        && holds_first(depot, pieces(case.layout), case.held)
}

// Puts the pieces of a table that is cut.
fn put<R: Threads + Sync, D: Depot>(
    rt: &R,
    alloc: Global,
    cut: &Example,
    depot: &mut D,
    most_threads: u32,
) -> Result<(), BatchRefusal>
    requires shape { IsShape cut.now.shape }
    requires table { IsTableOf cut.now.shape cut.now.table }
{
    put_pieces(rt, alloc, &cut.shape, &cut.table, depot, most_threads)
}

// Puts the pieces of these cells, two rows in a chunk.
fn put_cells<R: Abort + Threads + Sync, D: Depot>(
    rt: &R,
    alloc: Global,
    cells: &[Cell],
    layout: Layout,
    depot: &mut D,
    most_threads: u32,
) -> Result<Result<(), BatchRefusal>, Fail> {
    let cut = cut(rt, alloc, cells, layout, 2)?;
    Ok(put(rt, alloc, &cut, depot, most_threads))
}

// A depot of which one put fails.
fn depot_of(alloc: Global, fails: u64) -> Result<MemDepot, AllocError> {
    let mut depot = MemDepot::new(alloc);
    depot.fail_puts.push(fails)?;
    Ok(depot)
}

// Whether the puts come to what the case says.
fn puts<R: Abort + Threads + Sync>(rt: &R, alloc: Global, case: &Case<'_>) -> Result<bool, Fail> {
    let mut depot = depot_of(alloc, case.fails)?;
    let answer = put_cells(
        rt,
        alloc,
        case.cells,
        case.layout,
        &mut depot,
        case.most_threads,
    )?;
    Ok(answer == case.answer && is_left(&depot, case))
}

fn expect_put<R: Abort + Threads + Sync>(
    rt: &R,
    alloc: Global,
    cases: &[Case<'_>],
) -> Result<(), Fail> {
    for case in cases {
        assert!(rt;
            puts(rt, alloc, case)?,
            "{:?} {} {}",
            case.layout,
            case.most_threads,
            case.fails
        );
    }
    Ok(())
}

const IN_ROWS: Case<'static> = Case {
    cells: &CELLS,
    layout: Layout::Row,
    most_threads: 0,
    fails: 0,
    answer: Ok(()),
    faults: 0,
    held: 3,
};

const IN_COLUMNS: Case<'static> = Case {
    layout: Layout::Column,
    held: 9,
    ..IN_ROWS
};

// Three pieces, and nine, by fewer threads than pieces and by more.
const ALL: &[Case<'static>] = &[
    IN_ROWS,
    IN_COLUMNS,
    Case {
        most_threads: 1,
        ..IN_ROWS
    },
    Case {
        most_threads: 7,
        ..IN_ROWS
    },
    Case {
        most_threads: 3,
        ..IN_COLUMNS
    },
    Case {
        most_threads: 20,
        ..IN_COLUMNS
    },
];

#[test]
fn each_piece_is_put_with_its_bytes(rt: HostRuntime) -> Result<(), Fail> {
    expect_put(&rt, rt.alloc(), ALL)
}

// The put of each of so many pieces fails.
fn expect_failing<R: Abort + Threads + Sync>(
    rt: &R,
    alloc: Global,
    layout: Layout,
    count: u32,
    most_threads: u32,
) -> Result<(), Fail> {
    for piece in 0..count {
        let case = Case {
            cells: &CELLS,
            layout,
            most_threads,
            fails: u64::from(piece) + 1,
            answer: Err(BatchRefusal::Put { piece }),
            faults: 1,
            held: piece as usize,
        };
        expect_put(rt, alloc, &[case])?;
    }
    Ok(())
}

#[test]
fn a_put_that_fails_is_told_by_its_piece(rt: HostRuntime) -> Result<(), Fail> {
    expect_failing(&rt, rt.alloc(), Layout::Row, 3, 0)?;
    expect_failing(&rt, rt.alloc(), Layout::Column, 9, 0)?;
    expect_failing(&rt, rt.alloc(), Layout::Column, 9, 3)
}

const NO_ROWS: Case<'static> = Case {
    cells: &[],
    layout: Layout::Row,
    most_threads: 0,
    fails: 1,
    answer: Ok(()),
    faults: 0,
    held: 0,
};

const NO_COLUMNS: Case<'static> = Case {
    layout: Layout::Column,
    ..NO_ROWS
};

const NONE: &[Case<'static>] = &[
    NO_ROWS,
    NO_COLUMNS,
    Case {
        most_threads: 3,
        ..NO_COLUMNS
    },
];

#[test]
fn a_table_without_rows_has_no_pieces(rt: HostRuntime) -> Result<(), Fail> {
    expect_put(&rt, rt.alloc(), NONE)
}

// A depot with the pieces of a column of 70 rows, each a chunk, made by so many threads at most beside the caller's.
fn seventy_put<R: Abort + Threads + Sync>(
    rt: &R,
    alloc: Global,
    layout: Layout,
    most_threads: u32,
) -> Result<MemDepot, Fail> {
    let cut = cut_seventy(rt, alloc, Kind::Int, layout, 1)?;
    let mut depot = MemDepot::new(alloc);
    assert!(rt; put(rt, alloc, &cut, &mut depot, most_threads).is_ok());
    Ok(depot)
}

// Whether both depots hold these pieces, with the same bytes.
fn hold_alike(one: &MemDepot, other: &MemDepot, count: u32) -> bool {
    for piece in 0..count {
        let (Some(bytes), Some(others)) = (one.pieces.get(&piece), other.pieces.get(&piece)) else {
            return false;
        };
        if bytes.as_slice() != others.as_slice() {
            return false;
        }
    }
    one.pieces.len() == count as usize && other.pieces.len() == count as usize
}

const WAYS: &[(Layout, u32)] = &[
    (Layout::Row, 1),
    (Layout::Row, 3),
    (Layout::Row, 7),
    (Layout::Row, 100),
    (Layout::Column, 1),
    (Layout::Column, 3),
    (Layout::Column, 7),
    (Layout::Column, 100),
];

fn expect_alike<R: Abort + Threads + Sync>(
    rt: &R,
    alloc: Global,
    ways: &[(Layout, u32)],
) -> Result<(), Fail> {
    for (layout, most_threads) in ways {
        let alone = seventy_put(rt, alloc, *layout, 0)?;
        let beside = seventy_put(rt, alloc, *layout, *most_threads)?;
        assert!(rt;
            hold_alike(&alone, &beside, 70),
            "{layout:?} {most_threads}"
        );
    }
    Ok(())
}

#[test]
fn each_number_of_threads_makes_the_same_pieces(rt: HostRuntime) -> Result<(), Fail> {
    expect_alike(&rt, rt.alloc(), WAYS)
}

// What becomes of nine pieces in a depot that has room for so many, and how many faults it counts.
fn put_in_room<R: Abort + Threads + Sync>(
    rt: &R,
    alloc: Global,
    room: u32,
    most_threads: u32,
) -> Result<(Result<(), BatchRefusal>, u64), Fail> {
    let mut depot = FullDepot {
        room,
        gets: 0,
        faults: 0,
    };
    let put = put_cells(rt, alloc, &CELLS, Layout::Column, &mut depot, most_threads)?;
    Ok((put, depot.faults()))
}

#[test]
fn a_depot_without_room_is_out_of_memory(rt: HostRuntime) -> Result<(), Fail> {
    for (room, most_threads, wanted) in [
        (0, 0, Err(BatchRefusal::Memory)),
        (8, 0, Err(BatchRefusal::Memory)),
        (8, 3, Err(BatchRefusal::Memory)),
        (9, 0, Ok(())),
    ] {
        assert!(rt;
            put_in_room(&rt, rt.alloc(), room, most_threads)? == (wanted, 0),
            "{room} {most_threads}"
        );
    }
    Ok(())
}
