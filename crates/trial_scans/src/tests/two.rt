// Two scans by turns, on one thread. No load is underway when a call of a scan returns, so no turn of another one
// waits.
use crate::notes::Saw;
use crate::outcome::Outcome;
use crate::pair::by_turns;
use crate::tables::{COLUMNS, NO_PIECE, ROWS, column_shape, depot, row_shape};
use crate::tests::expected::{Expected, expect, took};
use crate::tests::two::Did::{Done, GaveUp, Released, Stopped, Took};
use help_stories::stories::COLUMNS as BEGUN;
use help_stories::{need, setting};
use piece_format::Shape;
use relevance::Relevance;
use scan_story::{Cause, Memory, PolicyName, Setting};
use std::alloc::{AllocError, Global};
use std::process::Abort;
use std::sync::Wait;
use std::test::Fail;
use table_core::Cell::{self, Code, Int, Null};
use table_core::MOST_COLUMNS;

// What a worker's scan is seen to do: a chunk that it took with its rows, and so on.
#[derive(Clone, Copy)]
enum Did {
    Took(u32, u32),
    Released,
    Done,
    Stopped(Cause),
    GaveUp(Cause),
}

fn saw(worker: u32, did: Did) -> Saw {
    match did {
        Took(chunk, rows) => took(worker, chunk, rows),
        Released => Saw::Released { worker },
        Done => Saw::Done { worker },
        Stopped(cause) => Saw::Stopped { worker, cause },
        GaveUp(cause) => Saw::GaveUp { worker, cause },
    }
}

// What two queries need and read, whose turns it is, and what becomes of them.
struct Case {
    name: &'static str,
    // The chunks and the columns of each need.
    first: (&'static [u32], &'static [u32]),
    second: (&'static [u32], &'static [u32]),
    fail_gets: &'static [u64],
    turns: &'static [u32],
    story: &'static [&'static str],
    saw: &'static [(u32, Did)],
    cells: &'static [Cell],
    gets: u64,
    faults: u64,
}

// The pieces of three chunks, their shape, and how many groups of columns it has.
#[derive(Clone, Copy)]
struct Over<'a> {
    pieces: &'a [&'a [u64]],
    shape: &'a Shape,
    groups: u32,
}

// The setting of the case's queries, with the least frames that are enough for so many groups.
fn setting_of(
    rt: &impl Abort,
    alloc: Global,
    groups: u32,
    case: &Case,
) -> Result<Setting, AllocError> {
    let first = need(alloc, 1, 0, case.first.0, case.first.1)?;
    let second = Some(need(alloc, 2, 1, case.second.0, case.second.1)?);
    assert!(rt; 0 < groups && groups <= MOST_COLUMNS);
    let numbers = [3, 2, 7 * groups];
    setting(alloc, PolicyName::Relevance, numbers, groups, first, second)
}

// What becomes of the case's scans.
fn outcome_of<R: Abort + Wait>(
    rt: &R,
    alloc: Global,
    over: &Over<'_>,
    case: &Case,
) -> Result<Option<Outcome>, Fail> {
    let s = setting_of(rt, alloc, over.groups, case)?;
    let depot = depot(rt, alloc, over.pieces, case.fail_gets, (NO_PIECE, 0))?;
    match by_turns(rt, alloc, &s, over.shape, Relevance, depot, case.turns) {
        Ok(out) => Ok(out),
        Err(Memory) => Err(Fail::new("no memory")),
    }
}

// What the case's scans answer.
fn answers_of(alloc: Global, case: &Case) -> Result<Vec<Saw>, AllocError> {
    let mut seen = Vec::new(alloc);
    for (worker, did) in case.saw {
        seen.push(saw(*worker, *did))?;
    }
    Ok(seen)
}

fn expect_cases<R: Abort + Wait>(
    rt: &R,
    alloc: Global,
    over: &Over<'_>,
    cases: &[Case],
) -> Result<(), Fail> {
    for case in cases {
        let saw = answers_of(alloc, case)?;
        let expected = Expected {
            name: case.name,
            story: case.story,
            saw: &saw,
            cells: case.cells,
            gets: case.gets,
            faults: case.faults,
        };
        let out = outcome_of(rt, alloc, over, case)?;
        expect(rt, alloc, &out, &expected)?;
    }
    Ok(())
}

// Worker 1 loads for query 1 while worker 0 holds a chunk for it. The load fails, and worker 1 loads for its own query.
const TRIGGER: &str = "register 0 1
register 1 2
plan 0 1 0
fill 0 0 0
filled 0 0 0
deliver 0 1 0
deliver 1 2 0
release 1 2 0
plan 1 1 1
fill 1 1 1
failed 1 1 1 fault 0 1
plan 1 2 1
fill 1 1 1
filled 1 1 1
deliver 1 2 1
release 0 1 0
";

const BY_FAULT: Cause = Cause::Read {
    before: 0,
    after: 1,
};

const OF_ROWS: &[Case] = &[
    Case {
        name: "both hold one chunk in one frame",
        first: (&[0, 1, 2], &[0, 1]),
        second: (&[2], &[2]),
        fail_gets: &[],
        turns: &[0, 1, 0, 1, 1, 0, 0, 0, 0, 0],
        story: &[
            "register 0 1
register 1 2
plan 0 2 2
fill 0 0 2
filled 0 0 2
deliver 0 1 2
deliver 1 2 2
release 0 1 2
release 1 2 2
end 1 2
plan 0 1 0
fill 0 1 0
filled 0 1 0
deliver 0 1 0
release 0 1 0
plan 0 1 1
fill 0 2 1
filled 0 2 1
deliver 0 1 1
release 0 1 1
end 0 1
",
        ],
        saw: &[
            (0, Took(2, 1)),
            (1, Took(2, 1)),
            (0, Released),
            (1, Released),
            (1, Done),
            (0, Took(0, 2)),
            (0, Released),
            (0, Took(1, 2)),
            (0, Released),
            (0, Done),
        ],
        cells: &[
            Int(5),
            Code(1),
            Null,
            Null,
            Null,
            Int(-5),
            Int(1),
            Code(0),
            Null,
            Int(2),
            Code(1),
            Null,
            Int(3),
            Code(0),
            Null,
            Int(4),
            Code(2),
            Null,
        ],
        gets: 3,
        faults: 0,
    },
    Case {
        name: "a scan finds itself stopped by the load of another",
        first: (&[0, 1], &[0]),
        second: (&[0, 1, 2], &[2]),
        fail_gets: &[2],
        turns: &[0, 1, 1, 1, 0, 0, 1, 1, 1, 1],
        story: &[
            TRIGGER,
            "release 1 2 1\nplan 1 2 2\nfill 1 2 2\nfilled 1 2 2\ndeliver 1 2 2\nrelease 1 2 2\nend 1 2\n",
        ],
        saw: &[
            (0, Took(0, 2)),
            (1, Took(0, 2)),
            (1, Released),
            (1, Took(1, 2)),
            (0, Released),
            (0, Stopped(BY_FAULT)),
            (1, Released),
            (1, Took(2, 1)),
            (1, Released),
            (1, Done),
        ],
        cells: &[
            Null,
            Null,
            Int(10),
            Null,
            Null,
            Int(20),
            Int(1),
            Null,
            Null,
            Int(2),
            Null,
            Null,
            Null,
            Null,
            Null,
            Null,
            Null,
            Int(40),
            Null,
            Null,
            Int(-5),
        ],
        gets: 4,
        faults: 1,
    },
    Case {
        name: "stop answers the earlier cause",
        first: (&[0, 1], &[0]),
        second: (&[0, 1, 2], &[2]),
        fail_gets: &[2],
        turns: &[0, 1, 1, 1],
        story: &[TRIGGER, "release 1 2 1\nstop 1 2\n"],
        saw: &[
            (0, Took(0, 2)),
            (1, Took(0, 2)),
            (1, Released),
            (1, Took(1, 2)),
            (0, Released),
            (1, Released),
            (0, GaveUp(BY_FAULT)),
            (1, GaveUp(Cause::Memory)),
        ],
        cells: &[Null, Null, Int(10), Null, Null, Int(20)],
        gets: 3,
        faults: 1,
    },
];

const OF_COLUMNS: &[Case] = &[Case {
    name: "a load takes only the pieces that no frame has",
    first: (&[0, 1], &[0]),
    second: (&[1, 2], &[0, 1]),
    fail_gets: &[],
    turns: &[0, 1, 0, 1, 0, 0, 0, 1, 1, 1],
    story: &[
        BEGUN,
        "deliver 1 2 1
release 0 1 1
release 1 2 1
plan 0 1 0
fill 0 2 0
filled 0 2 0
deliver 0 1 0
release 0 1 0
end 0 1
plan 1 2 2
fill 1 3 4
fill 1 4 5
filled 1 3 4
filled 1 4 5
deliver 1 2 2
release 1 2 2
end 1 2
",
    ],
    saw: &[
        (0, Took(1, 2)),
        (1, Took(1, 2)),
        (0, Released),
        (1, Released),
        (0, Took(0, 2)),
        (0, Released),
        (0, Done),
        (1, Took(2, 1)),
        (1, Released),
        (1, Done),
    ],
    cells: &[
        Int(3),
        Null,
        Int(4),
        Null,
        Int(3),
        Null,
        Int(4),
        Int(40),
        Int(1),
        Null,
        Int(2),
        Null,
        Int(5),
        Int(-5),
    ],
    gets: 5,
    faults: 0,
}];

#[test]
fn two_scans_by_turns(rt: HostRuntime) -> Result<(), Fail> {
    let over = Over {
        pieces: &ROWS,
        shape: &row_shape(rt.alloc())?,
        groups: 1,
    };
    expect_cases(&rt, rt.alloc(), &over, OF_ROWS)
}

#[test]
fn two_scans_by_turns_over_columns(rt: HostRuntime) -> Result<(), Fail> {
    let over = Over {
        pieces: &COLUMNS,
        shape: &column_shape(rt.alloc())?,
        groups: 2,
    };
    expect_cases(&rt, rt.alloc(), &over, OF_COLUMNS)
}
