// One scan, with one berth and one pass.
use crate::notes::Saw;
use crate::outcome::Outcome;
use crate::single::alone;
use crate::tables::{COLUMNS, NO_PIECE, ROWS, SIX, column_shape, depot, row_shape, six_shape};
use crate::tests::expected::{Expected, expect, took};
use help_stories::stories::{FIRST_OF_SIX, ONE_COUNT};
use help_stories::{need, setting};
use piece_format::Shape;
use relevance::Relevance;
use scan_story::{Cause, Memory, PolicyName};
use std::alloc::{AllocError, Global};
use std::process::Abort;
use std::sync::Wait;
use std::test::Fail;
use table_core::Cell::{self, Code, Int, Null};
use table_core::MOST_COLUMNS;

const DONE: Saw = Saw::Done { worker: 0 };

const BY_FAULT: Saw = Saw::Stopped {
    worker: 0,
    cause: Cause::Read {
        before: 0,
        after: 1,
    },
};

const GAVE_UP: Saw = Saw::GaveUp {
    worker: 0,
    cause: Cause::Memory,
};

// What the scan of a query takes, and what becomes of it.
struct Case {
    name: &'static str,
    // The chunks and columns of the need.
    chunks: &'static [u32],
    columns: &'static [u32],
    // The gets that fail, and the word that is given wrong.
    fail_gets: &'static [u64],
    spoilt: (u32, u32),
    steps: u32,
    // The parts of its story.
    story: &'static [&'static str],
    // The chunks that it takes, each with its rows and then released, and its last answer.
    taken: &'static [(u32, u32)],
    last: Saw,
    cells: &'static [Cell],
    gets: u64,
    faults: u64,
}

// The pieces of a table, its shape, and how many groups of columns it has.
#[derive(Clone, Copy)]
struct Over<'a> {
    pieces: &'a [&'a [u64]],
    shape: &'a Shape,
    chunks: u32,
    groups: u32,
}

// What becomes of the case's scan, with the least frames that are enough for so many groups.
fn outcome_of<R: Abort + Wait>(
    rt: &R,
    alloc: Global,
    over: &Over<'_>,
    case: &Case,
) -> Result<Option<Outcome>, Fail> {
    let first = need(alloc, 1, 0, case.chunks, case.columns)?;
    let groups = over.groups;
    assert!(rt; 0 < groups && groups <= MOST_COLUMNS);
    let numbers = [over.chunks, 1, 4 * groups];
    let s = setting(alloc, PolicyName::Relevance, numbers, groups, first, None)?;
    let depot = depot(rt, alloc, over.pieces, case.fail_gets, case.spoilt)?;
    match alone(rt, alloc, &s, over.shape, Relevance, depot, case.steps) {
        Ok(out) => Ok(out),
        Err(Memory) => Err(Fail::new("no memory")),
    }
}

// What the case's scan answers: it takes each of its chunks and releases it, and answers its last.
fn answers_of(alloc: Global, case: &Case) -> Result<Vec<Saw>, AllocError> {
    let mut saw = Vec::new(alloc);
    for (chunk, rows) in case.taken {
        saw.push(took(0, *chunk, *rows))?;
        saw.push(Saw::Released { worker: 0 })?;
    }
    saw.push(case.last)?;
    Ok(saw)
}

fn expect_case<R: Abort + Wait>(
    rt: &R,
    alloc: Global,
    over: &Over<'_>,
    case: &Case,
) -> Result<(), Fail> {
    let saw = answers_of(alloc, case)?;
    let expected = Expected {
        name: case.name,
        story: case.story,
        saw: &saw,
        cells: case.cells,
        gets: case.gets,
        faults: case.faults,
    };
    let out = outcome_of(rt, alloc, over, case)?;
    expect(rt, alloc, &out, &expected)
}

fn expect_cases<R: Abort + Wait>(
    rt: &R,
    alloc: Global,
    over: &Over<'_>,
    cases: &[Case],
) -> Result<(), Fail> {
    for case in cases {
        expect_case(rt, alloc, over, case)?;
    }
    Ok(())
}

const TO_CHUNK_1: &str = "register 0 1
plan 0 1 0
fill 0 0 0
filled 0 0 0
deliver 0 1 0
release 0 1 0
";

const CHUNK_1_FAILS: &str = "plan 0 1 1
fill 0 1 1
failed 0 1 1 ";

const FIRST_TWO: [Cell; 6] = [Int(1), Code(0), Int(10), Int(2), Code(1), Int(20)];

const OF_ROWS: &[Case] = &[
    Case {
        name: "each chunk is taken once and then it ends",
        chunks: &[0, 1, 2],
        columns: &[0, 1, 2],
        fail_gets: &[],
        spoilt: (NO_PIECE, 0),
        steps: 9,
        story: &[ONE_COUNT],
        taken: &[(0, 2), (1, 2), (2, 1)],
        last: DONE,
        cells: &[
            Int(1),
            Code(0),
            Int(10),
            Int(2),
            Code(1),
            Int(20),
            Int(3),
            Code(0),
            Null,
            Int(4),
            Code(2),
            Int(40),
            Int(5),
            Code(1),
            Int(-5),
        ],
        gets: 3,
        faults: 0,
    },
    Case {
        name: "other columns and other chunks are not read",
        chunks: &[1],
        columns: &[0, 2],
        fail_gets: &[],
        spoilt: (NO_PIECE, 0),
        steps: 3,
        story: &[
            "register 0 1\nplan 0 1 1\nfill 0 0 1\nfilled 0 0 1\ndeliver 0 1 1\nrelease 0 1 1\nend 0 1\n",
        ],
        taken: &[(1, 2)],
        last: DONE,
        cells: &[Int(3), Null, Null, Int(4), Null, Int(40)],
        gets: 1,
        faults: 0,
    },
    Case {
        name: "a query that needs no chunk is done",
        chunks: &[],
        columns: &[1],
        fail_gets: &[],
        spoilt: (NO_PIECE, 0),
        steps: 1,
        story: &["register 0 1\nend 0 1\n"],
        taken: &[],
        last: DONE,
        cells: &[],
        gets: 0,
        faults: 0,
    },
    Case {
        name: "a get that fails stops it",
        chunks: &[0, 1, 2],
        columns: &[0, 1, 2],
        fail_gets: &[2],
        spoilt: (NO_PIECE, 0),
        steps: 9,
        story: &[TO_CHUNK_1, CHUNK_1_FAILS, "fault 0 1\n"],
        taken: &[(0, 2)],
        last: BY_FAULT,
        cells: &FIRST_TWO,
        gets: 2,
        faults: 1,
    },
    Case {
        name: "a damaged piece stops it",
        chunks: &[0, 1, 2],
        columns: &[0, 1, 2],
        fail_gets: &[],
        spoilt: (1, 4),
        steps: 9,
        story: &[TO_CHUNK_1, CHUNK_1_FAILS, "damage 4\n"],
        taken: &[(0, 2)],
        last: Saw::Stopped {
            worker: 0,
            cause: Cause::Damage { piece: 1, word: 4 },
        },
        cells: &FIRST_TWO,
        gets: 2,
        faults: 0,
    },
    Case {
        name: "it is stopped with a chunk out",
        chunks: &[0, 1, 2],
        columns: &[0, 1, 2],
        fail_gets: &[],
        spoilt: (NO_PIECE, 0),
        steps: 1,
        story: &[TO_CHUNK_1, "stop 0 1\n"],
        taken: &[(0, 2)],
        last: GAVE_UP,
        cells: &[],
        gets: 1,
        faults: 0,
    },
    Case {
        name: "it is stopped between two chunks",
        chunks: &[0, 1, 2],
        columns: &[0, 1, 2],
        fail_gets: &[],
        spoilt: (NO_PIECE, 0),
        steps: 2,
        story: &[TO_CHUNK_1, "stop 0 1\n"],
        taken: &[(0, 2)],
        last: GAVE_UP,
        cells: &FIRST_TWO,
        gets: 1,
        faults: 0,
    },
];

const OF_SIX: &[Case] = &[Case {
    name: "frames are filled again",
    chunks: &[0, 1, 2, 3, 4, 5],
    columns: &[0],
    fail_gets: &[],
    spoilt: (NO_PIECE, 0),
    steps: 13,
    story: &[FIRST_OF_SIX],
    taken: &[(0, 1), (1, 1), (2, 1), (3, 1), (4, 1), (5, 1)],
    last: DONE,
    cells: &[Int(70), Int(71), Int(72), Int(73), Int(74), Int(75)],
    gets: 6,
    faults: 0,
}];

const OF_COLUMNS: &[Case] = &[
    Case {
        name: "a scan reads one column",
        chunks: &[0, 1, 2],
        columns: &[1],
        fail_gets: &[],
        spoilt: (NO_PIECE, 0),
        steps: 7,
        story: &[
            "register 0 1
plan 0 1 0
fill 0 0 1
filled 0 0 1
deliver 0 1 0
release 0 1 0
plan 0 1 1
fill 0 1 3
filled 0 1 3
deliver 0 1 1
release 0 1 1
plan 0 1 2
fill 0 2 5
filled 0 2 5
deliver 0 1 2
release 0 1 2
end 0 1
",
        ],
        taken: &[(0, 2), (1, 2), (2, 1)],
        last: DONE,
        cells: &[
            Null,
            Int(10),
            Null,
            Int(20),
            Null,
            Null,
            Null,
            Int(40),
            Null,
            Int(-5),
        ],
        gets: 3,
        faults: 0,
    },
    Case {
        name: "the second piece of a chunk fails",
        chunks: &[2],
        columns: &[0, 1],
        fail_gets: &[2],
        spoilt: (NO_PIECE, 0),
        steps: 7,
        story: &[
            "register 0 1
plan 0 1 2
fill 0 0 4
fill 0 1 5
filled 0 0 4
failed 0 1 5 fault 0 1
",
        ],
        taken: &[],
        last: BY_FAULT,
        cells: &[],
        gets: 2,
        faults: 1,
    },
];

#[test]
fn one_scan_takes_its_chunks_until_it_ends_or_is_stopped(rt: HostRuntime) -> Result<(), Fail> {
    let over = Over {
        pieces: &ROWS,
        shape: &row_shape(rt.alloc())?,
        chunks: 3,
        groups: 1,
    };
    expect_cases(&rt, rt.alloc(), &over, OF_ROWS)
}

#[test]
fn one_scan_fills_frames_again(rt: HostRuntime) -> Result<(), Fail> {
    let over = Over {
        pieces: &SIX,
        shape: &six_shape(rt.alloc())?,
        chunks: 6,
        groups: 1,
    };
    expect_cases(&rt, rt.alloc(), &over, OF_SIX)
}

#[test]
fn one_scan_takes_the_pieces_of_its_columns(rt: HostRuntime) -> Result<(), Fail> {
    let over = Over {
        pieces: &COLUMNS,
        shape: &column_shape(rt.alloc())?,
        chunks: 3,
        groups: 2,
    };
    expect_cases(&rt, rt.alloc(), &over, OF_COLUMNS)
}
