// Which chunks are taken by whom, and how many reads that takes.
use crate::batches::{ALONE, ALONE_BY_COLUMNS, COUNT, Trial};
use crate::told::{Told, expect_told, is_as_told};
use crate::wanted::Took;
use batch_run::Options;
use help_stories::tables::{SIX_ROWS, TABLE_A};
use piece_format::Layout;
use std::alloc::Global;
use std::process::Abort;
use std::random::RandomSource;
use std::sync::Wait;
use std::test::Fail;
use std::thread::Threads;

// Statements over table A, the chunks that are taken for them, and the gets in the row and in the column layout.
struct Needed<'a> {
    statements: &'a [&'a [u8]],
    taken: &'a [Took],
    by_rows: u64,
    by_columns: u64,
}

const NEEDED: &[Needed<'static>] = &[
    Needed {
        statements: &[COUNT],
        taken: &[(1, 0, 0, &[0, 1, 2])],
        by_rows: 3,
        by_columns: 3,
    },
    Needed {
        statements: &[b"SELECT SUM(pay) FROM t WHERE id >= 4"],
        taken: &[(1, 0, 0, &[1, 2])],
        by_rows: 2,
        by_columns: 4,
    },
    Needed {
        statements: &[b"SELECT COUNT(*), SUM(pay) FROM t WHERE id > 9"],
        taken: &[(1, 0, 0, &[])],
        by_rows: 0,
        by_columns: 0,
    },
    Needed {
        statements: &[b"SELECT id, dept, pay FROM t ORDER BY id LIMIT 1"],
        taken: &[(1, 0, 0, &[0, 1, 2])],
        by_rows: 3,
        by_columns: 9,
    },
];

// Whether the chunks are taken under these options, by so many gets.
fn is_needed<R: Abort + RandomSource + Threads + Wait + Sync>(
    rt: &R,
    alloc: Global,
    row: &Needed<'_>,
    options: Options,
    gets: u64,
) -> Result<bool, Fail> {
    let told = Told {
        trial: Trial {
            text: TABLE_A,
            statements: row.statements,
            options,
        },
        fail_gets: &[],
        answers: None,
        taken: Some(row.taken),
        gets,
    };
    is_as_told(rt, alloc, &told)
}

fn expect_needed<R: Abort + RandomSource + Threads + Wait + Sync>(
    rt: &R,
    alloc: Global,
    rows: &[Needed<'_>],
) -> Result<(), Fail> {
    for row in rows {
        let by_rows = is_needed(rt, alloc, row, ALONE, row.by_rows)?;
        let by_columns = is_needed(rt, alloc, row, ALONE_BY_COLUMNS, row.by_columns)?;
        assert!(rt; by_rows && by_columns, "{by_rows} {by_columns}");
    }
    Ok(())
}

#[test]
fn needed_chunks_alone_are_read_each_once(rt: HostRuntime) -> Result<(), Fail> {
    expect_needed(&rt, rt.alloc(), NEEDED)
}

const DEPTS: &[u8] = b"SELECT dept, SUM(pay), COUNT(pay) FROM t GROUP BY dept";

const SHARED: &[Told<'static>] = &[
    // two counts share the reads of six chunks
    Told {
        trial: Trial {
            text: SIX_ROWS,
            statements: &[COUNT, COUNT],
            options: Options {
                workers: 1,
                frames: 4,
                per: 1,
                layout: Layout::Row,
                parts: 1,
            },
        },
        fail_gets: &[],
        answers: None,
        taken: Some(&[
            (1, 0, 0, &[0, 1, 2, 3, 4, 5]),
            (2, 0, 0, &[2, 3, 4, 5, 0, 1]),
        ]),
        gets: 8,
    },
    // one query in two parts, on two workers and on one
    Told {
        trial: Trial {
            text: TABLE_A,
            statements: &[DEPTS],
            options: Options {
                workers: 2,
                frames: 7,
                per: 2,
                layout: Layout::Row,
                parts: 2,
            },
        },
        fail_gets: &[],
        answers: None,
        taken: Some(&[(1, 0, 0, &[0, 2]), (1, 1, 1, &[1])]),
        gets: 3,
    },
    Told {
        trial: Trial {
            text: TABLE_A,
            statements: &[DEPTS],
            options: Options {
                workers: 1,
                frames: 4,
                per: 2,
                layout: Layout::Row,
                parts: 2,
            },
        },
        fail_gets: &[],
        answers: None,
        taken: Some(&[(1, 0, 0, &[0, 2]), (1, 1, 0, &[1])]),
        gets: 3,
    },
];

#[test]
fn queries_and_their_parts_share_chunks(rt: HostRuntime) -> Result<(), Fail> {
    expect_told(&rt, rt.alloc(), SHARED)
}
