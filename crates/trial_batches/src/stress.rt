// Eight workers, sixteen queries and few frames, while reads fail: each story is judged, and each answer counted over
// the table.
use crate::batches::{Trial, ended_in_memory, next};
use crate::judged::is_sound;
use batch_run::{Answer, BatchEnd, Cause, Options};
use coop_outside::MemDepot;
use piece_format::Layout;
use scan_story::{Need, PolicyName, Setting};
use std::alloc::Global;
use std::collections::LinkedList;
use std::hash::RandomState;
use std::process::Abort;
use std::random::RandomSource;
use std::sync::Wait;
use std::test::Fail;
use std::thread::Threads;
use table_core::Cell;

// How many rows the table has, one in a chunk: more chunks than the frames can hold.
const ROWS: u32 = 28;

pub(crate) const TABLE: &str =
    "n,k\n1,0\n2,1\n3,2\n4,0\n5,1\n6,2\n7,0\n8,1\n9,2\n10,0\n11,1\n12,2\n13,0\n14,1\n15,2\n16,0\n17,1\n18,2\n19,0\n\
20,1\n21,2\n22,0\n23,1\n24,2\n25,0\n26,1\n27,2\n28,0\n";

// A statement, and the first and the last row that it counts, from 1.
type Query<'a> = (&'a [u8], u32, u32);

const QUERIES: &[Query<'static>] = &[
    (
        b"SELECT COUNT(*) FROM t WHERE n >= 1 AND n <= 2 AND k >= 0",
        1,
        2,
    ),
    (
        b"SELECT COUNT(*) FROM t WHERE n >= 3 AND n <= 4 AND k >= 0",
        3,
        4,
    ),
    (
        b"SELECT COUNT(*) FROM t WHERE n >= 5 AND n <= 6 AND k >= 0",
        5,
        6,
    ),
    (
        b"SELECT COUNT(*) FROM t WHERE n >= 7 AND n <= 8 AND k >= 0",
        7,
        8,
    ),
    (
        b"SELECT COUNT(*) FROM t WHERE n >= 9 AND n <= 10 AND k >= 0",
        9,
        10,
    ),
    (
        b"SELECT COUNT(*) FROM t WHERE n >= 11 AND n <= 12 AND k >= 0",
        11,
        12,
    ),
    (
        b"SELECT COUNT(*) FROM t WHERE n >= 13 AND n <= 14 AND k >= 0",
        13,
        14,
    ),
    (
        b"SELECT COUNT(*) FROM t WHERE n >= 15 AND n <= 16 AND k >= 0",
        15,
        16,
    ),
    (
        b"SELECT COUNT(*) FROM t WHERE n >= 17 AND n <= 18 AND k >= 0",
        17,
        18,
    ),
    (
        b"SELECT COUNT(*) FROM t WHERE n >= 19 AND n <= 20 AND k >= 0",
        19,
        20,
    ),
    (
        b"SELECT COUNT(*) FROM t WHERE n >= 21 AND n <= 22 AND k >= 0",
        21,
        22,
    ),
    (
        b"SELECT COUNT(*) FROM t WHERE n >= 23 AND n <= 24 AND k >= 0",
        23,
        24,
    ),
    (
        b"SELECT COUNT(*) FROM t WHERE n >= 25 AND n <= 26 AND k >= 0",
        25,
        26,
    ),
    (
        b"SELECT COUNT(*) FROM t WHERE n >= 27 AND n <= 28 AND k >= 0",
        27,
        28,
    ),
    (
        b"SELECT COUNT(*) FROM t WHERE n >= 1 AND n <= 4 AND k >= 0",
        1,
        4,
    ),
    (
        b"SELECT COUNT(*) FROM t WHERE n >= 13 AND n <= 16 AND k >= 0",
        13,
        16,
    ),
];

// The numbers from one to another.
fn numbers(alloc: Global, from: u32, to: u32) -> Result<LinkedList<u32>, Fail> {
    let mut numbers = LinkedList::new(alloc);
    for n in from..to {
        numbers.push_back(n)?;
    }
    Ok(numbers)
}

// The needs of the queries, in their order; the workers take turns.
fn needs_of(alloc: Global, queries: &[Query<'_>], workers: u32) -> Result<LinkedList<Need>, Fail> {
    let mut needs = LinkedList::new(alloc);
    let mut before: u32 = 0;
    for (_, first, last) in queries {
        let query = before.saturating_add(1);
        needs.push_back(Need {
            query,
            worker: before % workers.max(1),
            chunks: numbers(alloc, first.saturating_sub(1), *last)?,
            columns: numbers(alloc, 0, 2)?,
        })?;
        before = query;
    }
    Ok(needs)
}

// The setting of the batch.
fn setting_of(alloc: Global, queries: &[Query<'_>], options: &Options) -> Result<Setting, Fail> {
    Ok(Setting {
        needs: needs_of(alloc, queries, options.workers)?,
        chunks: ROWS,
        workers: options.workers,
        frames: options.frames,
        groups: match options.layout {
            Layout::Row => 1,
            Layout::Column => 2,
        },
        policy: PolicyName::Relevance,
        cursor: LinkedList::new(alloc),
    })
}

// Whether the answer counts so many rows, or says that a read failed.
fn is_right(answer: &Answer, count: u32) -> bool {
    match answer {
        Answer::Rows(rows) => match rows.as_slice() {
            [row] => row.as_slice() == [Cell::Int(i64::from(count))].as_slice(),
            _ => false,
        },
        Answer::Stopped(Cause::Read { before, after }) => before < after,
        _ => false,
    }
}

// Whether the answers are those over the table, of which at most so many are lost.
fn are_right(answers: &[Answer], queries: &[Query<'_>], stopped: u64) -> bool {
    let mut lost: u64 = 0;
    for (answer, (_, first, last)) in answers.iter().zip(queries) {
        if !is_right(answer, last.saturating_sub(*first).saturating_add(1)) {
            return false;
        }
        if answer.is_stopped() {
            lost = lost.saturating_add(1);
        }
    }
    answers.len() == queries.len() && lost <= stopped
}

// So many numbers of gets that fail.
fn failing_gets(alloc: Global, failing: u64) -> Result<Vec<u64>, Fail> {
    let mut gets = Vec::new(alloc);
    let mut seed = failing;
    for _ in 0..failing {
        seed = next(seed);
        gets.push((seed >> 33) % 24 + 1)?;
    }
    Ok(gets)
}

fn statements_of<'a>(alloc: Global, queries: &[Query<'a>]) -> Result<Vec<&'a [u8]>, Fail> {
    let mut statements = Vec::new(alloc);
    for (statement, _, _) in queries {
        statements.push(*statement)?;
    }
    Ok(statements)
}

// Runs the batch, in which so many gets may fail.
fn end_of<R: Abort + RandomSource + Threads + Wait + Sync>(
    rt: &R,
    alloc: Global,
    queries: &[Query<'_>],
    options: Options,
    failing: u64,
) -> Result<BatchEnd<MemDepot>, Fail> {
    let statements = statements_of(alloc, queries)?;
    let trial = Trial {
        text: TABLE,
        statements: &statements,
        options,
    };
    let gets = failing_gets(alloc, failing)?;
    let keys = RandomState::new(rt)?;
    ended_in_memory(rt, alloc, keys, &trial, &gets)
}

// Whether the story is legal and whole, and the answers are those over the table, of which at most so many are lost.
fn is_right_end(
    rt: &impl Abort,
    alloc: Global,
    queries: &[Query<'_>],
    options: &Options,
    end: &BatchEnd<MemDepot>,
    failing: u64,
) -> Result<bool, Fail> {
    let s = setting_of(alloc, queries, options)?;
    let is_sound = is_sound(rt, alloc, &s, &end.ran.story, end.depot.faults)?;
    Ok(is_sound && are_right(&end.answers, queries, failing))
}

fn expect_round<R: Abort + RandomSource + Threads + Wait + Sync>(
    rt: &R,
    alloc: Global,
    queries: &[Query<'_>],
    options: Options,
    failing: u64,
) -> Result<(), Fail> {
    let end = end_of(rt, alloc, queries, options, failing)?;
    let is_right = is_right_end(rt, alloc, queries, &options, &end, failing)?;
    assert!(rt; is_right, "{failing} fail");
    Ok(())
}

// Rounds in which none, one, two and more gets fail.
fn expect_rounds<R: Abort + RandomSource + Threads + Wait + Sync>(
    rt: &R,
    alloc: Global,
    queries: &[Query<'_>],
    options: Options,
) -> Result<(), Fail> {
    for failing in 0..4 {
        expect_round(rt, alloc, queries, options, failing)?;
    }
    Ok(())
}

const BY_ROWS: Options = Options {
    workers: 8,
    frames: 25,
    per: 1,
    layout: Layout::Row,
    parts: 1,
};

#[test]
fn eight_workers_over_25_frames_while_reads_fail(rt: HostRuntime) -> Result<(), Fail> {
    expect_rounds(&rt, rt.alloc(), QUERIES, BY_ROWS)
}

const BY_COLUMNS: Options = Options {
    workers: 8,
    frames: 50,
    per: 1,
    layout: Layout::Column,
    parts: 1,
};

#[test]
fn eight_workers_over_pieces_of_columns_while_reads_fail(rt: HostRuntime) -> Result<(), Fail> {
    expect_round(&rt, rt.alloc(), QUERIES, BY_COLUMNS, 2)
}
