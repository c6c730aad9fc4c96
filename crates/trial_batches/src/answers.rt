// The worked answers, in both layouts, on one worker and more, in one part and more.
use crate::batches::{COUNT, SUM, Trial, ended_in_memory};
use crate::wanted::{Wanted, are_wanted};
use batch_run::Options;
use help_stories::tables::TABLE_A;
use piece_format::Layout;
use std::alloc::Global;
use std::hash::RandomState;
use std::process::Abort;
use std::random::RandomSource;
use std::sync::Wait;
use std::test::Fail;
use std::thread::Threads;
use table_core::Cell::{Code, Int, Null};

// A table, a statement and its answer.
type Case<'a> = (&'a str, &'a [u8], Wanted);

const ANSWERS: &[Case<'static>] = &[
    (TABLE_A, COUNT, Wanted::Rows(&[&[Int(5)]])),
    (TABLE_A, SUM, Wanted::Rows(&[&[Int(65)]])),
    (
        TABLE_A,
        b"SELECT dept, SUM(pay), COUNT(pay) FROM t GROUP BY dept",
        Wanted::Rows(&[
            &[Code(0), Int(10), Int(1)],
            &[Code(1), Int(15), Int(2)],
            &[Code(2), Int(40), Int(1)],
        ]),
    ),
    (
        TABLE_A,
        b"SELECT SUM(pay) FROM t WHERE id >= 4",
        Wanted::Rows(&[&[Int(35)]]),
    ),
    (
        TABLE_A,
        b"SELECT COUNT(*), SUM(pay) FROM t WHERE id > 9",
        Wanted::Rows(&[&[Int(0), Null]]),
    ),
    (
        TABLE_A,
        b"SELECT COUNT(*) FROM t WHERE NOT pay > 15",
        Wanted::Rows(&[&[Int(2)]]),
    ),
    (
        TABLE_A,
        b"SELECT id, pay FROM t ORDER BY pay DESC, id LIMIT 3",
        Wanted::Picked(&[&[Int(4), Int(40)], &[Int(2), Int(20)], &[Int(1), Int(10)]]),
    ),
    (
        "id,dept,pay\n",
        b"SELECT dept, SUM(pay), COUNT(pay) FROM t GROUP BY dept",
        Wanted::Rows(&[]),
    ),
    (
        "v\n9223372036854775807\n1\n",
        b"SELECT SUM(v) FROM t",
        Wanted::Overflow(1, 9223372036854775808),
    ),
    (
        "v\n9223372036854775807\n1\n-1\n",
        b"SELECT SUM(v) FROM t",
        Wanted::Rows(&[&[Int(9223372036854775807)]]),
    ),
    (
        "g,v\n,1\nx,2\n,3\n",
        b"SELECT g, SUM(v) FROM t GROUP BY g",
        Wanted::Rows(&[&[Null, Int(4)], &[Code(0), Int(2)]]),
    ),
];

// One worker, two and three, with one part, two and three, over pieces of chunks.
const BY_ROWS: &[Options] = &[
    Options {
        workers: 1,
        frames: 12,
        per: 2,
        layout: Layout::Row,
        parts: 1,
    },
    Options {
        workers: 2,
        frames: 21,
        per: 1,
        layout: Layout::Row,
        parts: 2,
    },
    Options {
        workers: 3,
        frames: 40,
        per: 9,
        layout: Layout::Row,
        parts: 3,
    },
];

// The same over pieces of columns.
const BY_COLUMNS: &[Options] = &[
    Options {
        workers: 1,
        frames: 12,
        per: 2,
        layout: Layout::Column,
        parts: 1,
    },
    Options {
        workers: 2,
        frames: 21,
        per: 1,
        layout: Layout::Column,
        parts: 2,
    },
    Options {
        workers: 3,
        frames: 40,
        per: 9,
        layout: Layout::Column,
        parts: 3,
    },
];

// Whether the statement has its answer under these options.
fn is_answered<R: Abort + RandomSource + Threads + Wait + Sync>(
    rt: &R,
    alloc: Global,
    case: &Case<'_>,
    options: Options,
) -> Result<bool, Fail> {
    let (text, statement, wanted) = *case;
    let trial = Trial {
        text,
        statements: &[statement],
        options,
    };
    let keys = RandomState::new(rt)?;
    let end = ended_in_memory(rt, alloc, keys, &trial, &[])?;
    Ok(are_wanted(&end.answers, &[wanted]))
}

fn expect_answers<R: Abort + RandomSource + Threads + Wait + Sync>(
    rt: &R,
    alloc: Global,
    options: Options,
    cases: &[Case<'_>],
) -> Result<(), Fail> {
    for place in 0..cases.len() {
        let is_right = is_answered(rt, alloc, &cases[place], options)?;
        assert!(rt; is_right, "case {place}");
    }
    Ok(())
}

// Each statement has its answer under each of these options.
fn expect_each_way<R: Abort + RandomSource + Threads + Wait + Sync>(
    rt: &R,
    alloc: Global,
    ways: &[Options],
    cases: &[Case<'_>],
) -> Result<(), Fail> {
    for options in ways {
        expect_answers(rt, alloc, *options, cases)?;
    }
    Ok(())
}

#[test]
fn the_worked_answers_with_a_piece_a_chunk(rt: HostRuntime) -> Result<(), Fail> {
    expect_each_way(&rt, rt.alloc(), BY_ROWS, ANSWERS)
}

#[test]
fn the_worked_answers_with_a_piece_a_column(rt: HostRuntime) -> Result<(), Fail> {
    expect_each_way(&rt, rt.alloc(), BY_COLUMNS, ANSWERS)
}
