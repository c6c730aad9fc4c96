// Depots that fail, and one that spoils a word.
use crate::batches::{ALONE, COUNT, SUM, Trial, ended, run};
use crate::told::{Told, expect_told};
use crate::wanted::{Wanted, are_wanted};
use batch_run::{BatchRefusal, Cause, Options};
use coop_outside::{MemDepot, SpoiltDepot};
use cscan::NoGate;
use help_stories::tables::TABLE_A;
use piece_format::Layout;
use std::alloc::Global;
use std::hash::RandomState;
use std::process::Abort;
use std::random::RandomSource;
use std::sync::Wait;
use std::test::Fail;
use std::thread::Threads;
use table_core::Cell::Int;

const FIVE: Wanted = Wanted::Rows(&[&[Int(5)]]);

const FIRST: Wanted = Wanted::Stopped(Cause::Read {
    before: 0,
    after: 1,
});

const SECOND: Wanted = Wanted::Stopped(Cause::Read {
    before: 1,
    after: 2,
});

const TWO_COUNTS: Trial<'static> = Trial {
    text: TABLE_A,
    statements: &[COUNT, COUNT],
    options: ALONE,
};

const FAILING: &[Told<'static>] = &[
    Told {
        trial: TWO_COUNTS,
        fail_gets: &[1],
        answers: Some(&[FIRST, FIVE]),
        taken: None,
        gets: 4,
    },
    Told {
        trial: TWO_COUNTS,
        fail_gets: &[2],
        answers: Some(&[FIRST, FIVE]),
        taken: None,
        gets: 4,
    },
    Told {
        trial: TWO_COUNTS,
        fail_gets: &[3],
        answers: Some(&[FIRST, FIVE]),
        taken: None,
        gets: 4,
    },
    Told {
        trial: TWO_COUNTS,
        fail_gets: &[4],
        answers: Some(&[FIVE, FIVE]),
        taken: None,
        gets: 3,
    },
    Told {
        trial: TWO_COUNTS,
        fail_gets: &[1, 2],
        answers: Some(&[FIRST, SECOND]),
        taken: None,
        gets: 2,
    },
];

#[test]
fn a_failing_get_stops_its_query_alone(rt: HostRuntime) -> Result<(), Fail> {
    expect_told(&rt, rt.alloc(), FAILING)
}

const FAILING_PART: &[Told<'static>] = &[Told {
    trial: Trial {
        text: TABLE_A,
        statements: &[COUNT],
        options: Options {
            workers: 1,
            frames: 4,
            per: 2,
            layout: Layout::Row,
            parts: 2,
        },
    },
    fail_gets: &[2],
    answers: Some(&[FIRST]),
    taken: Some(&[(1, 0, 0, &[0]), (1, 1, 0, &[1])]),
    gets: 3,
}];

#[test]
fn a_part_that_meets_a_fault_stops_its_query(rt: HostRuntime) -> Result<(), Fail> {
    expect_told(&rt, rt.alloc(), FAILING_PART)
}

// A word of a piece that the depot gives wrong, and what statements over table A are answered then.
struct Spoilt<'a> {
    piece: u32,
    word: u32,
    value: u64,
    statements: &'a [&'a [u8]],
    wanted: &'a [Wanted],
}

// Whether the answers are those that the word leads to.
fn is_spoilt_so<R: Abort + RandomSource + Threads + Wait + Sync>(
    rt: &R,
    alloc: Global,
    row: &Spoilt<'_>,
) -> Result<bool, Fail> {
    let trial = Trial {
        text: TABLE_A,
        statements: row.statements,
        options: ALONE,
    };
    let depot = SpoiltDepot {
        inner: MemDepot::new(alloc),
        piece: row.piece,
        word: row.word,
        value: row.value,
    };
    let keys = RandomState::new(rt)?;
    let end = ended(rt, alloc, keys, &trial, depot)?;
    Ok(are_wanted(&end.answers, row.wanted))
}

const ANOTHER_NUMBER: Spoilt<'static> = Spoilt {
    piece: 0,
    word: 3,
    value: 50,
    statements: &[SUM],
    wanted: &[Wanted::Rows(&[&[Int(105)]])],
};

#[test]
fn answers_come_from_the_depot(rt: HostRuntime) -> Result<(), Fail> {
    assert!(rt; is_spoilt_so(&rt, rt.alloc(), &ANOTHER_NUMBER)?);
    Ok(())
}

const DAMAGE: Spoilt<'static> = Spoilt {
    piece: 1,
    word: 2,
    value: 99,
    statements: &[COUNT, b"SELECT COUNT(*) FROM t WHERE id <= 2"],
    wanted: &[
        Wanted::Stopped(Cause::Damage { piece: 1, word: 2 }),
        Wanted::Rows(&[&[Int(2)]]),
    ],
};

#[test]
fn a_damaged_piece_stops_its_query_alone(rt: HostRuntime) -> Result<(), Fail> {
    assert!(rt; is_spoilt_so(&rt, rt.alloc(), &DAMAGE)?);
    Ok(())
}

// Why a count over table A is refused whose put of this number fails, if it is.
fn refusal_of<R: Abort + RandomSource + Threads + Wait + Sync>(
    rt: &R,
    alloc: Global,
    fail_put: u64,
) -> Result<Option<BatchRefusal>, Fail> {
    let keys = RandomState::new(rt)?;
    let mut depot = MemDepot::new(alloc);
    depot.fail_puts.push(fail_put)?;
    let text = TABLE_A.as_bytes();
    Ok(run(rt, alloc, keys, text, &[COUNT], ALONE, depot, &NoGate)?.err())
}

// The put that fails, and the piece that isn't stored then.
const FAILING_PUTS: &[(u64, u32)] = &[(1, 0), (2, 1), (3, 2)];

fn expect_refusals<R: Abort + RandomSource + Threads + Wait + Sync>(
    rt: &R,
    alloc: Global,
    rows: &[(u64, u32)],
) -> Result<(), Fail> {
    for (fail_put, piece) in rows {
        let refusal = refusal_of(rt, alloc, *fail_put)?;
        assert!(rt;
            refusal == Some(BatchRefusal::Put { piece: *piece }),
            "{fail_put}"
        );
    }
    Ok(())
}

#[test]
fn a_failing_put_refuses_the_batch(rt: HostRuntime) -> Result<(), Fail> {
    expect_refusals(&rt, rt.alloc(), FAILING_PUTS)
}
