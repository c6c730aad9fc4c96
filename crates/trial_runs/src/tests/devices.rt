// Each device fails at each call.
use super::told::{Story, Told, expect_told};
use super::{COUNT, COUNT_TWICE, Case, WORDS, ends_so, run_over, shelf_of, sink_of, words_of};
use coop_outside::{MemDepot, MemShelf, MemSink, SpoiltDepot};
use coop_run::{Layout, Settings, run_settings};
use cscan::NoGate;
use help_stories::tables::TABLE_A;
use relevance::Relevance;
use std::alloc::Global;
use std::hash::RandomState;
use std::process::Abort;
use std::random::RandomSource;
use std::sync::Wait;
use std::test::Fail;
use std::thread::Threads;

const ONE_LOST: &str = "refused 1: read fault\nquery 2\n5\n";

const BOTH_LOST: &str = "refused 1: read fault\nrefused 2: read fault\n";

const NONE_LOST: &str = "query 1\n5\nquery 2\n5\n";

// Two counts while gets fail.
const FAILING_GETS: &[Told<'static>] = &[
    Told {
        words: WORDS,
        table: TABLE_A,
        batch: COUNT_TWICE,
        fail_gets: &[1],
        fail_puts: &[],
        status: 1,
        output: &[ONE_LOST],
        puts: None,
        gets: Some(4),
        taken: None,
        story: Story::Faults(&[(0, 1)]),
    },
    Told {
        words: WORDS,
        table: TABLE_A,
        batch: COUNT_TWICE,
        fail_gets: &[2],
        fail_puts: &[],
        status: 1,
        output: &[ONE_LOST],
        puts: None,
        gets: Some(4),
        taken: None,
        story: Story::Faults(&[(0, 1)]),
    },
    Told {
        words: WORDS,
        table: TABLE_A,
        batch: COUNT_TWICE,
        fail_gets: &[3],
        fail_puts: &[],
        status: 1,
        output: &[ONE_LOST],
        puts: None,
        gets: Some(4),
        taken: None,
        story: Story::Faults(&[(0, 1)]),
    },
    Told {
        words: WORDS,
        table: TABLE_A,
        batch: COUNT_TWICE,
        fail_gets: &[4],
        fail_puts: &[],
        status: 0,
        output: &[NONE_LOST],
        puts: None,
        gets: Some(3),
        taken: None,
        story: Story::Faults(&[]),
    },
    Told {
        words: WORDS,
        table: TABLE_A,
        batch: COUNT_TWICE,
        fail_gets: &[1, 2],
        fail_puts: &[],
        status: 1,
        output: &[BOTH_LOST],
        puts: None,
        gets: Some(2),
        taken: None,
        story: Story::Faults(&[(0, 1), (1, 2)]),
    },
];

#[test]
fn each_get_fails_in_turn(rt: HostRuntime) -> Result<(), Fail> {
    expect_told(&rt, rt.alloc(), FAILING_GETS)
}

// A count while a put fails.
const FAILING_PUTS: &[Told<'static>] = &[
    Told {
        words: WORDS,
        table: TABLE_A,
        batch: COUNT,
        fail_gets: &[],
        fail_puts: &[1],
        status: 5,
        output: &["stopped 5: piece 0 not stored\n"],
        puts: None,
        gets: None,
        taken: None,
        story: Story::Any,
    },
    Told {
        words: WORDS,
        table: TABLE_A,
        batch: COUNT,
        fail_gets: &[],
        fail_puts: &[2],
        status: 5,
        output: &["stopped 5: piece 1 not stored\n"],
        puts: None,
        gets: None,
        taken: None,
        story: Story::Any,
    },
    Told {
        words: WORDS,
        table: TABLE_A,
        batch: COUNT,
        fail_gets: &[],
        fail_puts: &[3],
        status: 5,
        output: &["stopped 5: piece 2 not stored\n"],
        puts: None,
        gets: None,
        taken: None,
        story: Story::Any,
    },
    Told {
        words: WORDS,
        table: TABLE_A,
        batch: COUNT,
        fail_gets: &[],
        fail_puts: &[4],
        status: 0,
        output: &["query 1\n5\n"],
        puts: None,
        gets: None,
        taken: None,
        story: Story::Any,
    },
];

#[test]
fn each_put_fails_in_turn(rt: HostRuntime) -> Result<(), Fail> {
    expect_told(&rt, rt.alloc(), FAILING_PUTS)
}

const DAMAGED: Case<'static> = (WORDS, TABLE_A, COUNT, 1, "refused 1: damaged piece 0\n");

#[test]
fn a_damaged_piece(rt: HostRuntime) -> Result<(), Fail> {
    let depot = SpoiltDepot {
        inner: MemDepot::new(rt.alloc()),
        piece: 0,
        word: 2,
        value: 9,
    };
    assert!(rt; ends_so(&rt, rt.alloc(), &DAMAGED, depot)?);
    Ok(())
}

// A shelf with table A and a count, whose read of this number fails.
fn failing_shelf(alloc: Global, fail_read: u64) -> Result<MemShelf, Fail> {
    let mut shelf = shelf_of(alloc, TABLE_A.as_bytes(), COUNT.as_bytes())?;
    shelf.fail_reads.push(fail_read)?;
    Ok(shelf)
}

// A sink that takes so many bytes a call, and whose write of this number fails.
fn failing_sink(alloc: Global, per_call: usize, fail_write: u64) -> Result<MemSink, Fail> {
    let mut out = sink_of(alloc, per_call);
    out.fail_writes.push(fail_write)?;
    Ok(out)
}

// A count over table A while a read or a write fails; calls are numbered from 1, so that none has the number 0.
struct Faulty<'a> {
    words: &'a str,
    fail_read: u64,
    per_call: usize,
    fail_write: u64,
    status: u8,
    output: &'a str,
}

// The status of a run of the words of a line over a shelf, into a sink.
fn status_over<R: RandomSource + Threads + Wait + Sync>(
    rt: &R,
    alloc: Global,
    line: &str,
    shelf: &mut MemShelf,
    out: &mut MemSink,
) -> Result<u8, Fail> {
    let words = words_of(alloc, line)?;
    let ended = run_over(rt, alloc, &words, shelf, MemDepot::new(alloc), &NoGate, out)?;
    Ok(ended.status)
}

// Whether the run has its status and output.
fn ends_so_by_faults<R: RandomSource + Threads + Wait + Sync>(
    rt: &R,
    alloc: Global,
    row: &Faulty<'_>,
) -> Result<bool, Fail> {
    let mut shelf = failing_shelf(alloc, row.fail_read)?;
    let mut out = failing_sink(alloc, row.per_call, row.fail_write)?;
    let status = status_over(rt, alloc, row.words, &mut shelf, &mut out)?;
    Ok(status == row.status && out.taken.as_slice() == row.output.as_bytes())
}

fn expect_faulty<R: Abort + RandomSource + Threads + Wait + Sync>(
    rt: &R,
    alloc: Global,
    rows: &[Faulty<'_>],
) -> Result<(), Fail> {
    for place in 0..rows.len() {
        let is_right = ends_so_by_faults(rt, alloc, &rows[place])?;
        assert!(rt; is_right, "run {place}");
    }
    Ok(())
}

const FAILING_READS: &[Faulty<'static>] = &[
    Faulty {
        words: WORDS,
        fail_read: 1,
        per_call: 100,
        fail_write: 0,
        status: 4,
        output: "stopped 4: table read fault\n",
    },
    Faulty {
        words: WORDS,
        fail_read: 2,
        per_call: 100,
        fail_write: 0,
        status: 4,
        output: "stopped 4: table read fault\n",
    },
    Faulty {
        words: WORDS,
        fail_read: 3,
        per_call: 100,
        fail_write: 0,
        status: 4,
        output: "stopped 4: batch read fault\n",
    },
    Faulty {
        words: WORDS,
        fail_read: 4,
        per_call: 100,
        fail_write: 0,
        status: 4,
        output: "stopped 4: batch read fault\n",
    },
    Faulty {
        words: WORDS,
        fail_read: 5,
        per_call: 100,
        fail_write: 0,
        status: 0,
        output: "query 1\n5\n",
    },
];

#[test]
fn each_read_fails_in_turn(rt: HostRuntime) -> Result<(), Fail> {
    expect_faulty(&rt, rt.alloc(), FAILING_READS)
}

const FAILING_WRITES: &[Faulty<'static>] = &[
    Faulty {
        words: WORDS,
        fail_read: 0,
        per_call: 4,
        fail_write: 1,
        status: 6,
        output: "",
    },
    Faulty {
        words: WORDS,
        fail_read: 0,
        per_call: 4,
        fail_write: 2,
        status: 6,
        output: "quer",
    },
    Faulty {
        words: WORDS,
        fail_read: 0,
        per_call: 4,
        fail_write: 3,
        status: 6,
        output: "query 1\n",
    },
    Faulty {
        words: WORDS,
        fail_read: 0,
        per_call: 4,
        fail_write: 4,
        status: 0,
        output: "query 1\n5\n",
    },
    Faulty {
        words: WORDS,
        fail_read: 0,
        per_call: 0,
        fail_write: 0,
        status: 6,
        output: "",
    },
];

#[test]
fn each_write_fails_in_turn(rt: HostRuntime) -> Result<(), Fail> {
    expect_faulty(&rt, rt.alloc(), FAILING_WRITES)
}

const FAILING_STOP: &[Faulty<'static>] = &[Faulty {
    words: "",
    fail_read: 0,
    per_call: 4,
    fail_write: 3,
    status: 2,
    output: "stopped ",
}];

#[test]
fn a_stop_line_that_fails_keeps_its_status(rt: HostRuntime) -> Result<(), Fail> {
    expect_faulty(&rt, rt.alloc(), FAILING_STOP)
}

// The status of a run of the settings that `WORDS` ask for, over files of these names.
fn status_by_settings<R: Threads + Wait + Sync>(
    rt: &R,
    alloc: Global,
    keys: RandomState,
    (table, batch): (String, String),
    shelf: &mut MemShelf,
    out: &mut MemSink,
) -> u8 {
    let settings = Settings {
        workers: 1,
        frames: Some(4),
        per: 2,
        layout: Layout::Row,
        parts: 1,
        summary: false,
        trace: false,
        table,
        batch,
    };
    let depot = MemDepot::new(alloc);
    let ended = run_settings(
        rt, alloc, keys, &settings, shelf, depot, Relevance, &NoGate, out,
    );
    ended.status
}

// Whether a run of the settings counts the rows.
fn are_counted<R: RandomSource + Threads + Wait + Sync>(
    rt: &R,
    alloc: Global,
) -> Result<bool, Fail> {
    let keys = RandomState::new(rt)?;
    let table = String::from_str(alloc, "a.csv")?;
    let batch = String::from_str(alloc, "b.sql")?;
    let mut shelf = shelf_of(alloc, TABLE_A.as_bytes(), COUNT.as_bytes())?;
    let mut out = sink_of(alloc, 100);
    let status = status_by_settings(rt, alloc, keys, (table, batch), &mut shelf, &mut out);
    Ok(status == 0 && out.taken.as_slice() == b"query 1\n5\n".as_slice())
}

#[test]
fn settings_in_place_of_words(rt: HostRuntime) -> Result<(), Fail> {
    assert!(rt; are_counted(&rt, rt.alloc())?);
    Ok(())
}
