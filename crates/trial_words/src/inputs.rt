// Inputs and stops over a shelf in memory.
use command_words::Call;
use coop_outside::{Bytes, MemShelf};
use piece_format::Layout;
use run_inputs::{Inputs, Outcome, inputs_again, inputs_of, read_inputs, request_in};
use run_stops::Stop;
use sql_bind::{BindRefusal, StatementRefusal};
use sql_tokens::TextRefusal;
use std::alloc::Global;
use std::hash::RandomState;
use std::process::Abort;
use std::random::RandomSource;
use std::test::Fail;
use std::thread::Threads;

const TABLE: &[u8] = b"id,dept,pay\n1,a,10\n2,b,20\n3,a,\n4,c,40\n5,b,-5\n";

const COUNT: &[u8] = b"SELECT COUNT(*) FROM t;\n";

const HEADER_OF_16: &[u8] = b"a,b,c,d,e,f,g,h,i,j,k,l,m,n,o,p\n";

const HEADER_OF_17: &[u8] = b"a,b,c,d,e,f,g,h,i,j,k,l,m,n,o,p,q\n";

// Puts a file behind others, where it has a text.
fn put(
    alloc: Global,
    files: &mut Vec<(String, Bytes)>,
    name: &str,
    text: Option<&[u8]>,
) -> Result<(), Fail> {
    if let Some(text) = text {
        let name = String::from_str(alloc, name)?;
        files.push((name, Bytes::new(Vec::from_slice(alloc, text)?)))?;
    }
    Ok(())
}

// A shelf with a table `a.csv` and a batch `b.sql`, each where it is given.
fn shelf_of(
    alloc: Global,
    table: Option<&[u8]>,
    batch: Option<&[u8]>,
    fail_read: u64,
) -> Result<MemShelf, Fail> {
    let mut files = Vec::new(alloc);
    put(alloc, &mut files, "a.csv", table)?;
    put(alloc, &mut files, "b.sql", batch)?;
    Ok(MemShelf {
        files,
        fail_reads: vec![in alloc; fail_read]?,
        calls: 0,
        faults: 0,
    })
}

// The words of a line, which single spaces part.
fn words_of(alloc: Global, line: &str) -> Result<Vec<String>, Fail> {
    let mut words = Vec::new(alloc);
    for word in line.split(' ') {
        words.push(String::from_str(alloc, word)?)?;
    }
    Ok(words)
}

fn read(
    rt: &(impl RandomSource + Threads + Sync),
    alloc: Global,
    line: &str,
    table: Option<&[u8]>,
    batch: Option<&[u8]>,
    fail_read: u64,
) -> Result<Result<Inputs, Stop>, Fail> {
    let words = words_of(alloc, line)?;
    let mut shelf = shelf_of(alloc, table, batch, fail_read)?;
    let keys = RandomState::new(rt)?;
    match request_in(alloc, Call::Run, &words) {
        Ok(request) => Ok(inputs_of(rt, alloc, keys, &request, &mut shelf)),
        Err(stop) => Ok(Err(stop)),
    }
}

// Why a run stops that is given so, if it does.
fn stop_of(
    rt: &(impl RandomSource + Threads + Sync),
    alloc: Global,
    line: &str,
    table: Option<&[u8]>,
    batch: Option<&[u8]>,
    fail_read: u64,
) -> Result<Option<Stop>, Fail> {
    Ok(read(rt, alloc, line, table, batch, fail_read)?.err())
}

const SOME: Option<&[u8]> = Some(TABLE);

const ONE: Option<&[u8]> = Some(COUNT);

// Words, a table, a batch, and why the run stops.
type Stopped<'a> = (&'a str, Option<&'a [u8]>, Option<&'a [u8]>, Stop);

const STOPS: &[Stopped<'static>] = &[
    ("", SOME, ONE, Stop::Usage),
    ("a.csv", SOME, ONE, Stop::Usage),
    ("--threads 33 a.csv b.sql", SOME, ONE, Stop::Usage),
    (
        "--threads 2 --threads 2 a.csv b.sql",
        SOME,
        ONE,
        Stop::Usage,
    ),
    ("--compare a.csv b.sql", SOME, ONE, Stop::Usage),
    ("--policy normal a.csv b.sql", SOME, ONE, Stop::Usage),
    ("gen:7 b.sql", SOME, ONE, Stop::Usage),
    ("a.csv b.sql", None, ONE, Stop::TableFault),
    ("--frames 3 a.csv b.sql", None, None, Stop::TableFault),
    ("a.csv b.sql", Some(b""), None, Stop::NoHeader),
    (
        "a.csv b.sql",
        Some(HEADER_OF_17),
        None,
        Stop::Columns { columns: 17 },
    ),
    (
        "a.csv b.sql",
        Some(b"a,a\n"),
        ONE,
        Stop::TwiceNamed {
            first: 0,
            second: 1,
        },
    ),
    (
        "a.csv b.sql",
        Some(b"a,b,b,a\n"),
        ONE,
        Stop::TwiceNamed {
            first: 1,
            second: 2,
        },
    ),
    (
        "--frames 1 a.csv b.sql",
        Some(b"a,b\n1,2\n3\n4,5,6\n"),
        None,
        Stop::Ragged { row: 2, fields: 1 },
    ),
    (
        "--threads 1 --frames 3 --rows 2 a.csv b.sql",
        SOME,
        None,
        Stop::FramesNeeded { frames: 4 },
    ),
    (
        "--threads 1 --frames 11 --rows 2 --layout column a.csv b.sql",
        SOME,
        ONE,
        Stop::FramesNeeded { frames: 12 },
    ),
    (
        "--frames 4194305 --rows 2 a.csv b.sql",
        SOME,
        None,
        Stop::FrameWords { words: 33554440 },
    ),
    ("a.csv b.sql", SOME, None, Stop::BatchFault),
    ("--layout column a.csv b.sql", SOME, None, Stop::BatchFault),
];

fn expect_stops<R: Abort + RandomSource + Threads + Sync>(
    rt: &R,
    alloc: Global,
    rows: &[Stopped<'_>],
) -> Result<(), Fail> {
    for (line, table, batch, stop) in rows {
        let found = stop_of(rt, alloc, line, *table, *batch, 0)?;
        assert!(rt; found == Some(*stop), "{line}");
    }
    Ok(())
}

#[test]
fn the_first_refusal_stops_a_run(rt: HostRuntime) -> Result<(), Fail> {
    expect_stops(&rt, rt.alloc(), STOPS)
}

// A text, and so many copies of another behind it.
type Text = (&'static [u8], &'static [u8], u32);

fn written(alloc: Global, (start, text, count): Text) -> Result<Vec<u8>, Fail> {
    let mut all = Vec::from_slice(alloc, start)?;
    for _ in 0..count {
        all.extend_from_slice(text)?;
    }
    Ok(all)
}

const FIVE_ROWS: Text = (TABLE, b"", 0);

const ONE_COUNT: Text = (b"", COUNT, 1);

// Words, a table, a batch, and why the run stops, if it does.
type Limit<'a> = (&'a str, Text, Text, Option<Stop>);

const LIMITS: &[Limit<'static>] = &[
    ("a.csv b.sql", (HEADER_OF_16, b"", 0), ONE_COUNT, None),
    ("a.csv b.sql", (b"a,", b"n", 128), ONE_COUNT, None),
    (
        "a.csv b.sql",
        (b"a,", b"n", 129),
        ONE_COUNT,
        Some(Stop::LongName { column: 1 }),
    ),
    (
        "--rows 1 a.csv b.sql",
        (b"a\n", b"1\n", 1024),
        ONE_COUNT,
        None,
    ),
    (
        "--rows 1 --frames 1 a.csv b.sql",
        (b"a\n", b"1\n", 1025),
        ONE_COUNT,
        Some(Stop::Chunks { chunks: 1025 }),
    ),
    (
        "--rows 2 a.csv b.sql",
        (b"a\n", b"1\n", 1025),
        ONE_COUNT,
        None,
    ),
    (
        "--frames 4194304 --rows 2 a.csv b.sql",
        FIVE_ROWS,
        ONE_COUNT,
        None,
    ),
    ("a.csv b.sql", FIVE_ROWS, (b"", COUNT, 256), None),
    (
        "--parts 2 a.csv b.sql",
        FIVE_ROWS,
        (b"", COUNT, 257),
        Some(Stop::Statements { statements: 257 }),
    ),
    ("--parts 2 a.csv b.sql", FIVE_ROWS, (b"", COUNT, 128), None),
    (
        "--parts 2 a.csv b.sql",
        FIVE_ROWS,
        (b"", COUNT, 129),
        Some(Stop::Scans { scans: 258 }),
    ),
    ("a.csv b.sql", FIVE_ROWS, (b"", b" ", 1048576), None),
    (
        "a.csv b.sql",
        FIVE_ROWS,
        (b"", b" ", 1048577),
        Some(Stop::BatchTooLong),
    ),
];

fn expect_limits<R: Abort + RandomSource + Threads + Sync>(
    rt: &R,
    alloc: Global,
    rows: &[Limit<'_>],
) -> Result<(), Fail> {
    for (line, table, batch, stop) in rows {
        let table = written(alloc, *table)?;
        let batch = written(alloc, *batch)?;
        let found = stop_of(rt, alloc, line, Some(&table), Some(&batch), 0)?;
        assert!(rt; found == *stop, "{line}");
    }
    Ok(())
}

#[test]
fn limits_are_exact(rt: HostRuntime) -> Result<(), Fail> {
    expect_limits(&rt, rt.alloc(), LIMITS)
}

// Which read fails, and why the run stops, if it does.
const READS: &[(u64, Option<Stop>)] = &[
    (1, Some(Stop::TableFault)),
    (2, Some(Stop::TableFault)),
    (3, Some(Stop::BatchFault)),
    (4, Some(Stop::BatchFault)),
    (5, None),
];

fn expect_reads<R: Abort + RandomSource + Threads + Sync>(
    rt: &R,
    alloc: Global,
    rows: &[(u64, Option<Stop>)],
) -> Result<(), Fail> {
    for (call, stop) in rows {
        let found = stop_of(rt, alloc, "a.csv b.sql", SOME, ONE, *call)?;
        assert!(rt; found == *stop, "{call}");
    }
    Ok(())
}

#[test]
fn each_read_that_fails_is_a_fault(rt: HostRuntime) -> Result<(), Fail> {
    expect_reads(&rt, rt.alloc(), READS)
}

// Workers, frames, rows of a chunk, the layout and parts.
type Settings = (u32, u32, u32, Layout, u32);

fn settings_of(inputs: &Inputs) -> Settings {
    (
        inputs.options.workers,
        inputs.options.frames,
        inputs.options.per,
        inputs.options.layout,
        inputs.options.parts,
    )
}

const SETTINGS: &[(&str, Settings)] = &[
    ("a.csv b.sql", (4, 13, 1024, Layout::Row, 1)),
    (
        "--threads 1 --frames 4 --rows 2 a.csv b.sql",
        (1, 4, 2, Layout::Row, 1),
    ),
    (
        "--layout column --threads 2 a.csv b.sql",
        (2, 21, 1024, Layout::Column, 1),
    ),
    (
        "--parts 32 --frames 100 a.csv b.sql",
        (4, 100, 1024, Layout::Row, 32),
    ),
];

// Whether the words of a line give these settings, with neither summary nor trace.
fn has_settings(
    rt: &(impl RandomSource + Threads + Sync),
    alloc: Global,
    line: &str,
    wanted: Settings,
) -> Result<bool, Fail> {
    match read(rt, alloc, line, SOME, ONE, 0)? {
        Ok(inputs) => Ok(settings_of(&inputs) == wanted && !inputs.summary && !inputs.trace),
        Err(_) => Ok(false),
    }
}

fn expect_settings<R: Abort + RandomSource + Threads + Sync>(
    rt: &R,
    alloc: Global,
    rows: &[(&str, Settings)],
) -> Result<(), Fail> {
    for (line, wanted) in rows {
        let has = has_settings(rt, alloc, line, *wanted)?;
        assert!(rt; has, "{line}");
    }
    Ok(())
}

#[test]
fn what_is_not_asked_for_has_its_default(rt: HostRuntime) -> Result<(), Fail> {
    expect_settings(&rt, rt.alloc(), SETTINGS)
}

const BATCH: &[u8] =
    b"SELECT SUM(dept) FROM t; SELECT x FROM; SELECT COUNT(*) FROM t;; -- nothing\n\
    ;SELECT COUNT(*) FROM u; SELECT zz, yy FROM t WHERE dept = 1; SELECT id FROM t;\
    SELECT id FROM t LIMIT 4097";

// What each of its statements comes to, with the name that a refusal has.
const OUTCOMES: &[(&str, &[u8])] = &[
    ("wrong kind", b"dept"),
    ("syntax", b""),
    ("a plan", b""),
    ("unknown table", b"u"),
    ("unknown column", b"zz"),
    ("not grouped", b"id"),
    ("too many items", b""),
];

fn refused(why: &BindRefusal) -> (&'static str, &[u8]) {
    match why {
        BindRefusal::UnknownTable { name } => ("unknown table", name.as_slice()),
        BindRefusal::UnknownColumn { name } => ("unknown column", name.as_slice()),
        BindRefusal::WrongKind { name } => ("wrong kind", name.as_slice()),
        BindRefusal::NotGrouped { name } => ("not grouped", name.as_slice()),
        BindRefusal::Memory => ("memory", b""),
    }
}

fn shown(outcome: &Outcome) -> (&'static str, &[u8]) {
    match outcome {
        Outcome::Planned(_) => ("a plan", b""),
        Outcome::Refused(StatementRefusal::Text(TextRefusal::Syntax)) => ("syntax", b""),
        Outcome::Refused(StatementRefusal::Text(TextRefusal::TooManyItems)) => (
            "too many items",
            b"",
        ),
        Outcome::Refused(StatementRefusal::Text(_)) => ("another refusal", b""),
        Outcome::Refused(StatementRefusal::Query(why)) => refused(why),
    }
}

fn are_shown(outcomes: &[Outcome], wanted: &[(&str, &[u8])]) -> bool {
    outcomes.len() == wanted.len()
        && outcomes
            .iter()
            .zip(wanted)
            .all(|(outcome, one)| shown(outcome) == *one)
}

#[test]
fn each_statement_has_a_plan_or_a_refusal(rt: HostRuntime) -> Result<(), Fail> {
    let Ok(inputs) = read(&rt, rt.alloc(), "a.csv b.sql", SOME, Some(BATCH), 0)? else {
        panic!(rt; "stopped")
    };
    assert!(rt; inputs.loaded.table.len() == 5);
    assert!(rt; are_shown(inputs.outcomes.as_slice(), OUTCOMES));
    Ok(())
}

#[test]
fn a_batch_without_statements_is_empty(rt: HostRuntime) -> Result<(), Fail> {
    let Ok(inputs) = read(
        &rt,
        rt.alloc(),
        "a.csv b.sql",
        Some(b"id,dept,pay"),
        Some(b"; -- nothing"),
        0,
    )?
    else {
        panic!(rt; "stopped")
    };
    assert_eq!(rt; inputs.loaded.table.len(), 0);
    assert_eq!(rt; inputs.outcomes.len(), 0);
    Ok(())
}

#[test]
fn generated_texts_are_not_read(rt: HostRuntime) -> Result<(), Fail> {
    let line = "--summary --trace --threads 2 gen:7:2000 gen";
    let Ok(inputs) = read(&rt, rt.alloc(), line, None, None, 1)? else {
        panic!(rt; "stopped")
    };
    assert!(rt; inputs.summary && inputs.trace);
    assert_eq!(rt; inputs.loaded.table.len(), 2000);
    assert_eq!(rt; inputs.outcomes.len(), 8);
    for outcome in &inputs.outcomes {
        assert!(rt; matches!(outcome, Outcome::Planned(_)));
    }
    Ok(())
}

#[test]
fn inputs_are_made_again_of_the_texts_that_were_read(rt: HostRuntime) -> Result<(), Fail> {
    let alloc = rt.alloc();
    let words = words_of(alloc, "--compare --rows 2 a.csv b.sql")?;
    let mut shelf = shelf_of(alloc, SOME, ONE, 0)?;
    let keys = RandomState::new(&rt)?;
    let Ok(request) = request_in(alloc, Call::RunBoxed, &words) else {
        panic!(rt; "usage")
    };
    assert!(rt; request.compare);
    let Ok((first, texts)) = read_inputs(&rt, alloc, keys, &request, &mut shelf) else {
        panic!(rt; "stopped")
    };
    let Ok(second) = inputs_again(&rt, alloc, keys, &request, &texts) else {
        panic!(rt; "stopped again")
    };
    for inputs in [&first, &second] {
        assert!(rt; (inputs.options.workers, inputs.options.frames) == (1, 4));
        assert!(rt; (inputs.loaded.table.len(), inputs.outcomes.len()) == (5, 1));
    }
    Ok(())
}
