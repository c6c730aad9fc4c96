// Runs with policies in boxes, by the worked examples.
ghost use Rattle.std.specs.Prelude.{◌≡◌, ◌≤◌, length};

use super::told::{depot_of, is_count};
use super::{COUNT, COUNT_TWICE, WORDS, shelf_of, sink_of, words_of};
use coop_outside::{Bytes, MemDepot, MemShelf, MemSink};
use coop_run::{BoxedEnd, PolicyRun, run_boxed};
use cscan::NoGate;
use help_stories::tables::{SIX_ROWS, TABLE_A};
use policy_box::Elevator;
use policy_plain::{Attach, Normal};
use relevance::{Policy, Relevance};
use scan_story::{Entry, PolicyName};
use std::alloc::{AllocError, Global};
use std::hash::RandomState;
use std::process::Abort;
use std::random::RandomSource;
use std::sync::Wait;
use std::test::Fail;
use std::thread::Threads;

type Boxes = Vec<Box<dyn Policy + Send>>;

// The four policies, in the order in which the program hands them in.
const FOUR: &[PolicyName] = &[
    PolicyName::Relevance,
    PolicyName::Elevator,
    PolicyName::Normal,
    PolicyName::Attach,
];

// Two policies, neither of which is relevance.
const TWO: &[PolicyName] = &[PolicyName::Attach, PolicyName::Elevator];

// A new policy of this name.
fn box_of(alloc: Global, name: PolicyName) -> Result<Box<dyn Policy + Send>, AllocError> {
    match name {
        PolicyName::Relevance => Ok(Box::new(alloc, Relevance)?),
        PolicyName::Elevator => Ok(Box::new(alloc, Elevator::new())?),
        PolicyName::Normal => Ok(Box::new(alloc, Normal::new())?),
        PolicyName::Attach => Ok(Box::new(alloc, Attach::new())?),
    }
}

fn boxes_of(alloc: Global, names: &[PolicyName]) -> Result<Boxes, AllocError> {
    let mut policies: Boxes = Vec::new(alloc);
    for name in names {
        policies.push(box_of(alloc, *name)?)?;
    }
    Ok(policies)
}

// What a run leaves, what it wrote, and how often the shelf was called.
#[derive(Drop)]
struct Left {
    ended: BoxedEnd<MemDepot>,
    output: Bytes,
    calls: u64,
}

// A run of these words over a shelf, a depot and a sink.
fn run_over<R: Threads + Wait + Sync>(
    rt: &R,
    alloc: Global,
    keys: RandomState,
    policies: Boxes,
    words: &[String],
    shelf: &mut MemShelf,
    depot: MemDepot,
    out: &mut MemSink,
) -> BoxedEnd<MemDepot>
    requires few { length policies.items ≤ 16 }
    requires gets { depot.gets ≡ 0 }
{
    run_boxed(rt, alloc, keys, words, shelf, depot, policies, &NoGate, out)
}

// What is told of the runs.
#[derive(Clone, Copy)]
enum Runs<'a> {
    Any,
    Count(usize),
    // one run under each of these policies, each with three scans
    Three(&'a [PolicyName]),
    // one run with two scans: its policy, the chunks that the second one takes, and those that leave the buffer
    Shared(PolicyName, &'a [u32], &'a [u32]),
}

// Whether the chunks that left the buffer are these, in this order.
fn are_evicted(story: &[Entry], wanted: &[u32]) -> bool {
    let mut left = wanted;
    for entry in story {
        if let Entry::Evict { chunk, .. } = entry {
            match left {
                [first, rest @ ..] if first == chunk => left = rest,
                _ => return false,
            }
        }
    }
    left.is_empty()
}

// Whether the run is one under the policy, whose first scan takes the six chunks in table order.
fn is_shared(run: &PolicyRun, name: PolicyName, second: &[u32], evicted: &[u32]) -> bool {
    let [one, other] = run.taken.as_slice() else {
        return false;
    };
    run.name == name
        && one.chunks.as_slice() == [0, 1, 2, 3, 4, 5].as_slice()
        && other.chunks.as_slice() == second
        && are_evicted(&run.story, evicted)
}

fn are_three(runs: &[PolicyRun], names: &[PolicyName]) -> bool {
    runs.len() == names.len()
        && runs
            .iter()
            .zip(names)
            .all(|(run, name)| run.name == *name && run.taken.len() == 3)
}

fn are_runs(runs: &[PolicyRun], wanted: &Runs<'_>) -> bool {
    match wanted {
        Runs::Any => true,
        Runs::Count(count) => runs.len() == *count,
        Runs::Three(names) => are_three(runs, names),
        Runs::Shared(name, second, evicted) => match runs {
            [run] => is_shared(run, *name, second, evicted),
            _ => false,
        },
    }
}

// A run with policies in boxes over a depot in memory, and what it comes to; `None` where that isn't told.
struct Told<'a> {
    policies: &'a [PolicyName],
    words: &'a str,
    table: &'a str,
    batch: &'a str,
    // the gets and the puts that fail, counted from 1
    fail_gets: &'a [u64],
    fail_puts: &'a [u64],
    status: u8,
    output: &'a str,
    puts: Option<u64>,
    gets: Option<u64>,
    calls: Option<u64>,
    runs: Runs<'a>,
}

// A run of these words with policies, over a depot.
fn run_on<R: Abort + Threads + Wait + Sync>(
    rt: &R,
    alloc: Global,
    keys: RandomState,
    policies: Boxes,
    told: &Told<'_>,
    depot: MemDepot,
) -> Result<Left, Fail>
    requires gets { depot.gets ≡ 0 }
{
    assert!(rt; policies.len() <= 16);
    let words = words_of(alloc, told.words)?;
    let mut shelf = shelf_of(alloc, told.table.as_bytes(), told.batch.as_bytes())?;
    let mut out = sink_of(alloc, 100);
    let ended = run_over(
        rt, alloc, keys, policies, &words, &mut shelf, depot, &mut out,
    );
    Ok(Left {
        ended,
        output: out.taken,
        calls: shelf.calls,
    })
}

// What the run leaves.
fn left_by<R: Abort + RandomSource + Threads + Wait + Sync>(
    rt: &R,
    alloc: Global,
    told: &Told<'_>,
) -> Result<Left, Fail> {
    let keys = RandomState::new(rt)?;
    let policies = boxes_of(alloc, told.policies)?;
    let depot = depot_of(alloc, told.fail_gets, told.fail_puts)?;
    run_on(rt, alloc, keys, policies, told, depot)
}

// Whether the run comes to what is told.
fn is_as_told<R: Abort + RandomSource + Threads + Wait + Sync>(
    rt: &R,
    alloc: Global,
    told: &Told<'_>,
) -> Result<bool, Fail> {
    let left = left_by(rt, alloc, told)?;
    Ok(
        left.ended.status == told.status
            && left.output.as_slice() == told.output.as_bytes()
            && is_count(left.ended.depot.puts, told.puts)
            && is_count(left.ended.depot.gets, told.gets)
            && is_count(left.calls, told.calls)
            && are_runs(&left.ended.runs, &told.runs),
    )
}

// Each run comes to what is told.
fn expect_told<R: Abort + RandomSource + Threads + Wait + Sync>(
    rt: &R,
    alloc: Global,
    rows: &[Told<'_>],
) -> Result<(), Fail> {
    for place in 0..rows.len() {
        let is_told = is_as_told(rt, alloc, &rows[place])?;
        assert!(rt; is_told, "run {place}");
    }
    Ok(())
}

const BOTH_SIX: &str = "query 1\n6\nquery 2\n6\n";

// Two counts over six chunks.
const EACH_POLICY: &[Told<'static>] = &[
    Told {
        policies: FOUR,
        words: "--threads 1 --frames 4 --rows 1 a.csv b.sql",
        table: SIX_ROWS,
        batch: COUNT_TWICE,
        fail_gets: &[],
        fail_puts: &[],
        status: 0,
        output: BOTH_SIX,
        puts: None,
        gets: Some(8),
        calls: None,
        runs: Runs::Shared(PolicyName::Relevance, &[2, 3, 4, 5, 0, 1], &[0, 1, 2, 0]),
    },
    Told {
        policies: FOUR,
        words: "--threads 1 --frames 4 --rows 1 --policy elevator a.csv b.sql",
        table: SIX_ROWS,
        batch: COUNT_TWICE,
        fail_gets: &[],
        fail_puts: &[],
        status: 0,
        output: BOTH_SIX,
        puts: None,
        gets: Some(8),
        calls: None,
        runs: Runs::Shared(PolicyName::Elevator, &[2, 3, 4, 5, 0, 1], &[0, 1, 2, 3]),
    },
    Told {
        policies: FOUR,
        words: "--threads 1 --frames 4 --rows 1 --policy normal a.csv b.sql",
        table: SIX_ROWS,
        batch: COUNT_TWICE,
        fail_gets: &[],
        fail_puts: &[],
        status: 0,
        output: BOTH_SIX,
        puts: None,
        gets: Some(8),
        calls: None,
        runs: Runs::Shared(PolicyName::Normal, &[2, 3, 4, 5, 0, 1], &[0, 1, 2, 3]),
    },
    Told {
        policies: FOUR,
        words: "--threads 1 --frames 4 --rows 1 --policy attach a.csv b.sql",
        table: SIX_ROWS,
        batch: COUNT_TWICE,
        fail_gets: &[],
        fail_puts: &[],
        status: 0,
        output: BOTH_SIX,
        puts: None,
        gets: Some(8),
        calls: None,
        runs: Runs::Shared(PolicyName::Attach, &[5, 2, 3, 4, 0, 1], &[0, 1, 2, 0]),
    },
];

#[test]
fn two_counts_under_each_policy(rt: HostRuntime) -> Result<(), Fail> {
    expect_told(&rt, rt.alloc(), EACH_POLICY)
}

const ALL_ROWS: &[Told<'static>] = &[Told {
    policies: FOUR,
    words: WORDS,
    table: TABLE_A,
    batch: COUNT,
    fail_gets: &[],
    fail_puts: &[],
    status: 0,
    output: "query 1\n5\n",
    puts: None,
    gets: None,
    calls: None,
    runs: Runs::Any,
}];

#[test]
fn all_rows_are_counted_under_relevance(rt: HostRuntime) -> Result<(), Fail> {
    expect_told(&rt, rt.alloc(), ALL_ROWS)
}

const USAGE: &str = "stopped 2: usage\n";

const NOT_THERE: &[Told<'static>] = &[
    Told {
        policies: FOUR,
        words: "--policy fast --threads 1 a.csv b.sql",
        table: TABLE_A,
        batch: COUNT,
        fail_gets: &[],
        fail_puts: &[],
        status: 2,
        output: USAGE,
        puts: None,
        gets: None,
        calls: None,
        runs: Runs::Count(0),
    },
    Told {
        policies: TWO,
        words: "--policy normal --threads 1 a.csv b.sql",
        table: TABLE_A,
        batch: COUNT,
        fail_gets: &[],
        fail_puts: &[],
        status: 2,
        output: USAGE,
        puts: None,
        gets: None,
        calls: None,
        runs: Runs::Count(0),
    },
    // the list has no relevance, which stands where no policy is named
    Told {
        policies: TWO,
        words: "--threads 1 a.csv b.sql",
        table: TABLE_A,
        batch: COUNT,
        fail_gets: &[],
        fail_puts: &[],
        status: 2,
        output: USAGE,
        puts: None,
        gets: None,
        calls: None,
        runs: Runs::Count(0),
    },
    Told {
        policies: &[],
        words: "--threads 1 a.csv b.sql",
        table: TABLE_A,
        batch: COUNT,
        fail_gets: &[],
        fail_puts: &[],
        status: 2,
        output: USAGE,
        puts: None,
        gets: None,
        calls: None,
        runs: Runs::Count(0),
    },
];

#[test]
fn a_policy_that_is_not_there(rt: HostRuntime) -> Result<(), Fail> {
    expect_told(&rt, rt.alloc(), NOT_THERE)
}

const COMPARED: &str = "--frames 4 --rows 1 --compare a.csv b.sql";

const FOUR_LINES: &str = "relevance: 9 reads, 5 evictions, 13 deliveries, 0 stops
elevator: 8 reads, 4 evictions, 13 deliveries, 0 stops
normal: 8 reads, 4 evictions, 13 deliveries, 0 stops
attach: 9 reads, 5 evictions, 13 deliveries, 0 stops
";

const THREE_COUNTS: &str =
    "SELECT COUNT(*) FROM t; SELECT COUNT(*) FROM t; SELECT COUNT(*) FROM t WHERE v = 1;";

const FOUR_COMPARED: &[Told<'static>] = &[
    // the shelf is called for each of the two texts, and its end
    Told {
        policies: FOUR,
        words: COMPARED,
        table: SIX_ROWS,
        batch: THREE_COUNTS,
        fail_gets: &[],
        fail_puts: &[],
        status: 0,
        output: FOUR_LINES,
        puts: None,
        gets: Some(34),
        calls: Some(4),
        runs: Runs::Three(&[
            PolicyName::Relevance,
            PolicyName::Elevator,
            PolicyName::Normal,
            PolicyName::Attach,
        ]),
    },
];

#[test]
fn four_policies_compared(rt: HostRuntime) -> Result<(), Fail> {
    expect_told(&rt, rt.alloc(), FOUR_COMPARED)
}

// The second read fails, which stops the first query of the first run.
const ONE_STOP: &str = "relevance: 8 reads, 3 evictions, 8 deliveries, 1 stops
elevator: 8 reads, 4 evictions, 13 deliveries, 0 stops
normal: 8 reads, 4 evictions, 13 deliveries, 0 stops
attach: 9 reads, 5 evictions, 13 deliveries, 0 stops
";

const ONE_LOST: &[Told<'static>] = &[Told {
    policies: FOUR,
    words: COMPARED,
    table: SIX_ROWS,
    batch: THREE_COUNTS,
    fail_gets: &[2],
    fail_puts: &[],
    status: 1,
    output: ONE_STOP,
    puts: None,
    gets: None,
    calls: None,
    runs: Runs::Any,
}];

#[test]
fn a_query_that_one_run_loses(rt: HostRuntime) -> Result<(), Fail> {
    expect_told(&rt, rt.alloc(), ONE_LOST)
}

const NOT_STORED: &[Told<'static>] = &[Told {
    policies: FOUR,
    words: COMPARED,
    table: SIX_ROWS,
    batch: THREE_COUNTS,
    fail_gets: &[],
    fail_puts: &[14],
    status: 5,
    output: "stopped 5: piece 1 not stored\n",
    puts: None,
    gets: Some(17),
    calls: None,
    runs: Runs::Count(2),
}];

#[test]
fn a_piece_that_the_third_run_does_not_store(rt: HostRuntime) -> Result<(), Fail> {
    expect_told(&rt, rt.alloc(), NOT_STORED)
}

const TWO_LINES: &str = "attach: 6 reads, 2 evictions, 6 deliveries, 0 stops
elevator: 6 reads, 2 evictions, 6 deliveries, 0 stops
";

const ONE_REFUSED: &[Told<'static>] = &[Told {
    policies: TWO,
    words: COMPARED,
    table: SIX_ROWS,
    batch: "SELECT COUNT(*) FROM t; SELECT w FROM t;",
    fail_gets: &[],
    fail_puts: &[],
    status: 1,
    output: TWO_LINES,
    puts: None,
    gets: None,
    calls: None,
    runs: Runs::Count(2),
}];

#[test]
fn a_refused_query_in_a_comparison(rt: HostRuntime) -> Result<(), Fail> {
    expect_told(&rt, rt.alloc(), ONE_REFUSED)
}

// No file is read, whether it is there or not.
const NONE_COMPARED: &[Told<'static>] = &[
    Told {
        policies: &[],
        words: "--compare none.csv none.sql",
        table: SIX_ROWS,
        batch: COUNT,
        fail_gets: &[],
        fail_puts: &[],
        status: 0,
        output: "",
        puts: Some(0),
        gets: None,
        calls: Some(0),
        runs: Runs::Count(0),
    },
    Told {
        policies: &[],
        words: COMPARED,
        table: SIX_ROWS,
        batch: THREE_COUNTS,
        fail_gets: &[],
        fail_puts: &[],
        status: 0,
        output: "",
        puts: Some(0),
        gets: None,
        calls: Some(0),
        runs: Runs::Count(0),
    },
];

#[test]
fn no_policies_compared(rt: HostRuntime) -> Result<(), Fail> {
    expect_told(&rt, rt.alloc(), NONE_COMPARED)
}

const STOPPED: &[Told<'static>] = &[
    Told {
        policies: TWO,
        words: "--compare --policy attach a.csv b.sql",
        table: SIX_ROWS,
        batch: COUNT,
        fail_gets: &[],
        fail_puts: &[],
        status: 2,
        output: USAGE,
        puts: None,
        gets: None,
        calls: None,
        runs: Runs::Count(0),
    },
    Told {
        policies: TWO,
        words: "--compare --summary a.csv b.sql",
        table: SIX_ROWS,
        batch: COUNT,
        fail_gets: &[],
        fail_puts: &[],
        status: 2,
        output: USAGE,
        puts: None,
        gets: None,
        calls: None,
        runs: Runs::Count(0),
    },
    Told {
        policies: TWO,
        words: "--compare --threads 2 a.csv b.sql",
        table: SIX_ROWS,
        batch: COUNT,
        fail_gets: &[],
        fail_puts: &[],
        status: 2,
        output: USAGE,
        puts: None,
        gets: None,
        calls: None,
        runs: Runs::Count(0),
    },
    Told {
        policies: TWO,
        words: "--compare none.csv b.sql",
        table: SIX_ROWS,
        batch: COUNT,
        fail_gets: &[],
        fail_puts: &[],
        status: 4,
        output: "stopped 4: table read fault\n",
        puts: None,
        gets: None,
        calls: None,
        runs: Runs::Count(0),
    },
    Told {
        policies: TWO,
        words: "--compare --frames 3 a.csv b.sql",
        table: SIX_ROWS,
        batch: COUNT,
        fail_gets: &[],
        fail_puts: &[],
        status: 8,
        output: "stopped 8: 4 frames needed\n",
        puts: None,
        gets: None,
        calls: None,
        runs: Runs::Count(0),
    },
];

#[test]
fn comparisons_that_stop(rt: HostRuntime) -> Result<(), Fail> {
    expect_told(&rt, rt.alloc(), STOPPED)
}
