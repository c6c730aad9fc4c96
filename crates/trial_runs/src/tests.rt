// The program over devices in memory, by the worked examples.
ghost use Rattle.std.specs.Prelude.{◌≤◌, ◌^◌};

use batch_run::Taken;
use coop_outside::{Bytes, Depot, MemDepot, MemShelf, MemSink};
use coop_run::{Ended, run};
use cscan::{Gate, NoGate};
use relevance::Relevance;
use std::alloc::Global;
use std::hash::RandomState;
use std::process::Abort;
use std::random::RandomSource;
use std::sync::Wait;
use std::test::Fail;
use std::thread::Threads;

mod answers;
mod boxed;
mod counts;
mod devices;
mod generated;
mod hostile;
mod layouts;
mod meeting;
mod refusals;
mod stories;
mod told;

// Two rows a chunk, one worker, and no frame more than it needs.
const WORDS: &str = "--threads 1 --frames 4 --rows 2 a.csv b.sql";

const COUNT: &str = "SELECT COUNT(*) FROM t;";

const COUNT_TWICE: &str = "SELECT COUNT(*) FROM t; SELECT COUNT(*) FROM t;";

const SUMS: &str = "SELECT dept, SUM(pay), COUNT(pay) FROM t GROUP BY dept;";

const SUMS_PRINTED: &str = "query 1\n'a', 10, 1\n'b', 15, 2\n'c', 40, 1\n";

fn bytes_of(alloc: Global, text: &[u8]) -> Result<Bytes, Fail> {
    Ok(Bytes::new(Vec::from_slice(alloc, text)?))
}

/// A shelf with a table and a batch.
pub(crate) fn shelf_of(alloc: Global, table: &[u8], batch: &[u8]) -> Result<MemShelf, Fail> {
    let mut files = Vec::new(alloc);
    files.push((String::from_str(alloc, "a.csv")?, bytes_of(alloc, table)?))?;
    files.push((String::from_str(alloc, "b.sql")?, bytes_of(alloc, batch)?))?;
    Ok(MemShelf {
        files,
        fail_reads: Vec::new(alloc),
        calls: 0,
        faults: 0,
    })
}

/// A sink that takes so many bytes a call.
pub(crate) fn sink_of(alloc: Global, per_call: usize) -> MemSink {
    MemSink {
        taken: Bytes::new(Vec::new(alloc)),
        per_call,
        fail_writes: Vec::new(alloc),
        calls: 0,
        faults: 0,
    }
}

/// The words of a line.
pub(crate) fn words_of(alloc: Global, line: &str) -> Result<Vec<String>, Fail> {
    let mut words = Vec::new(alloc);
    for word in line.split(' ') {
        if word != "" {
            words.push(String::from_str(alloc, word)?)?;
        }
    }
    Ok(words)
}

// What a run leaves, and what it wrote.
#[derive(Drop)]
struct Left<D> {
    ended: Ended<D>,
    output: Bytes,
}

// A run of these words over a shelf, a depot and a sink, beside a gate.
fn run_over<D: Depot + Send, T: Gate + Sync, R: RandomSource + Threads + Wait + Sync>(
    rt: &R,
    alloc: Global,
    words: &[String],
    shelf: &mut MemShelf,
    depot: D,
    gate: &T,
    out: &mut MemSink,
) -> Result<Ended<D>, Fail>
    requires gets { D.gets depot ≤ 2 ^ 63 }
{
    let keys = RandomState::new(rt)?;
    Ok(run(rt, alloc, keys, words, shelf, depot, Relevance, gate, out))
}

// A run of the words of a line over a table and a batch of any bytes, beside a gate.
fn run_beside<D: Depot + Send, T: Gate + Sync, R: RandomSource + Threads + Wait + Sync>(
    rt: &R,
    alloc: Global,
    line: &str,
    table: &[u8],
    batch: &[u8],
    depot: D,
    gate: &T,
) -> Result<Left<D>, Fail>
    requires gets { D.gets depot ≤ 2 ^ 63 }
{
    let words = words_of(alloc, line)?;
    let mut shelf = shelf_of(alloc, table, batch)?;
    let mut out = sink_of(alloc, 100);
    let ended = run_over(rt, alloc, &words, &mut shelf, depot, gate, &mut out)?;
    Ok(Left {
        ended,
        output: out.taken,
    })
}

// Words, a table, a batch, the status and the output.
type Case<'a> = (&'a str, &'a str, &'a str, u8, &'a str);

// Whether the case ends as it should over a depot.
fn ends_so<D: Depot + Send, R: RandomSource + Threads + Wait + Sync>(
    rt: &R,
    alloc: Global,
    case: &Case<'_>,
    depot: D,
) -> Result<bool, Fail>
    requires gets { D.gets depot ≤ 2 ^ 63 }
{
    let (line, table, batch, status, output) = *case;
    let (table, batch) = (table.as_bytes(), batch.as_bytes());
    let left = run_beside(rt, alloc, line, table, batch, depot, &NoGate)?;
    Ok(left.ended.status == status && left.output.as_slice() == output.as_bytes())
}

// Each case ends as it should, over a depot in memory.
fn expect_cases<R: Abort + RandomSource + Threads + Wait + Sync>(
    rt: &R,
    alloc: Global,
    cases: &[Case<'_>],
) -> Result<(), Fail> {
    for place in 0..cases.len() {
        let is_right = ends_so(rt, alloc, &cases[place], MemDepot::new(alloc))?;
        assert!(rt; is_right, "case {place}");
    }
    Ok(())
}

// Who took which chunks: a query, a part, a worker, and the chunks in their order.
type Took<'a> = (u32, u32, u32, &'a [u32]);

fn is_taken(scan: &Taken, took: &Took<'_>) -> bool {
    let (query, part, worker, chunks) = *took;
    scan.query == query
        && scan.part == part
        && scan.worker == worker
        && scan.chunks.as_slice() == chunks
}

// Whether there is one scan for each of these, in their order.
fn are_taken(taken: &[Taken], wanted: &[Took<'_>]) -> bool {
    taken.len() == wanted.len()
        && taken
            .iter()
            .zip(wanted)
            .all(|(scan, took)| is_taken(scan, took))
}
