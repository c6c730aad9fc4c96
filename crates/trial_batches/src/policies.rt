// The stories of each policy over small batches that seeds draw: each is legal by its own policy's definition, and by
// each other one's some are not.
use crate::batches::{next, run_under};
use crate::judged::{is_legal, is_sound};
use batch_run::{Answer, BatchEnd, Options};
use coop_outside::MemDepot;
use cscan::NoGate;
use help_stories::{POLICIES, first_cursor};
use piece_format::Layout;
use policy_box::Elevator;
use policy_plain::{Attach, Normal};
use relevance::{Policy, Relevance};
use scan_story::{Entry, Need, PolicyName, Setting};
use std::alloc::Global;
use std::collections::LinkedList;
use std::hash::RandomState;
use std::process::Abort;
use std::random::RandomSource;
use std::sync::Wait;
use std::test::Fail;
use std::thread::Threads;
use table_core::Cell;

// A query over the rows from `first` to `last`, counted from 1: it counts them, or sums their second column.
#[derive(Clone, Copy)]
struct Asked {
    first: u32,
    last: u32,
    sums: bool,
}

// So many queries over a table of so many rows, each over 2 to 6 of them.
fn drawn(alloc: Global, seed: u64, rows: u32, queries: u32) -> Result<Vec<Asked>, Fail> {
    let mut all = Vec::new(alloc);
    let mut word = seed;
    for _ in 0..queries {
        word = next(word);
        let first = (word >> 33) as u32 % rows.max(6).saturating_sub(5) + 1;
        word = next(word);
        all.push(Asked {
            first,
            last: first.saturating_add((word >> 33) as u32 % 5 + 1),
            sums: word >> 40 & 1 == 1,
        })?;
    }
    Ok(all)
}

// A table of so many rows, one in a chunk. The second column is ten times the first.
fn table_of(alloc: Global, rows: u32) -> Result<String, Fail> {
    let mut text = String::from_str(alloc, "n,k\n")?;
    for n in 1..=rows {
        let row = format!(in alloc; "{n},{n}0\n")?;
        text.push_str(row.as_str())?;
    }
    Ok(text)
}

fn statement_of(alloc: Global, asked: Asked) -> Result<String, Fail> {
    let Asked { first, last, sums } = asked;
    let item = if sums { "SUM(k)" } else { "COUNT(*)" };
    Ok(format!(in alloc; "SELECT {item} FROM t WHERE n >= {first} AND n <= {last}")?)
}

// Whether the answer is that over the table.
fn is_right(answer: &Answer, asked: Asked) -> bool {
    let Asked { first, last, sums } = asked;
    let mut wanted: i64 = 0;
    for n in first..=last {
        let here = if sums { 10 * i64::from(n) } else { 1 };
        wanted = wanted.saturating_add(here);
    }
    match answer {
        Answer::Rows(rows) => match rows.as_slice() {
            [row] => row.as_slice() == [Cell::Int(wanted)].as_slice(),
            _ => false,
        },
        _ => false,
    }
}

// Whether the answers are those over the table.
fn are_right(answers: &[Answer], asked: &[Asked]) -> bool {
    answers.len() == asked.len()
        && answers
            .iter()
            .zip(asked)
            .all(|(answer, one)| is_right(answer, *one))
}

// Queries over a table of so many rows, and how they run.
#[derive(Drop)]
struct Batch {
    asked: Vec<Asked>,
    rows: u32,
    options: Options,
}

// A batch with just the frames that are enough, and more chunks than these hold.
fn batch_of(alloc: Global, layout: Layout, workers: u32, seed: u64) -> Result<Batch, Fail> {
    let enough = workers.saturating_mul(3).saturating_add(1);
    let rows = enough.saturating_add(4);
    Ok(Batch {
        asked: drawn(alloc, seed, rows, workers.saturating_add(3))?,
        rows,
        options: Options {
            workers,
            frames: match layout {
                Layout::Row => enough,
                Layout::Column => enough.saturating_mul(2),
            },
            per: 1,
            layout,
            parts: 1,
        },
    })
}

fn statements_of(alloc: Global, asked: &[Asked]) -> Result<Vec<String>, Fail> {
    let mut texts = Vec::new(alloc);
    for one in asked {
        texts.push(statement_of(alloc, *one)?)?;
    }
    Ok(texts)
}

fn bytes_of(alloc: Global, texts: &[String]) -> Result<Vec<&[u8]>, Fail> {
    let mut all = Vec::new(alloc);
    for text in texts {
        all.push(text.as_bytes())?;
    }
    Ok(all)
}

// The chunks and the columns that a query needs.
fn need_of(alloc: Global, query: u32, worker: u32, asked: Asked) -> Result<Need, Fail> {
    let mut chunks = LinkedList::new(alloc);
    for row in asked.first..=asked.last {
        chunks.push_back(row.saturating_sub(1))?;
    }
    let mut columns = LinkedList::new(alloc);
    columns.push_back(0)?;
    if asked.sums {
        columns.push_back(1)?;
    }
    Ok(Need {
        query,
        worker,
        chunks,
        columns,
    })
}

// The needs of the queries, of which each worker runs each so many-th.
fn needs_of(alloc: Global, asked: &[Asked], workers: u32) -> Result<LinkedList<Need>, Fail> {
    let mut needs = LinkedList::new(alloc);
    let mut before: u32 = 0;
    for one in asked {
        let query = before.saturating_add(1);
        needs.push_back(need_of(alloc, query, before % workers.max(1), *one)?)?;
        before = query;
    }
    Ok(needs)
}

// The setting of the batch under the policy of this name.
fn setting_of(alloc: Global, name: PolicyName, batch: &Batch) -> Result<Setting, Fail> {
    let options = batch.options;
    Ok(Setting {
        needs: needs_of(alloc, &batch.asked, options.workers)?,
        chunks: batch.rows,
        workers: options.workers,
        frames: options.frames,
        groups: match options.layout {
            Layout::Row => 1,
            Layout::Column => 2,
        },
        policy: name,
        cursor: first_cursor(alloc, name)?,
    })
}

// Runs statements over a table under a policy.
fn end_under<R: Abort + RandomSource + Threads + Wait + Sync, P: Policy>(
    rt: &R,
    alloc: Global,
    text: &[u8],
    statements: &[&[u8]],
    options: Options,
    policy: P,
) -> Result<BatchEnd<MemDepot>, Fail> {
    let keys = RandomState::new(rt)?;
    let depot = MemDepot::new(alloc);
    match run_under(
        rt, alloc, keys, text, statements, options, depot, policy, &NoGate,
    )? {
        Ok(end) => Ok(end),
        Err(_) => panic!(rt; "refused"),
    }
}

// Runs statements over a table under a new policy of this name.
fn run_by<R: Abort + RandomSource + Threads + Wait + Sync>(
    rt: &R,
    alloc: Global,
    name: PolicyName,
    text: &[u8],
    statements: &[&[u8]],
    options: Options,
) -> Result<BatchEnd<MemDepot>, Fail> {
    match name {
        PolicyName::Relevance => end_under(rt, alloc, text, statements, options, Relevance),
        PolicyName::Elevator => end_under(rt, alloc, text, statements, options, Elevator::new()),
        PolicyName::Normal => end_under(rt, alloc, text, statements, options, Normal::new()),
        PolicyName::Attach => end_under(rt, alloc, text, statements, options, Attach::new()),
    }
}

// Runs the batch under a new policy of this name.
fn end_of<R: Abort + RandomSource + Threads + Wait + Sync>(
    rt: &R,
    alloc: Global,
    name: PolicyName,
    batch: &Batch,
) -> Result<BatchEnd<MemDepot>, Fail> {
    let text = table_of(alloc, batch.rows)?;
    let texts = statements_of(alloc, &batch.asked)?;
    let statements = bytes_of(alloc, &texts)?;
    run_by(rt, alloc, name, text.as_bytes(), &statements, batch.options)
}

// Whether the answers are those over the table, and the story is legal under its own policy, whole, undisturbed and
// licensed.
fn is_own(
    rt: &impl Abort,
    alloc: Global,
    name: PolicyName,
    batch: &Batch,
    end: &BatchEnd<MemDepot>,
) -> Result<bool, Fail> {
    let s = setting_of(alloc, name, batch)?;
    let is_sound = is_sound(rt, alloc, &s, &end.ran.story, end.depot.faults)?;
    Ok(is_sound && are_right(&end.answers, &batch.asked))
}

// By which of the four policies some stories aren't legal.
type Refused = [bool; 4];

fn either(one: Refused, other: Refused) -> Refused {
    [
        one[0] || other[0],
        one[1] || other[1],
        one[2] || other[2],
        one[3] || other[3],
    ]
}

// Each policy but the one of this name.
fn others(name: PolicyName) -> Refused {
    [
        POLICIES[0] != name,
        POLICIES[1] != name,
        POLICIES[2] != name,
        POLICIES[3] != name,
    ]
}

// By which policies the story isn't legal.
fn refused_by(
    rt: &impl Abort,
    alloc: Global,
    batch: &Batch,
    story: &[Entry],
) -> Result<Refused, Fail> {
    let mut refused = [false; 4];
    for place in 0..4 {
        let s = setting_of(alloc, POLICIES[place], batch)?;
        refused[place] = !is_legal(rt, alloc, &s, story)?;
    }
    Ok(refused)
}

// One batch under the policy of this name. By which policies its story isn't legal, where one worker makes it, so that
// it is always the same; else by none.
fn expect_batch<R: Abort + RandomSource + Threads + Wait + Sync>(
    rt: &R,
    alloc: Global,
    name: PolicyName,
    batch: &Batch,
) -> Result<Refused, Fail> {
    let end = end_of(rt, alloc, name, batch)?;
    assert!(rt; is_own(rt, alloc, name, batch, &end)?);
    if batch.options.workers > 1 {
        return Ok([false; 4]);
    }
    refused_by(rt, alloc, batch, &end.ran.story)
}

// A layout, the number of workers, and how many seeds draw a batch.
type Draws = (Layout, u32, u64);

const DRAWS: &[Draws] = &[
    (Layout::Row, 1, 8),
    (Layout::Row, 2, 2),
    (Layout::Row, 3, 2),
    (Layout::Row, 4, 2),
    (Layout::Column, 1, 8),
    (Layout::Column, 2, 2),
    (Layout::Column, 3, 2),
    (Layout::Column, 4, 2),
];

// The batches of each seed: by which policies some story isn't legal.
fn expect_seeds<R: Abort + RandomSource + Threads + Wait + Sync>(
    rt: &R,
    alloc: Global,
    name: PolicyName,
    draws: &Draws,
) -> Result<Refused, Fail> {
    let (layout, workers, seeds) = *draws;
    let mut refused = [false; 4];
    for seed in 0..seeds {
        let batch = batch_of(alloc, layout, workers, seed)?;
        refused = either(refused, expect_batch(rt, alloc, name, &batch)?);
    }
    Ok(refused)
}

// Batches under the policy of this name, on 1 to 4 workers and in both layouts.
fn expect_stories<R: Abort + RandomSource + Threads + Wait + Sync>(
    rt: &R,
    alloc: Global,
    name: PolicyName,
    draws: &[Draws],
) -> Result<(), Fail> {
    let mut refused = [false; 4];
    for one in draws {
        refused = either(refused, expect_seeds(rt, alloc, name, one)?);
    }
    assert!(rt; refused == others(name), "{refused:?}");
    Ok(())
}

#[test]
fn stories_of_relevance(rt: HostRuntime) -> Result<(), Fail> {
    expect_stories(&rt, rt.alloc(), PolicyName::Relevance, DRAWS)
}

#[test]
fn stories_of_elevator(rt: HostRuntime) -> Result<(), Fail> {
    expect_stories(&rt, rt.alloc(), PolicyName::Elevator, DRAWS)
}

#[test]
fn stories_of_normal(rt: HostRuntime) -> Result<(), Fail> {
    expect_stories(&rt, rt.alloc(), PolicyName::Normal, DRAWS)
}

#[test]
fn stories_of_attach(rt: HostRuntime) -> Result<(), Fail> {
    expect_stories(&rt, rt.alloc(), PolicyName::Attach, DRAWS)
}
