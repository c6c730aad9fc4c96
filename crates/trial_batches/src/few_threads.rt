// Fewer threads than workers: a thread runs several workers, one after another, as the caller does with a worker whose
// thread is refused.
use crate::batches::{COUNT, run_on_threads};
use crate::stress::TABLE;
use crate::wanted::{Wanted, are_wanted};
use batch_run::{BatchEnd, Options};
use coop_outside::MemDepot;
use cscan::{Delivery, Gate};
use piece_format::Layout;
use relevance::Relevance;
use scan_story::Entry;
use std::alloc::Global;
use std::hash::RandomState;
use std::process::Abort;
use std::random::RandomSource;
use std::sync::Wait;
use std::test::Fail;
use std::thread;
use std::thread::Threads;
use table_core::Cell::Int;

// Each worker has two scans, this many queries apart.
const WORKERS: u32 = 6;

// More chunks than frames.
const OPTIONS: Options = Options {
    workers: WORKERS,
    frames: 19,
    per: 1,
    layout: Layout::Row,
    parts: 1,
};

const SUM: &[u8] = b"SELECT SUM(n) FROM t";

const STATEMENTS: &[&[u8]] = &[
    COUNT, SUM, COUNT, SUM, COUNT, SUM, COUNT, SUM, COUNT, SUM, COUNT, SUM,
];

const ROWS: Wanted = Wanted::Rows(&[&[Int(28)]]);

const TOTAL: Wanted = Wanted::Rows(&[&[Int(406)]]);

const ANSWERS: &[Wanted] = &[
    ROWS, TOTAL, ROWS, TOTAL, ROWS, TOTAL, ROWS, TOTAL, ROWS, TOTAL, ROWS, TOTAL,
];

// Lets other threads go first at each chunk, so that they are amid their scans too.
#[derive(Drop)]
struct Yielding;

impl Gate for Yielding {
    type Called = Delivery;

    ghost delivery_of = { λ delivery. delivery };

    fn holding<R: Wait>(&self, _rt: &R, delivery: Delivery) -> Delivery {
        thread::yield_now();
        delivery
    }
}

// The most workers that were amid their scans at once: each from the Register of its first to the End of its last.
fn most_at_once(story: &[Entry]) -> u32 {
    let mut now: u32 = 0;
    let mut most: u32 = 0;
    for entry in story {
        match *entry {
            Entry::Register { query, .. } if query <= WORKERS => {
                now = now.saturating_add(1);
                most = most.max(now);
            }
            Entry::End { query, .. } if query > WORKERS => now = now.saturating_sub(1),
            _ => {}
        }
    }
    most
}

fn ends(story: &[Entry]) -> usize {
    story
        .iter()
        .filter(|entry| matches!(entry, Entry::End { .. }))
        .count()
}

// The end of the batch where at most so many threads start.
fn end_with<R: Abort + RandomSource + Threads + Wait + Sync>(
    rt: &R,
    alloc: Global,
    most_threads: u32,
) -> Result<BatchEnd<MemDepot>, Fail> {
    let keys = RandomState::new(rt)?;
    let (text, depot) = (TABLE.as_bytes(), MemDepot::new(alloc));
    let ended = run_on_threads(
        rt,
        alloc,
        keys,
        text,
        STATEMENTS,
        OPTIONS,
        depot,
        Relevance,
        &Yielding,
        most_threads,
    )?;
    match ended {
        Ok(end) => Ok(end),
        Err(_) => panic!(rt; "refused"),
    }
}

// Whether each query is answered, each scan ends, and no more workers are at work at once than there are threads.
fn is_right_end(end: &BatchEnd<MemDepot>, most_threads: u32) -> bool {
    let story = end.ran.story.as_slice();
    are_wanted(&end.answers, ANSWERS)
        && ends(story) == STATEMENTS.len()
        && most_at_once(story) <= most_threads.saturating_add(1)
}

#[test]
fn workers_without_a_thread_of_their_own_run_one_after_another(
    rt: HostRuntime,
) -> Result<(), Fail> {
    for most_threads in 0..WORKERS {
        let end = end_with(&rt, rt.alloc(), most_threads)?;
        assert!(rt; is_right_end(&end, most_threads), "{most_threads}");
    }
    Ok(())
}
