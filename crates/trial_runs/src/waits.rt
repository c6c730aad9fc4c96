// Batches that make scans wait, each answered as one worker answers it that never sleeps.
mod cases;
mod slow_depot;
mod slow_gate;

use crate::tests::{shelf_of, sink_of, words_of};
use crate::waits::cases::{CHUNKS_OF_OTHERS, Case, FAILING, FAILING_GET, SLOW_SCAN, WAITING, WIDE};
use crate::waits::slow_depot::SlowDepot;
use crate::waits::slow_gate::SlowGate;
use coop_outside::{Bytes, MemShelf};
use coop_run::run;
use relevance::Relevance;
use std::alloc::Global;
use std::hash::RandomState;
use std::sync::Wait;
use std::test::Fail;
use std::thread::Threads;

// The batch of a case.
fn batch_of(alloc: Global, case: &Case<'_>) -> Result<Vec<u8>, Fail> {
    let mut text = Vec::new(alloc);
    for _ in 0..case.times {
        text.extend_from_slice(case.statement.as_bytes())?;
    }
    Ok(text)
}

// A shelf with the table of sixteen columns and the batch of a case.
fn case_shelf(alloc: Global, case: &Case<'_>) -> Result<MemShelf, Fail> {
    shelf_of(alloc, WIDE.as_bytes(), &batch_of(alloc, case)?)
}

// What a run comes to, and how many chunks the other queries had taken when the slow one had worked on its last.
#[derive(Drop)]
struct Seen {
    status: u8,
    text: Bytes,
    others_before_last: u64,
}

// Runs a case over a depot whose gets of these numbers fail.
fn run_case<R: Threads + Wait + Sync>(
    handle: &R,
    rt: HostRuntime,
    case: &Case<'_>,
    fail_gets: &[u64],
) -> Result<Seen, Fail> {
    let alloc = rt.alloc();
    let words = words_of(alloc, case.words)?;
    let (mut shelf, mut out) = (case_shelf(alloc, case)?, sink_of(alloc, usize::MAX));
    let depot = SlowDepot::new(alloc, rt, case.get_us, Vec::from_slice(alloc, fail_gets)?);
    let gate = SlowGate::new(rt, case.slow_query, case.slow_us);
    let keys = RandomState::new(&rt)?;
    let ended = run(
        handle, alloc, keys, &words, &mut shelf, depot, Relevance, &gate, &mut out,
    );
    Ok(Seen {
        status: ended.status,
        text: out.taken,
        others_before_last: gate.others_before_last(),
    })
}

// Runs a case where nobody sleeps.
fn run_calm<R: Threads + Wait + Sync>(
    handle: &R,
    rt: HostRuntime,
    case: &Case<'_>,
) -> Result<Seen, Fail> {
    let calm = Case {
        get_us: 0,
        slow_us: 0,
        ..*case
    };
    run_case(handle, rt, &calm, &[])
}

// Whether the case is answered as where nobody sleeps.
fn is_answered<R: Threads + Wait + Sync>(
    handle: &R,
    rt: HostRuntime,
    case: &Case<'_>,
) -> Result<bool, Fail> {
    let (seen, calm) = (
        run_case(handle, rt, case, &[])?,
        run_calm(handle, rt, case)?,
    );
    Ok(seen.status == 0 && seen.text.as_slice() == calm.text.as_slice())
}

// Whether a line of the run is this one.
fn has_line(seen: &Seen, line: &[u8]) -> bool {
    seen.text
        .as_slice()
        .split(|byte| *byte == b'\n')
        .any(|known| known == line)
}

fn is_lost(line: &[u8]) -> bool {
    line.ends_with(b": read fault")
}

// How many queries were stopped, where each other line is one of the calm run's.
fn lost(seen: &Seen, calm: &Seen) -> Option<usize> {
    let mut count: usize = 0;
    for line in seen.text.as_slice().split(|byte| *byte == b'\n') {
        if is_lost(line) {
            count = count.saturating_add(1);
        } else if !has_line(calm, line) {
            return None;
        }
    }
    Some(count)
}

#[test]
fn scans_that_wait_are_answered(rt: HostRuntime) -> Result<(), Fail> {
    for place in 0..WAITING.len() {
        let is_answered = is_answered(&rt, rt, &WAITING[place])?;
        assert!(rt; is_answered, "case {place}");
    }
    Ok(())
}

#[test]
fn a_get_that_takes_long_and_fails_stops_one_query(rt: HostRuntime) -> Result<(), Fail> {
    let seen = run_case(&rt, rt, &FAILING, &[FAILING_GET])?;
    let lost = lost(&seen, &run_calm(&rt, rt, &FAILING)?);
    assert!(rt; seen.status == 1 && lost == Some(1));
    Ok(())
}

#[test]
fn a_scan_that_works_long_holds_up_no_other(rt: HostRuntime) -> Result<(), Fail> {
    let seen = run_case(&rt, rt, &SLOW_SCAN, &[])?;
    assert!(rt; seen.status == 0 && seen.others_before_last == CHUNKS_OF_OTHERS);
    Ok(())
}
