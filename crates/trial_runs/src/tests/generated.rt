// The generated job: one output, whatever the number of workers.
use super::{Left, run_beside};
use coop_outside::{Bytes, MemDepot};
use cscan::NoGate;
use scan_story::Entry;
use std::alloc::Global;
use std::process::Abort;
use std::random::RandomSource;
use std::sync::Wait;
use std::test::Fail;
use std::thread::Threads;

fn deliveries(story: &[Entry]) -> u64 {
    let mut count: u64 = 0;
    for entry in story {
        if let Entry::Deliver { .. } = *entry {
            count = count.saturating_add(1);
        }
    }
    count
}

// Whether the output has the two counts, and ends with the summary.
fn is_told(output: &[u8]) -> bool {
    let end = b"summary: 8 queries, 8 answered, 1276 deliveries, 200000 rows\n".as_slice();
    output.starts_with(b"query 1\n200000\nquery 2\n")
        && output
            .windows(14)
            .any(|text| text == b"query 4\n1000\nq".as_slice())
        && output.ends_with(end)
}

// Whether the run has the deliveries, at most as many gets, and the output.
fn is_done(left: &Left<MemDepot>) -> bool {
    let gets = left.ended.depot.gets;
    left.ended.status == 0
        && deliveries(&left.ended.story) == 1276
        && gets <= 1276
        && is_told(left.output.as_slice())
}

// The output of the job, which is done as it should.
fn output_of<R: Abort + RandomSource + Threads + Wait + Sync>(
    rt: &R,
    alloc: Global,
    words: &str,
) -> Result<Bytes, Fail> {
    let depot = MemDepot::new(alloc);
    let left = run_beside(rt, alloc, words, b"", b"", depot, &NoGate)?;
    assert!(rt; is_done(&left), "{words}");
    Ok(left.output)
}

#[test]
fn the_generated_job_on_1_2_and_4_workers(rt: HostRuntime) -> Result<(), Fail> {
    let alloc = rt.alloc();
    let one = output_of(&rt, alloc, "--threads 1 --summary gen:7:200000 gen")?;
    let two = output_of(&rt, alloc, "--threads 2 --summary gen:7:200000 gen")?;
    let four = output_of(&rt, alloc, "--threads 4 --summary gen:7:200000 gen")?;
    assert!(rt; one.as_slice() == two.as_slice() && one.as_slice() == four.as_slice());
    Ok(())
}
