//! Settings at random.
ghost use Rattle.std.specs.Prelude.{◌+◌, ◌<◌, ◌≤◌, IfOk, length};
ghost use Rattle.help_views.specs.Small.{IsSmall};

use help_stories::first_cursor;
use rand_core::Rng;
use rand_pcg::Pcg32;
use scan_story::{Need, PolicyName, Setting};
use std::alloc::{AllocError, Global};
use std::collections::LinkedList;

/// Some of the numbers below `n`, rising: each by the toss of a coin, and the last one always.
fn some_of(alloc: Global, rng: &mut Pcg32, n: u32) -> Result<LinkedList<u32>, AllocError> {
    let mut numbers = LinkedList::new(alloc);
    for i in 0..n {
        if i + 1 == n || rng.next_u32() % 4 != 0 {
            numbers.push_back(i)?;
        }
    }
    Ok(numbers)
}

fn some_need(
    alloc: Global,
    rng: &mut Pcg32,
    query: u32,
    worker: u32,
    chunks: u32,
    groups: u32,
) -> Result<Need, AllocError> {
    let chunks = some_of(alloc, rng, chunks)?;
    let columns = some_of(alloc, rng, groups)?;
    Ok(Need {
        query,
        worker,
        chunks,
        columns,
    })
}

/// Adds needs of so many queries: each of one worker, round the workers.
fn add_needs(
    alloc: Global,
    rng: &mut Pcg32,
    queries: u32,
    workers: u32,
    chunks: u32,
    groups: u32,
    needs: &mut LinkedList<Need>,
) -> Result<(), AllocError>
    requires { 0 < workers }
    ensures { IfOk result (λ _. length needs.new ≤ length needs.old + queries) }
{
    for i in 0..queries {
        let need = some_need(alloc, rng, i + 1, i % workers, chunks, groups)?;
        needs.push_back(need)?;
    }
    Ok(())
}

/// Needs of so many queries.
fn some_needs(
    alloc: Global,
    rng: &mut Pcg32,
    queries: u32,
    workers: u32,
    chunks: u32,
    groups: u32,
) -> Result<LinkedList<Need>, AllocError>
    requires { 0 < workers }
    ensures { IfOk result (λ needs. length needs ≤ queries) }
{
    let mut needs = LinkedList::new(alloc);
    add_needs(alloc, rng, queries, workers, chunks, groups, &mut needs)?;
    Ok(needs)
}

/// A setting of the policy with just the frames that so many workers must have. Each worker has a query, one worker
/// alone has two, and at times there is one more. Each query needs most of the chunks and reads most of the groups.
/// The error is out of memory.
pub fn some_setting(
    alloc: Global,
    policy: PolicyName,
    chunks: u32,
    workers: u32,
    groups: u32,
    rng: &mut Pcg32,
) -> Result<Setting, AllocError>
    requires workers { (0 < workers) × (workers ≤ 32) }
    requires groups { (0 < groups) × (groups ≤ 16) }
    ensures { IfOk result IsSmall }
{
    let more: u32 = if rng.next_u32() % 4 == 0 { 1 } else { 0 };
    let queries = workers.max(2) + more;
    let needs = some_needs(alloc, rng, queries, workers, chunks, groups)?;
    let cursor = first_cursor(alloc, policy)?;
    Ok(Setting {
        needs,
        chunks,
        workers,
        frames: (3 * workers + 1) * groups,
        groups,
        policy,
        cursor,
    })
}
