// A run of queries under a policy.
ghost use Rattle.std.specs.Prelude.{◌≡◌, IfOk, length, vec_len};
ghost use Rattle.command_words.specs.Limits.{IsFrom};
ghost use Rattle.command_words.specs.declared.limits.TheConstants.{MOST_WORKERS};

use crate::experiment::{BATCH, Experiment};
use crate::played::Played;
use crate::range_query::{RangeQuery, batch_text};
use crate::slow_depot::SlowDepot;
use crate::timing_gate::TimingGate;
use crate::watch::Watch;
use anyhow::Result;
use coop_outside::{Bytes, MemShelf, MemSink};
use coop_run::run_settings;
use policy_box::{Boxed, Elevator};
use policy_plain::{Attach, Normal};
use relevance::{Policy, Relevance};
use run_ends::Counts;
use scan_story::{Entry, PolicyName};
use std::alloc::{AllocError, Global};
use std::hash::RandomState;
use std::sync::Wait;
use std::thread::Threads;

// A shelf with one file.
fn shelf_with(alloc: Global, name: &str, text: String) -> Result<MemShelf, AllocError> {
    let mut files = Vec::new(alloc);
    files.push((
        String::from_str(alloc, name)?,
        Bytes::new(text.into_bytes()),
    ))?;
    Ok(MemShelf {
        files,
        fail_reads: Vec::new(alloc),
        calls: 0,
        faults: 0,
    })
}

// A sink that takes whatever it is given.
fn sink(alloc: Global) -> MemSink {
    MemSink {
        taken: Bytes::new(Vec::new(alloc)),
        per_call: usize::MAX,
        fail_writes: Vec::new(alloc),
        calls: 0,
        faults: 0,
    }
}

// The chunks that were delivered, in their order.
fn delivered(alloc: Global, story: &[Entry]) -> Result<Vec<u32>, AllocError> {
    let mut chunks = Vec::new(alloc);
    for entry in story {
        if let Entry::Deliver { chunk, .. } = entry {
            chunks.push(*chunk)?;
        }
    }
    Ok(chunks)
}

// Plays the queries under a policy, on so many workers.
fn play<R: Threads + Wait + Sync>(
    handle: &R,
    rt: HostRuntime,
    experiment: &Experiment,
    workers: u32,
    queries: &[RangeQuery],
    policy: Boxed,
) -> Result<Played>
    requires workers { IsFrom 1 MOST_WORKERS workers }
    ensures each { IfOk result (λ played. vec_len played.ends ≡ length queries.now) }
{
    let alloc = rt.alloc();
    let settings = experiment.settings(alloc, workers)?;
    let mut shelf = shelf_with(alloc, BATCH, batch_text(alloc, queries)?)?;
    let mut out = sink(alloc);
    let watch = Watch::new(rt)?;
    let depot = SlowDepot::new(alloc, watch, experiment.get_us);
    let gate = TimingGate::new(alloc, watch, queries, experiment)?;
    let keys = RandomState::new(&rt)?;
    let ended = run_settings(
        handle, alloc, keys, &settings, &mut shelf, depot, policy, &gate, &mut out,
    );
    let MemSink { taken, .. } = out;
    Ok(Played {
        status: ended.status,
        answers: taken,
        gets: ended.depot.gets(),
        reads: Counts::of(&ended.story).reads,
        taken: delivered(alloc, &ended.story)?,
        work: gate.worked(),
        streams: workers as usize,
        began: ended.depot.filled_at(),
        ends: gate.ends(alloc)?,
    })
}

/// Plays the queries under the policy of a name, on so many workers. The error is out of memory, or one of the system's
/// clock or of its random numbers; a run that stops, or loses a query, is no error but a status.
pub(crate) fn play_under<R: Threads + Wait + Sync>(
    handle: &R,
    rt: HostRuntime,
    experiment: &Experiment,
    workers: u32,
    queries: &[RangeQuery],
    name: PolicyName,
) -> Result<Played>
    requires workers { IsFrom 1 MOST_WORKERS workers }
    ensures each { IfOk result (λ played. vec_len played.ends ≡ length queries.now) }
{
    let alloc = rt.alloc();
    let policy: Box<dyn Policy + Send> = match name {
        PolicyName::Relevance => Box::new(alloc, Relevance)?,
        PolicyName::Elevator => Box::new(alloc, Elevator::new())?,
        PolicyName::Normal => Box::new(alloc, Normal::new())?,
        PolicyName::Attach => Box::new(alloc, Attach::new())?,
    };
    play(handle, rt, experiment, workers, queries, Boxed { policy })
}
