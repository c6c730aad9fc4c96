// What every schedule gives.
ghost use Rattle.std.specs.Prelude.{◌≡◌, ◌<◌, ◌↔◌, ◌^◌, IsNone, IsTrue, List, Some, length, ℕ};

use crate::experiment::Experiment;
use crate::plain::{TooFew, play_plain};
use crate::play::play_under;
use crate::played::Played;
use crate::policies::{WAYS, Way, name_text, way_text};
use crate::range_query::{RangeQuery, chunks_needed};
use anyhow::Result;
use coop_outside::Bytes;
use scan_story::PolicyName;
use std::process::ExitCode;
use std::sync::Wait;
use std::thread::Threads;

// Whether the answers are those of the first policy.
fn agree(first: &Option<Bytes>, answers: &Bytes) -> bool
    ensures first { IsNone first.now → IsTrue result }
    ensures same { (bytes : List ℕ) → first.now ≡ Some bytes → IsTrue result ↔ (bytes ≡ answers.now) }
{
    match first {
        Some(first) => first.as_slice() == answers.as_slice(),
        None => true,
    }
}

// Plays the queries under a policy, and prints what no schedule changes. Whether it is as it has to be; where there are
// no answers yet, those of this run are they.
fn check_policy<R: Threads + Wait + Sync>(
    handle: &R,
    rt: HostRuntime,
    experiment: &Experiment,
    queries: &[RangeQuery],
    name: PolicyName,
    first: &mut Option<Bytes>,
) -> Result<bool>
    requires few { length queries.now < 2 ^ 32 }
{
    let needed = chunks_needed(queries, experiment.chunk_rows);
    let played = play_under(handle, rt, experiment, experiment.streams, queries, name)?;
    let (text, status, delivered) = (name_text(name), played.status, played.taken.len() as u64);
    let counted = played.gets == played.reads;
    let same = agree(first, &played.answers);
    println!(rt;
        "{text}: status {status}, {delivered} chunks delivered, gets counted: {counted}, same answers: {same}"
    )?;
    if first.is_none() {
        let Played { answers, .. } = played;
        *first = Some(answers);
    }
    Ok(status == 0 && delivered == needed && counted && same)
}

// Plays the queries over a plain buffer manager, and prints what no schedule changes. Whether it is as it has to be.
fn check_plain<R: Threads + Wait + Sync>(
    handle: &R,
    rt: HostRuntime,
    experiment: &Experiment,
    queries: &[RangeQuery],
    attaches: bool,
) -> Result<bool>
    requires few { length queries.now < 2 ^ 32 }
{
    let text = way_text(Way::Plain { attaches });
    if experiment.frames < experiment.streams {
        println!(rt; "{text}: {}", TooFew(experiment))?;
        return Ok(false);
    }
    let needed = chunks_needed(queries, experiment.chunk_rows);
    let played = play_plain(handle, rt, experiment, queries, attaches)?;
    let (status, taken) = (played.status, played.taken.len() as u64);
    println!(rt; "{text}, not the engine: status {status}, {taken} chunks handed out")?;
    Ok(status == 0 && taken == needed)
}

/// Plays the queries in each way, and prints of each run what no schedule changes: its status, and that each chunk
/// which a query needs was handed to it once; and under a policy that the depot counted a get for each read of the
/// story, and that the answers are those of the first policy. It ends with 0 where all of this is so, and else with 1.
pub(crate) fn check<R: Threads + Wait + Sync>(
    handle: &R,
    rt: HostRuntime,
    experiment: &Experiment,
    queries: &[RangeQuery],
) -> Result<ExitCode>
    requires few { length queries.now < 2 ^ 32 }
{
    let needed = chunks_needed(queries, experiment.chunk_rows);
    let (count, streams) = (queries.len(), experiment.streams);
    println!(rt; "{count} queries in {streams} streams need {needed} chunks")?;
    let mut first: Option<Bytes> = None;
    let mut good = true;
    for way in WAYS {
        let is_right = match way {
            Way::Under(name) => check_policy(handle, rt, experiment, queries, name, &mut first)?,
            Way::Plain { attaches } => check_plain(handle, rt, experiment, queries, attaches)?,
        };
        good = good && is_right;
    }
    Ok(ExitCode::from(u8::from(!good)))
}
