// What was read, and how long streams and queries took.
ghost use Rattle.std.specs.Prelude.{◌<◌, ◌^◌, ◌≡◌, IfOk, IfSome, length, vec_len};

use crate::experiment::Experiment;
use crate::kind::{KINDS, Kind};
use crate::plain::{TooFew, play_plain};
use crate::play::play_under;
use crate::played::Played;
use crate::policies::{WAYS, Way, way_text};
use crate::range_query::RangeQuery;
use crate::times::{Millis, average};
use anyhow::Result;
use coop_outside::{StdoutSink, write_all};
use scan_story::PolicyName;
use std::alloc::{AllocError, Global};
use std::io;
use std::process::ExitCode;
use std::sync::Wait;
use std::thread::Threads;

// How long a query of a kind takes that runs alone, in microseconds.
#[derive(Clone, Copy, Debug)]
struct Alone {
    kind: Kind,
    time: u32,
}

// Plays the first query of each kind alone, on one worker.
fn times_alone<R: Threads + Wait + Sync>(
    handle: &R,
    rt: HostRuntime,
    experiment: &Experiment,
    queries: &[RangeQuery],
) -> Result<Vec<Alone>> {
    let mut times = Vec::new(rt.alloc());
    for number in 0..KINDS {
        let kind = Kind::numbered(number);
        let Some(query) = queries.iter().find(|query| query.kind == kind) else {
            continue;
        };
        let played = play_under(handle, rt, experiment, 1, &[*query], PolicyName::Relevance)?;
        let time = played.query_time(0).unwrap_or(0);
        times.push(Alone { kind, time })?;
    }
    Ok(times)
}

// Prints what is played.
fn print_experiment(rt: &impl Print, experiment: &Experiment) -> io::Result<()> {
    let Experiment {
        streams,
        queries,
        frames,
        get_us,
        slow_us,
        ..
    } = *experiment;
    let chunks = experiment.chunks();
    println!(rt;
        "{streams} streams of {queries} queries over {chunks} chunks with {frames} frames, a get of {get_us} us, a \
slow chunk of {slow_us} us"
    )
}

// Prints what a run read, and how long its streams took.
fn print_run(
    rt: &impl Print,
    alloc: Global,
    way: Way,
    starters: usize,
    played: &Played,
) -> io::Result<()>
    requires few { vec_len played.now.ends < 2 ^ 32 }
{
    let times = played.stream_times(alloc, starters > 0)?;
    let (reads, deliveries) = (played.reads, played.taken.len().saturating_sub(starters));
    let stream = Millis(average(&times));
    let (all, work) = (Millis(played.all_time()), Millis(played.work));
    let text = way_text(way);
    println!(rt;
        "{text}: {reads} reads, {deliveries} deliveries, a stream {stream} ms, all {all} ms, work {work} ms"
    )
}

// Prints how long the queries of each kind took, beside the time of one alone.
fn print_kinds(
    rt: &impl Print,
    alloc: Global,
    played: &Played,
    queries: &[RangeQuery],
    alone: &[Alone],
) -> io::Result<()>
    requires few { length queries.now < 2 ^ 32 }
{
    for Alone { kind, time } in alone {
        let times = played.kind_times(alloc, queries, *kind)?;
        let (count, took, single) = (times.len(), Millis(average(&times)), Millis((*time).into()));
        println!(rt; "{kind}: {count} queries, {took} ms, alone {single} ms")?;
    }
    Ok(())
}

// Prints how long each query took, beside the time of one of its kind alone.
fn print_queries(
    rt: &impl Print,
    played: &Played,
    queries: &[RangeQuery],
    alone: &[Alone],
) -> io::Result<()> {
    for (place, query) in queries.iter().enumerate() {
        let (kind, took) = (query.kind, played.query_time(place).unwrap_or(0));
        let single = alone
            .iter()
            .find(|one| one.kind == kind)
            .map_or(0, |one| one.time);
        let (number, took, single) = (place + 1, Millis(took.into()), Millis(single.into()));
        println!(rt; "query {number}, {kind}: {took} ms, alone {single} ms")?;
    }
    Ok(())
}

// Prints the chunks of each query.
fn print_needs(rt: &impl Print, experiment: &Experiment, queries: &[RangeQuery]) -> io::Result<()> {
    for (place, query) in queries.iter().enumerate() {
        let stream = place % (experiment.streams as usize);
        let (first, chunks) = (
            query.least / experiment.chunk_rows,
            query.chunks(experiment.chunk_rows),
        );
        println!(rt; "needs: stream {stream}, {chunks} chunks from {first} on")?;
    }
    Ok(())
}

// Prints the chunks that a run handed out, in their order.
fn print_taken(rt: &impl Print, alloc: Global, way: Way, played: &Played) -> Result<()> {
    let mut line = String::new(alloc);
    for chunk in &played.taken {
        write!(line, " {chunk}")?;
    }
    let text = way_text(way);
    println!(rt; "{text} handed out:{line}")?;
    Ok(())
}

/// What is to be played, and what is told of it.
#[derive(Clone, Copy, Debug)]
pub(crate) struct Wanted<'a> {
    /// The name of a way, or `all`.
    pub name: &'a str,
    /// The time of each query is told.
    pub each: bool,
    /// The chunks of each query are told, and those that a run hands out.
    pub trace: bool,
}

// Plays the queries in a way; not at all where that is a plain buffer manager and frames are too few.
fn play_in<R: Threads + Wait + Sync>(
    handle: &R,
    rt: HostRuntime,
    experiment: &Experiment,
    queries: &[RangeQuery],
    way: Way,
) -> Result<Option<Played>>
    requires few { length queries.now < 2 ^ 32 }
    ensures each { IfOk result (λ run. IfSome run (λ played. vec_len played.ends ≡ length queries.now)) }
{
    let streams = experiment.streams;
    let played = match way {
        Way::Under(name) => play_under(handle, rt, experiment, streams, queries, name)?,
        Way::Plain { attaches } => {
            if experiment.frames < streams {
                return Ok(None);
            }
            play_plain(handle, rt, experiment, queries, attaches)?
        }
    };
    Ok(Some(played))
}

/// Plays the queries in the way of a name, or in each in turn for `all`, and prints what was read, how long streams
/// took on average, and how long the queries of each kind took beside one alone; and what else is wanted. A run that
/// stops or loses a query ends the work with its status, and what it wrote is printed.
pub(crate) fn report<R: Threads + Wait + Sync>(
    handle: &R,
    rt: HostRuntime,
    experiment: &Experiment,
    queries: &[RangeQuery],
    wanted: Wanted<'_>,
) -> Result<ExitCode>
    requires few { length queries.now < 2 ^ 32 }
{
    print_experiment(&rt, experiment)?;
    if wanted.trace {
        print_needs(&rt, experiment, queries)?;
    }
    let alone = times_alone(handle, rt, experiment, queries)?;
    for way in WAYS {
        if wanted.name != "all" && wanted.name != way_text(way) {
            continue;
        }
        let Some(played) = play_in(handle, rt, experiment, queries, way)? else {
            let text = way_text(way);
            eprintln!(rt; "{text}: {}", TooFew(experiment))?;
            return Ok(ExitCode::from(2));
        };
        if played.status != 0 {
            let _ = write_all(&mut StdoutSink::new(rt), played.answers.as_slice());
            return Ok(ExitCode::from(played.status));
        }
        print_run(&rt, rt.alloc(), way, experiment.starters(), &played)?;
        print_kinds(&rt, rt.alloc(), &played, queries, &alone)?;
        if wanted.each {
            print_queries(&rt, &played, queries, &alone)?;
        }
        if wanted.trace {
            print_taken(&rt, rt.alloc(), way, &played)?;
        }
    }
    Ok(ExitCode::SUCCESS)
}
