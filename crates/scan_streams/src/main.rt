//! `scan_streams`: plays streams of range queries over a generated table under each policy, with a depot that takes its
//! time for each get, and tells what was read and how long streams and queries took.
//!
//! It embeds coop_run with a depot and a gate of its own: `SlowDepot` sleeps before each get, and `TimingGate` notes
//! when a query had its chunks, and works long on those of slow queries. `scan_streams --help` lists its words;
//! docs/POLICIES.md and docs/BENCHMARKS.md have what was measured with it.
#![tactic(auto)]

mod check;
mod experiment;
mod kind;
mod lru_pool;
mod ordered_scan;
mod permits;
mod plain;
mod play;
mod played;
mod policies;
mod range_query;
mod report;
mod slow_depot;
mod times;
mod timing_gate;
mod watch;
mod words;

use crate::check::check;
use crate::range_query::{drawn, with_starters};
use crate::report::{Wanted, report};
use crate::words::{command, experiment_of};
use anyhow::Result;
use clap::ArgMatches;
use std::env;
use std::process::ExitCode;
use std::sync::Wait;
use std::thread::Threads;

// Plays what the words ask for.
fn play_words<R: Threads + Wait + Sync>(
    handle: &R,
    rt: HostRuntime,
    matches: &ArgMatches<'_>,
) -> Result<ExitCode> {
    let experiment = experiment_of(matches);
    let queries = with_starters(rt.alloc(), &experiment, drawn(rt.alloc(), &experiment)?)?;
    if matches.get_flag("check") {
        return check(handle, rt, &experiment, &queries);
    }
    let wanted = Wanted {
        name: matches.get_str("policy").unwrap_or("all"),
        each: matches.get_flag("each"),
        trace: matches.get_flag("trace"),
    };
    report(handle, rt, &experiment, &queries, wanted)
}

fn main(rt: HostRuntime) -> Result<ExitCode> {
    let alloc = rt.alloc();
    let words: Vec<String> = env::args(&rt)?.collect(alloc)?;
    match command(alloc)?.try_get_matches_from(words.as_slice()) {
        Ok(matches) => play_words(&rt, rt, &matches),
        Err(error) => {
            error.print(&rt)?;
            Ok(ExitCode::from(error.exit_code() as u8))
        }
    }
}
