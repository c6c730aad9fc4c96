//! `coop_inspect`: explains a batch of coop_cli, judges the output of a run, tells its setting, or draws it.
//! docs/INSPECT.md is its manual. `main` hands `inspect` of inspect_calls the words, the files of the system, standard
//! output and standard error; the theorem is `inspect`'s.
#![tactic(auto)]

mod words;

use crate::words::unread;
use command_words::{all_words, behind_name};
use coop_outside::{DiskShelf, StdoutSink};
use inspect_calls::{StderrSink, inspect, say};
use std::hash::RandomState;
use std::io;
use std::process::ExitCode;
use std::thread::Threads;

// Runs the program over the files of the system, and answers its status; or why the words could not be had.
fn inspect_on<R: Threads + Sync>(
    handle: &R,
    rt: HostRuntime,
    out: &mut StdoutSink<HostRuntime>,
    err: &mut StderrSink,
) -> io::Result<u8> {
    let all = all_words(&rt)?;
    let keys = RandomState::new(&rt)?;
    let mut shelf = DiskShelf::new(rt);
    Ok(inspect(
        handle,
        rt.alloc(),
        keys,
        behind_name(&all),
        &mut shelf,
        out,
        err,
    ))
}

fn main(rt: HostRuntime) -> ExitCode {
    let mut out = StdoutSink::new(rt);
    let mut err = StderrSink::new(rt);
    let status = match inspect_on(&rt, rt, &mut out, &mut err) {
        Ok(status) => status,
        Err(error) => say(&unread(rt.alloc(), &error), &mut out, &mut err),
    };
    ExitCode::from(status)
}
