//! `example_inspect CALL..`: calls of coop_inspect, one behind another. Each of its words is a call with the words of
//! it, one blank apart. It prints a line with the call, what the call says on standard output, and a line with its
//! status.
#![tactic(auto)]

use coop_outside::{DiskShelf, StdoutSink};
use inspect_calls::{StderrSink, inspect};
use std::hash::RandomState;
use std::thread::Threads;
use std::{env, io};

// Makes one call over the files of the system, and answers its status.
fn make<R: Threads + Sync>(handle: &R, rt: HostRuntime, call: &str) -> io::Result<u8> {
    let alloc = rt.alloc();
    let mut words = Vec::new(alloc);
    for word in call.split(' ') {
        words.push(String::from_str(alloc, word)?)?;
    }
    let keys = RandomState::new(&rt)?;
    let (mut out, mut err) = (StdoutSink::new(rt), StderrSink::new(rt));
    let mut shelf = DiskShelf::new(rt);
    Ok(inspect(handle, alloc, keys, &words, &mut shelf, &mut out, &mut err))
}

fn main(rt: HostRuntime) -> io::Result<()> {
    for call in env::args(&rt)?.skip(1) {
        println!(rt; "$ coop_inspect {call}")?;
        let status = make(&rt, rt, &call)?;
        println!(rt; "status {status}")?;
    }
    Ok(())
}
