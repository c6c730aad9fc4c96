//! Embeds the engine: `example_embedded TABLE BATCH` answers a batch over a table, over a depot of this program's own.
#![tactic(auto)]

use coop_outside::{Depot, DepotFault, DiskShelf, Failed, MemDepot, StdoutSink};
use coop_run::run;
use cscan::NoGate;
use relevance::Relevance;
use std::hash::RandomState;
use std::process::ExitCode;
use std::{env, io};

/// A depot in memory that counts the bytes which are put into it.
#[derive(Drop)]
struct CountingDepot {
    pieces: MemDepot,
    bytes: u64,
}

impl Depot for CountingDepot {
    ghost held = { λ d. ⟦<MemDepot as Depot>⟧.held d.pieces };

    ghost gets = { λ d. ⟦<MemDepot as Depot>⟧.gets d.pieces };

    ghost faults = { λ d. ⟦<MemDepot as Depot>⟧.faults d.pieces };

    fn put(&mut self, piece: u32, bytes: &[u8]) -> Result<(), DepotFault> {
        self.bytes = self.bytes.saturating_add(bytes.len() as u64);
        self.pieces.put(piece, bytes)
    }

    fn get(&mut self, piece: u32, buf: &mut [u8]) -> Result<(), Failed> {
        self.pieces.get(piece, buf)
    }

    fn faults(&self) -> u64 {
        self.pieces.faults()
    }
}

fn main(rt: HostRuntime) -> io::Result<ExitCode> {
    let alloc = rt.alloc();
    let mut words = Vec::new(alloc);
    for word in env::args(&rt)?.skip(1) {
        words.push(word)?;
    }
    let keys = RandomState::new(&rt)?;
    let (mut shelf, mut out) = (DiskShelf::new(rt), StdoutSink::new(rt));
    let (pieces, bytes) = (MemDepot::new(alloc), 0);
    let depot = CountingDepot { pieces, bytes };
    let ended = run(
        &rt, alloc, keys, &words, &mut shelf, depot, Relevance, &NoGate, &mut out,
    );
    println!(rt; "{} bytes stored", ended.depot.bytes)?;
    Ok(ExitCode::from(ended.status))
}
