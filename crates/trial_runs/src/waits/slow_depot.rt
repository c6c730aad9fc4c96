// A depot whose gets take long.
ghost use Rattle.std.specs.Prelude.{◌≡◌};

use coop_outside::{Depot, DepotFault, Failed, MemDepot};
use std::alloc::Global;
use std::rt::Clock;
use std::thread;
use std::time::Duration;

/// A depot in memory that sleeps before each get. What it holds and counts is what the depot in memory does.
#[derive(Drop)]
pub(super) struct SlowDepot<C> {
    pieces: MemDepot,
    clock: C,
    get_us: u32,
}

impl<C: Clock + Drop> SlowDepot<C> {
    /// A depot without pieces, whose gets take so many microseconds, and whose gets of these numbers fail.
    pub(super) fn new(alloc: Global, clock: C, get_us: u32, fail_gets: Vec<u64>) -> Self
        ensures fresh { result.pieces.gets ≡ 0 }
    {
        let mut pieces = MemDepot::new(alloc);
        pieces.fail_gets = fail_gets;
        SlowDepot {
            pieces,
            clock,
            get_us,
        }
    }
}

impl<C: Clock + Drop> Depot for SlowDepot<C> {
    ghost held = { λ d. ⟦<MemDepot as Depot>⟧.held d.pieces };

    ghost gets = { λ d. ⟦<MemDepot as Depot>⟧.gets d.pieces };

    ghost faults = { λ d. ⟦<MemDepot as Depot>⟧.faults d.pieces };

    fn put(&mut self, piece: u32, bytes: &[u8]) -> Result<(), DepotFault> {
        self.pieces.put(piece, bytes)
    }

    fn get(&mut self, piece: u32, buf: &mut [u8]) -> Result<(), Failed> {
        thread::sleep(&self.clock, Duration::from_micros(u64::from(self.get_us)));
        self.pieces.get(piece, buf)
    }

    fn faults(&self) -> u64 {
        self.pieces.faults()
    }
}
