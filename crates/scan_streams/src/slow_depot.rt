// A depot that takes its time.
ghost use Rattle.std.specs.Prelude.{◌≡◌, []};

use crate::watch::Watch;
use coop_outside::{Depot, DepotFault, Failed, MemDepot};
use std::alloc::Global;
use std::rt::Clock;

/// A depot in memory that sleeps before each get. What it holds and counts is what the depot in memory does.
#[derive(Drop)]
pub(crate) struct SlowDepot<C> {
    pieces: MemDepot,
    watch: Watch<C>,
    get_us: u32,
    filled_at: u64,
}

impl<C: Clock + Drop> SlowDepot<C> {
    /// A depot without pieces, whose gets take so many microseconds more than those of a depot in memory.
    pub(crate) fn new(alloc: Global, watch: Watch<C>, get_us: u32) -> Self
        ensures empty { result.pieces.pieces.entries ≡ [] }
        ensures fresh { result.pieces.gets ≡ 0 }
    {
        SlowDepot {
            pieces: MemDepot::new(alloc),
            watch,
            get_us,
            filled_at: 0,
        }
    }

    /// How many gets there were.
    pub(crate) fn gets(&self) -> u64
        ensures gets { result ≡ self.now.pieces.gets }
    {
        self.pieces.gets
    }

    /// When the last piece was put, in microseconds of the watch: the scans began then.
    pub(crate) fn filled_at(&self) -> u64
        ensures at { result ≡ self.now.filled_at }
    {
        self.filled_at
    }
}

impl<C: Clock + Drop> Depot for SlowDepot<C> {
    ghost held = { λ d. ⟦<MemDepot as Depot>⟧.held d.pieces };

    ghost gets = { λ d. ⟦<MemDepot as Depot>⟧.gets d.pieces };

    ghost faults = { λ d. ⟦<MemDepot as Depot>⟧.faults d.pieces };

    fn put(&mut self, piece: u32, bytes: &[u8]) -> Result<(), DepotFault> {
        let stored = self.pieces.put(piece, bytes);
        self.filled_at = self.watch.micros();
        stored
    }

    fn get(&mut self, piece: u32, buf: &mut [u8]) -> Result<(), Failed> {
        self.watch.sleep(self.get_us);
        self.pieces.get(piece, buf)
    }

    fn faults(&self) -> u64 {
        self.pieces.faults()
    }
}
