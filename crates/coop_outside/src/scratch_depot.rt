// Pieces in a file that is gone when the program ends.
ghost use Rattle.std.specs.Prelude.{◌≡◌, None, string_bytes};
ghost use Rattle.coop_outside.specs.Real.{depot_faults, depot_gets, depot_name};

use crate::depot::{Depot, DepotFault};
use crate::failed::Failed;
use crate::scratch_file::ScratchFile;
use std::alloc::Global;
use std::fs::File;
use std::rt::Files;

/// Pieces in a file of its own, made at the first put. The file is never one that was there before: where
/// the name exists, the put fails and the file under it stays as it was. As soon as the file is made its
/// name is taken away, so nothing of it is left when the program has ended, however it ends. The depot tells
/// nothing of what it holds, and never reads what was not put.
#[derive(Drop)]
pub struct ScratchDepot<R> {
    store: ScratchFile<R>,
    gets: u64,
    faults: u64,
}

impl<R: Files<File = File> + Drop> ScratchDepot<R> {
    /// A depot over a file of this name that is not made yet, with no get and no fault counted.
    pub fn new(alloc: Global, rt: R, path: String) -> Self
        ensures counts { (depot_gets result ≡ 0) × (depot_faults result ≡ 0) }
        ensures named { depot_name result ≡ string_bytes path }
    {
        ScratchDepot {
            store: ScratchFile::new(alloc, rt, path),
            gets: 0,
            faults: 0,
        }
    }
}

impl<R: Files<File = File> + Drop> Depot for ScratchDepot<R> {
    ghost held = { λ s. None };

    ghost gets = { λ s. s.gets };

    ghost faults = { λ s. s.faults };

    fn put(&mut self, piece: u32, bytes: &[u8]) -> Result<(), DepotFault> {
        match self.store.put(piece, bytes) {
            Ok(()) => return Ok(()),
            Err(DepotFault::Memory) => return Err(DepotFault::Memory),
            Err(DepotFault::Failed) => {
                self.faults = self.faults.saturating_add(1);
                return Err(DepotFault::Failed);
            }
        }
    }

    fn get(&mut self, piece: u32, buf: &mut [u8]) -> Result<(), Failed> {
        self.gets += 1;
        if self.store.get(piece, buf) {
            return Ok(());
        }
        self.faults = self.faults.saturating_add(1);
        Err(Failed)
    }

    fn faults(&self) -> u64 {
        self.faults
    }
}
