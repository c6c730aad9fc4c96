// The depot that a program takes by its words: in memory, or in a file.
ghost use Rattle.coop_outside.specs.Either.{any_faults, any_gets, any_held};

use crate::depot::{Depot, DepotFault};
use crate::failed::Failed;
use crate::mem_depot::MemDepot;
use crate::scratch_depot::ScratchDepot;
use std::fs::File;
use std::rt::Files;

/// A depot in memory, which tells its pieces, or in a file, which doesn't.
#[derive(Drop)]
pub enum AnyDepot<R> {
    /// In memory.
    Mem(MemDepot),
    /// In a file that is gone when the program ends.
    Scratch(ScratchDepot<R>),
}

impl<R: Files<File = File> + Drop> Depot for AnyDepot<R> {
    ghost held = { λ s. any_held s };

    ghost gets = { λ s. any_gets s };

    ghost faults = { λ s. any_faults s };

    fn put(&mut self, piece: u32, bytes: &[u8]) -> Result<(), DepotFault> {
        match self {
            AnyDepot::Mem(depot) => return depot.put(piece, bytes),
            AnyDepot::Scratch(depot) => return depot.put(piece, bytes),
        }
    }

    fn get(&mut self, piece: u32, buf: &mut [u8]) -> Result<(), Failed> {
        match self {
            AnyDepot::Mem(depot) => return depot.get(piece, buf),
            AnyDepot::Scratch(depot) => return depot.get(piece, buf),
        }
    }

    fn faults(&self) -> u64 {
        match self {
            AnyDepot::Mem(depot) => return depot.faults(),
            AnyDepot::Scratch(depot) => return depot.faults(),
        }
    }
}
