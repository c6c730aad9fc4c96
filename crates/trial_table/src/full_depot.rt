// A depot that tells nothing, and has room for so many pieces.
ghost use Rattle.std.specs.Prelude.{None};

use coop_outside::{Depot, DepotFault, Failed};

#[derive(Drop)]
pub(crate) struct FullDepot {
    // How many more pieces it takes, and how many gets and faults there were.
    pub room: u32,
    pub gets: u64,
    pub faults: u64,
}

impl Depot for FullDepot {
    ghost held = { λ s. None };

    ghost gets = { λ s. s.gets };

    ghost faults = { λ s. s.faults };

    fn put(&mut self, _piece: u32, _bytes: &[u8]) -> Result<(), DepotFault> {
        if self.room == 0 {
            return Err(DepotFault::Memory);
        }
        self.room -= 1;
        Ok(())
    }

    fn get(&mut self, _piece: u32, _buf: &mut [u8]) -> Result<(), Failed> {
        self.gets += 1;
        self.faults = self.faults.saturating_add(1);
        Err(Failed)
    }

    fn faults(&self) -> u64 {
        self.faults
    }
}
