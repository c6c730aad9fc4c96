// Standard error as a sink.
ghost use Rattle.std.specs.Prelude.{None};

use coop_outside::{Failed, Sink};
use std::io::Write;

/// Standard error. It tells nothing of what it took. A write that takes nothing of a piece that isn't empty is a fault
/// that is counted, as is every error of the system.
#[derive(Drop)]
pub struct StderrSink {
    rt: HostRuntime,
    faults: u64,
}

impl StderrSink {
    /// The sink to standard error, with no fault counted yet.
    pub fn new(rt: HostRuntime) -> Self {
        StderrSink { rt, faults: 0 }
    }
}

impl Sink for StderrSink {
    ghost taken = { λ s. None };

    ghost faults = { λ s. s.faults };

    fn write(&mut self, piece: &[u8]) -> Result<usize, Failed> {
        match self.rt.stderr().write(piece) {
            Ok(count) if count > 0 || piece.is_empty() => Ok(count),
            _ => {
                self.faults = self.faults.saturating_add(1);
                Err(Failed)
            }
        }
    }
}
