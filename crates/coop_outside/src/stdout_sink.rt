// Standard output as a sink.
ghost use Rattle.std.specs.Prelude.{◌≡◌, None};
ghost use Rattle.coop_outside.specs.Real.{sink_faults};

use crate::failed::Failed;
use crate::sink::Sink;
use std::io::{self, Write};

/// Standard output. It tells nothing of what it took. A write that takes nothing of a piece that isn't
/// empty is a fault that is counted, as is every error of the system.
#[derive(Drop)]
pub struct StdoutSink<R> {
    rt: R,
    faults: u64,
}

impl<R: Print + Drop> StdoutSink<R> {
    /// The sink to standard output, with no fault counted yet.
    pub fn new(rt: R) -> Self
        ensures fresh { sink_faults result ≡ 0 }
    {
        StdoutSink { rt, faults: 0 }
    }
}

impl<R: Print + Drop> Sink for StdoutSink<R> {
    ghost taken = { λ s. None };

    ghost faults = { λ s. s.faults };

    fn write(&mut self, piece: &[u8]) -> Result<usize, Failed> {
        match io::writer(&self.rt).write(piece) {
            Ok(count) if count > 0 || piece.is_empty() => Ok(count),
            _ => {
                self.faults = self.faults.saturating_add(1);
                Err(Failed)
            }
        }
    }
}
