// The clock of a run.

use std::rt::Clock;
use std::time::{Duration, Instant};
use std::{io, thread};

/// Tells how long a run has taken so far. No clause says what a clock gives.
#[derive(Clone, Copy, Drop)]
pub(crate) struct Watch<C> {
    clock: C,
    start: Instant,
}

impl<C: Clock + Drop> Watch<C> {
    /// A watch that begins now. The error is one of the system's clock.
    pub(crate) fn new(clock: C) -> io::Result<Self> {
        let start = Instant::now(&clock)?;
        Ok(Watch { clock, start })
    }

    /// How many microseconds have gone since it began; 0 where the clock can't be read.
    pub(crate) fn micros(&self) -> u64 {
        match self.start.elapsed(&self.clock) {
            Ok(gone) => u64::try_from(gone.as_micros()).unwrap_or(u64::MAX),
            Err(_) => 0,
        }
    }

    /// Sleeps so many microseconds; not at all where there are none.
    pub(crate) fn sleep(&self, micros: u32) {
        if micros > 0 {
            thread::sleep(&self.clock, Duration::from_micros(u64::from(micros)));
        }
    }
}
