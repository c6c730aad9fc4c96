// A gate at which one query works long on each chunk.

use cscan::{Delivery, Gate};
use std::rt::Clock;
use std::sync::Wait;
use std::sync::atomic::{AtomicU64, Ordering};
use std::thread;
use std::time::Duration;

/// Sleeps for one query with each chunk pinned, as if it worked on it, and notes how many chunks the others had taken
/// by then.
#[derive(Drop)]
pub(super) struct SlowGate<C> {
    clock: C,
    slow_query: u32,
    slow_us: u32,
    others: AtomicU64,
    others_at_last: AtomicU64,
}

impl<C: Clock + Drop> SlowGate<C> {
    /// A gate at which this query sleeps so many microseconds for each chunk.
    pub(super) fn new(clock: C, slow_query: u32, slow_us: u32) -> Self {
        SlowGate {
            clock,
            slow_query,
            slow_us,
            others: AtomicU64::new(0),
            others_at_last: AtomicU64::new(0),
        }
    }

    /// How many chunks the other queries had taken when the slow query had worked on its last one so far.
    pub(super) fn others_before_last(&self) -> u64 {
        self.others_at_last.load(Ordering::SeqCst)
    }
}

impl<C: Clock + Drop> Gate for SlowGate<C> {
    type Called = Delivery;

    ghost delivery_of = { λ delivery. delivery };

    fn holding<R: Wait>(&self, _rt: &R, delivery: Delivery) -> Delivery {
        if delivery.query() != self.slow_query {
            self.others.fetch_add(1, Ordering::SeqCst);
            return delivery;
        }
        thread::sleep(&self.clock, Duration::from_micros(u64::from(self.slow_us)));
        let others = self.others.load(Ordering::SeqCst);
        self.others_at_last.store(others, Ordering::SeqCst);
        delivery
    }
}
