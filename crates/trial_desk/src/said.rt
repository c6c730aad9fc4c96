use abm_policy::{Cause, Slots, Why};

/// A call of a desk, and what it answered.
#[derive(Drop)]
pub enum Said {
    Registered {
        worker: u32,
        query: u32,
    },
    /// A turn took the chunk, whose pieces stand in these frames.
    Took {
        worker: u32,
        query: u32,
        chunk: u32,
        slots: Slots,
    },
    /// A turn for the query began to load the chunk, for the trigger.
    Loads {
        worker: u32,
        query: u32,
        trigger: u32,
        chunk: u32,
        slots: Slots,
    },
    NotYet {
        worker: u32,
        query: u32,
    },
    Finished {
        worker: u32,
        query: u32,
    },
    Stopped {
        worker: u32,
        query: u32,
        cause: Cause,
    },
    Released {
        worker: u32,
        query: u32,
        chunk: u32,
    },
    GaveUp {
        worker: u32,
        query: u32,
    },
    /// Each piece of the worker's load was read.
    Filled {
        worker: u32,
        slots: Slots,
    },
    /// The piece after the first `done` wasn't read.
    Failed {
        worker: u32,
        trigger: u32,
        slots: Slots,
        done: u32,
        why: Why,
    },
}
