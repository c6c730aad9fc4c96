/// What a step at the bell has done for a worker. Contracts alone see it: no value of it is made.
pub enum Rest {
    /// It owes nothing.
    Idle,
    /// It has read how often the worker was rung for.
    Heard { worker: u32, rings: u64 },
    /// It has noted since that the worker sleeps.
    Lies { worker: u32, rings: u64 },
    /// It has noted that the worker, which slept, is awake, and is to ring for it. So often was it rung for by then.
    Cleared { worker: u32, rings: u64 },
    /// It has read so many rings since, and is to ring for the worker.
    Rings { worker: u32, rings: u64 },
}
