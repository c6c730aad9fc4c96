use std::collections::LinkedList;

/// How far a query has come.
#[derive(Clone, Copy, PartialEq, Eq)]
pub enum Phase {
    /// Not registered yet.
    Waiting,
    /// Registered, neither ended nor stopped.
    Active,
    /// It took all that it needed.
    Ended,
    /// It was given up.
    Stopped,
}

/// What a worker holds: a chunk, for a query.
#[derive(Clone, Copy, PartialEq, Eq)]
pub struct Hold {
    pub query: u32,
    pub chunk: u32,
}

/// A load that is underway.
#[derive(Drop)]
pub struct Load {
    /// Who loads.
    pub worker: u32,
    /// The query that triggered it.
    pub query: u32,
    /// The chunk that is loaded.
    pub chunk: u32,
    /// The pieces that the query reads and that were in no frame as the load was planned. They have 64 bits, since in
    /// a list of entries that isn't legal the chunk may be any number.
    pub missing: LinkedList<u64>,
    /// The frames and pieces that were begun since, the newest first.
    pub begun: LinkedList<(u32, u32)>,
    /// The pieces that were filled since, the newest first.
    pub filled: LinkedList<u32>,
}
