// The chunks that a scan took.

/// The chunks that a scan took: each of them was delivered to it once.
#[derive(Drop)]
pub struct Taken {
    /// The number of the query's statement.
    pub query: u32,
    /// The part of the query that the scan is, from 0.
    pub part: u32,
    /// The worker that ran the scan, from 0.
    pub worker: u32,
    /// The chunks in the order in which they were delivered.
    pub chunks: Vec<u32>,
}
