use std::collections::LinkedList;

/// The policies under which a story may be made.
#[derive(Clone, Copy, Debug, PartialEq, Eq)]
pub enum PolicyName {
    Relevance,
    Elevator,
    Normal,
    Attach,
}

/// What a query asks for.
#[derive(Drop)]
pub struct Need {
    /// Its number, from 1.
    pub query: u32,
    /// The worker on which it runs.
    pub worker: u32,
    /// The chunks that it needs, rising.
    pub chunks: LinkedList<u32>,
    /// The columns that it reads, rising.
    pub columns: LinkedList<u32>,
}

/// What a manager is made for. The program's manager keeps it in its own forms; this is the form that definitions,
/// and a judge of stories, speak of.
#[derive(Drop)]
pub struct Setting {
    /// One need a query.
    pub needs: LinkedList<Need>,
    /// How many chunks the table has.
    pub chunks: u32,
    /// How many workers there are.
    pub workers: u32,
    /// How many frames the buffer has.
    pub frames: u32,
    /// How many pieces a chunk has: 1, or one for each column.
    pub groups: u32,
    /// The policy by which loads, deliveries and victims are chosen.
    pub policy: PolicyName,
    /// The policy's cursor before the first entry.
    pub cursor: LinkedList<u32>,
}
