/// The life of a query on its worker, from its Register on.
#[derive(Clone, Copy, Debug, PartialEq, Eq)]
pub struct Life {
    /// The worker, from 0.
    pub worker: u32,
    /// The query, from 1.
    pub query: u32,
    /// The number of the entry by which it registered, from 1.
    pub first: u32,
    /// The number of the entry by which it ended or was given up, or one more than there are entries.
    pub last: u32,
}
