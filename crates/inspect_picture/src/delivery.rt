/// One chunk in the hands of a query, from its delivery on.
#[derive(Clone, Copy, Debug, PartialEq, Eq)]
pub struct Delivery {
    /// The worker, from 0.
    pub worker: u32,
    /// The query, from 1.
    pub query: u32,
    /// The chunk, from 0.
    pub chunk: u32,
    /// The number of the entry by which it was delivered, from 1.
    pub first: u32,
    /// The number of the entry by which its worker released it or took another, or one more than there are entries.
    pub last: u32,
}
