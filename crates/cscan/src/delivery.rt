// A delivery of a chunk.
ghost use Rattle.std.specs.Prelude.{◌≡◌};

/// A delivery: the worker holds the chunk for the query.
///
/// `CScan::next` makes one with each Deliver entry, and nobody else makes or copies any. So who calls the gate with it
/// calls it for this delivery, and once.
#[derive(Drop)]
pub struct Delivery {
    pub(crate) worker: u32,
    pub(crate) query: u32,
    pub(crate) chunk: u32,
}

impl Delivery {
    /// The worker, from 0.
    pub fn worker(&self) -> u32
        ensures { result ≡ self.now.worker }
    {
        self.worker
    }

    /// The query's number, from 1.
    pub fn query(&self) -> u32
        ensures { result ≡ self.now.query }
    {
        self.query
    }

    /// The chunk, from 0.
    pub fn chunk(&self) -> u32
        ensures { result ≡ self.now.chunk }
    {
        self.chunk
    }
}
