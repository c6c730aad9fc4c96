// Why an entry is none of a run with these words.

/// Why an entry that keeps the rules of stories is none of a run with these words.
#[derive(Clone, Copy, Debug, PartialEq, Eq)]
pub enum Unfit {
    /// A worker registers its queries in the order of the batch. Next is the one that is due; none, where all of them
    /// were registered.
    OutOfOrder { due: Option<u32> },
    /// The pieces are kept in memory, where no read fails and no piece is damaged.
    InMemory,
    /// The depot's count of faults never falls, and an earlier fault left it at `last`.
    CountFell { last: u64 },
    /// The piece has no word of this number.
    NoSuchWord,
}
