/// Why a query was stopped.
#[derive(Clone, Copy, Debug, PartialEq, Eq)]
pub enum Cause {
    /// A read failed, between two answers of the depot's count of faults.
    Read { before: u64, after: u64 },
    /// A piece was read whose word, by its place, can't be one of the table's.
    Damage { piece: u32, word: u32 },
    /// Out of memory.
    Memory,
}
