/// What the numbers of a first line have to keep.
#[derive(Clone, Copy, Debug, PartialEq, Eq)]
pub enum HeadRule {
    /// There are 1 to 32 workers.
    Workers,
    /// A table has at most 1024 chunks.
    Chunks,
    /// A chunk has 1 to 16 pieces.
    Groups,
    /// For each worker there are three frames, and one more, each times the groups.
    FewFrames,
    /// There are at most 33554432 frames.
    ManyFrames,
}

/// What a query has to keep.
#[derive(Clone, Copy, Debug, PartialEq, Eq)]
pub enum NeedRule {
    /// Queries have the numbers 1 to 256.
    Number,
    /// No query has two lines.
    Once,
    /// Its worker is one of those that there are.
    Worker,
    /// Its chunks rise.
    ChunksRise,
    /// Its chunks are the table's.
    Chunks,
    /// Its columns rise.
    ColumnsRise,
    /// Its columns are below the groups, and there is one; with one group they are below 16.
    Columns,
}

/// Why a text is no setting's. Lines are counted from 1.
#[derive(Clone, Copy, Debug, PartialEq, Eq)]
pub enum SettingFault {
    /// Line 1 isn't `workers W frames F chunks C groups G policy P` with its end.
    NoHead,
    /// Line 1 breaks this rule.
    Head(HeadRule),
    /// This line isn't `query Q worker W chunks C,.. columns G,..` with its end.
    NoQuery { line: u64 },
    /// The query of this line breaks this rule.
    Query { line: u64, rule: NeedRule },
    /// Out of memory.
    Memory,
}
