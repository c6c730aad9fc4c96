use table_sets::{ChunkSet, ColumnSet};

/// What a query asks for.
#[derive(Drop)]
pub struct Need {
    /// Its number, from 1 to 256.
    pub query: u32,
    /// The worker on which it runs.
    pub worker: u32,
    /// The chunks that it needs.
    pub chunks: ChunkSet,
    /// The columns that it reads. With one group they are free.
    pub columns: ColumnSet,
}
