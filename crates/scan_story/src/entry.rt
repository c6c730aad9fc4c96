/// Why a load failed.
#[derive(Clone, Copy, Debug, PartialEq, Eq)]
pub enum Why {
    /// The read failed, and the depot's count of faults went from `before` to `after`. `before` is below `after`, or
    /// both are 18446744073709551615, where the count stands still.
    Fault { before: u64, after: u64 },
    /// The piece was read, and its word with this number is broken.
    Damage { word: u32 },
}

/// One step of the manager. Workers, chunks, frames and pieces are numbered from 0, queries from 1.
#[derive(Clone, Copy, Debug, PartialEq, Eq)]
pub enum Entry {
    /// The query becomes active on the worker.
    Register {
        worker: u32,
        query: u32,
    },
    /// The worker sets out to load the chunk. The load is triggered by the query, which need not be the worker's.
    Plan {
        worker: u32,
        query: u32,
        chunk: u32,
    },
    /// All frames with pieces of the chunk become free, for the load of the worker.
    Evict {
        worker: u32,
        chunk: u32,
    },
    /// The load of the worker begins to read the piece into the free frame.
    Fill {
        worker: u32,
        frame: u32,
        piece: u32,
    },
    /// The piece was read and is now in the frame.
    Filled {
        worker: u32,
        frame: u32,
        piece: u32,
    },
    /// The piece wasn't read or is damaged. This closes the load and stops the query that triggered it.
    Failed {
        worker: u32,
        query: u32,
        piece: u32,
        why: Why,
    },
    /// The worker holds the chunk for the query from here on, and the query no longer needs it.
    Deliver {
        worker: u32,
        query: u32,
        chunk: u32,
    },
    /// The worker no longer holds the chunk.
    Release {
        worker: u32,
        query: u32,
        chunk: u32,
    },
    /// The query is given up when out of memory.
    Stop {
        worker: u32,
        query: u32,
    },
    /// The query needs no more chunks, and is over.
    End {
        worker: u32,
        query: u32,
    },
}
