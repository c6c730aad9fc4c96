// The limits of what the words ask for.

/// The most workers that run.
pub const MOST_WORKERS: u32 = 32;

/// The most frames that there are.
pub const MOST_FRAMES: u32 = 33554432;

/// The most parts in which a query runs.
pub const MOST_PARTS: u32 = 32;

/// The most rows that a generated table has.
pub const MOST_GENERATED_ROWS: u32 = 1048576;

/// How many workers run where the words don't say it.
pub const USUAL_WORKERS: u32 = 4;

/// How many rows a chunk has where the words don't say it.
pub const USUAL_CHUNK_ROWS: u32 = 1024;
