// The limits of a run.

/// The most bytes that a batch has.
pub const MOST_BATCH_BYTES: u64 = 1048576;

/// The most statements that a batch has.
pub const MOST_STATEMENTS: u32 = 256;

/// The most scans of a batch: one for each part of each statement.
pub const MOST_SCANS: u32 = 256;

/// The most words that the frames have together.
pub const MOST_POOL_WORDS: u64 = 33554432;
