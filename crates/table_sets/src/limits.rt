// The limits of a table.

/// The most columns that a table has.
pub const MOST_COLUMNS: u32 = 16;

/// The most rows that a table has.
pub const MOST_ROWS: u32 = 2097152;

/// The most rows that a chunk has.
pub const MOST_CHUNK_ROWS: u32 = 16384;

/// The most chunks into which a table is cut.
pub const MOST_CHUNKS: u32 = 1024;

/// The most digits that a column's numbers have after the point.
pub const MOST_PLACES: u32 = 9;
