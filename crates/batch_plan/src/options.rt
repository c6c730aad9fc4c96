// How a batch runs.

use piece_format::Layout;

/// How the table of a batch is cut, and who works on it.
#[derive(Clone, Copy, PartialEq, Eq)]
pub struct Options {
    /// How many workers there are, 1 to 32.
    pub workers: u32,
    /// How many frames the buffer has: at least three for each worker and one more, counted in chunks.
    pub frames: u32,
    /// How many rows each chunk but the last has, 1 to 16384.
    pub per: u32,
    /// Whether a chunk is one piece or one for each column.
    pub layout: Layout,
    /// Into how many scans each query is split, 1 to 32.
    pub parts: u32,
}
