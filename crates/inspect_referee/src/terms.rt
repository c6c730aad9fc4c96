use chunk_interest::Need;
use scan_story::PolicyName;

/// What a story is judged by: the setting that its manager was made for. The policy begins with its first cursor.
#[derive(Drop)]
pub struct Terms {
    /// One need a query. They name distinct queries from 1 to 256, workers and chunks that there are, and rising
    /// columns below `groups`.
    pub needs: Vec<Need>,
    /// How many chunks the table has, at most 1024.
    pub chunks: u32,
    /// How many workers there are, 1 to 32.
    pub workers: u32,
    /// How many frames the buffer has, at most 33554432.
    pub frames: u32,
    /// How many pieces a chunk has, 1 to 16.
    pub groups: u32,
    /// By which policy loads, deliveries and victims were chosen.
    pub policy: PolicyName,
}
