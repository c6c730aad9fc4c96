// What a scan answers.
use crate::delivery::Delivery;
use crate::held::Held;
use scan_story::Cause;

/// What `CScan::next` answers.
pub enum Next {
    /// A chunk that the query needs, once, and its delivery, with which the gate is called.
    Chunk(Held, Delivery),
    /// The query has taken each chunk of its need, and is over.
    Done,
    /// The query was stopped, for this cause.
    Stopped(Cause),
}
