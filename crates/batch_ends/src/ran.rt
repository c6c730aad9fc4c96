// What the workers of a batch left.

use crate::taken::Taken;
use scan_story::Entry;

/// What the workers of a batch left.
#[derive(Drop)]
pub struct Ran {
    /// What all their turns recorded, the oldest entry first.
    pub story: Vec<Entry>,
    /// The chunks that each scan took: of each task, in their order, each part in part order.
    pub taken: Vec<Taken>,
}
