use scan_story::PolicyName;

/// The first line of a setting: the numbers of a manager.
#[derive(Clone, Copy, Debug, PartialEq, Eq)]
pub struct Head {
    /// How many workers there are.
    pub workers: u32,
    /// How many frames the buffer has.
    pub frames: u32,
    /// How many chunks the table has.
    pub chunks: u32,
    /// How many pieces a chunk has.
    pub groups: u32,
    /// By which policy loads, deliveries and victims are chosen; `None` where choices are free.
    pub policy: Option<PolicyName>,
}
