use crate::head::Head;
use scan_story::Need;

/// A setting as its text tells it.
#[derive(Drop)]
pub struct PlainSetting {
    pub head: Head,
    /// One need a query, in the order of their lines.
    pub needs: Vec<Need>,
}
