/// The entries that a picture shows, both ends included. Entries are numbered from 1; 0 is the begin.
#[derive(Clone, Copy, Debug, PartialEq, Eq)]
pub struct View {
    /// The first entry that is shown; past the end it is the last one.
    pub from: u32,
    /// The last one that is shown; past the end it is the end.
    pub to: u32,
}

impl View {
    /// The whole story.
    pub const WHOLE: View = View {
        from: 0,
        to: u32::MAX,
    };
}
