// Rows of a chunk that follow one another.

/// Some rows of a chunk, from the row `first` on.
#[derive(Clone, Copy)]
pub struct Span {
    pub first: u32,
    pub count: u32,
}
