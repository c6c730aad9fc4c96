// One order of a rows query.

/// An order of rows: by the cells of a column, counted from 0.
#[derive(Clone, Copy, Debug, PartialEq, Eq)]
pub struct Order {
    /// The column, counted from 0.
    pub column: u32,
    /// From great to small. NULL is smaller than all values, so it then stands last.
    pub descending: bool,
}
