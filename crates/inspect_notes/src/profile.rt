// The profile of a column.

use crate::reason::Reason;
use table_core::Cell;

/// What is told of a column besides its name and kind, which its table's schema has.
#[derive(Clone, Copy, Debug, PartialEq, Eq)]
pub struct ColumnProfile {
    /// How many rows have no value in it.
    pub nulls: u32,
    /// How many different texts it has, where it is a column of texts.
    pub texts: Option<u32>,
    /// The cells of its least and its greatest value, if a row has one.
    pub ends: Option<(Cell, Cell)>,
    /// Why it is a column of texts, where some of its values spell numbers.
    pub reason: Option<Reason>,
}
