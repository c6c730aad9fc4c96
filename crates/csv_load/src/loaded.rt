// A table with its dictionaries.

use table_core::{Dict, Table};

/// A table with the dictionaries of its columns.
#[derive(Drop)]
pub struct Loaded {
    /// The table of 1 to `MOST_COLUMNS` columns and at most `MOST_ROWS` rows.
    pub table: Table,
    /// A dictionary for each column, in their order: an empty one but for a column of texts.
    pub dicts: Vec<Dict>,
}
