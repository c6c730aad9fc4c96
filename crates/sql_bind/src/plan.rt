// What a bound query asks for.

use filter_zones::Cond;
use query_meaning::{Item, RowPlan};
use table_core::ColumnSet;

/// A query with its names as columns, counted from 0, and its literals as bounds over cells.
#[derive(Drop)]
pub struct Plan {
    /// The items, where the query has no limit.
    pub items: Vec<Item>,
    /// The key columns, where the query has no limit.
    pub keys: Vec<u32>,
    /// The condition behind WHERE.
    pub cond: Option<Cond>,
    /// The columns that the query names, or column 0 alone where it names none.
    pub columns: ColumnSet,
    /// What a query with a limit asks for.
    pub rows: Option<RowPlan>,
}
