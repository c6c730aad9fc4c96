// A query as it was read.

use crate::condition::QCond;
use table_core::Bytes;

/// One item of a query's list.
#[derive(Drop)]
pub enum QItem {
    /// `COUNT(*)`: the number of rows.
    CountAll,
    /// `COUNT(column)`: the number of rows with a value there.
    Count(Bytes),
    /// `SUM(column)`.
    Sum(Bytes),
    /// `MIN(column)`.
    Min(Bytes),
    /// `MAX(column)`.
    Max(Bytes),
    /// The column itself.
    Plain(Bytes),
}

/// One order of an ORDER BY list.
#[derive(Drop)]
pub struct QOrder {
    /// The column's name.
    pub column: Bytes,
    /// From great to small.
    pub descending: bool,
}

/// A query, by the grammar of `docs/SQL.md`.
///
/// A rows query has a limit, only `Plain` items and no keys. A groups query has no limit and no order.
#[derive(Drop)]
pub struct Query {
    /// What is asked for, from left to right: 1 to 32 items.
    pub items: Vec<QItem>,
    /// The table's name.
    pub table: Bytes,
    /// The condition behind WHERE.
    pub cond: Option<QCond>,
    /// The columns behind GROUP BY, at most 32.
    pub keys: Vec<Bytes>,
    /// The orders behind ORDER BY, at most 32.
    pub order: Vec<QOrder>,
    /// The number behind LIMIT, at most 4096.
    pub limit: Option<u32>,
}
