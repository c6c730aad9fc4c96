// What a statement comes to before any row is read.

use sql_bind::{Plan, StatementRefusal};

/// What a statement of a batch comes to before any row is read.
#[derive(Drop)]
pub enum Outcome {
    /// It is a query over the table, with this plan.
    Planned(Plan),
    /// It is refused for its text or for the names in it.
    Refused(StatementRefusal),
}
