// What a batch ends with.

use crate::ran::Ran;
use query_gather::Answer;
use table_core::{Dict, Schema};

/// What a batch ends with.
#[derive(Drop)]
pub struct BatchEnd<D> {
    /// The answer to each task, in their order.
    pub answers: Vec<Answer>,
    /// What the workers left.
    pub ran: Ran,
    /// The depot with the table's pieces.
    pub depot: D,
    /// The columns of the table.
    pub schema: Schema,
    /// The dictionary of each column.
    pub dicts: Vec<Dict>,
}
