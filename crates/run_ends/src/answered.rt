// What a batch comes to.

use batch_ends::Ran;
use query_gather::Answer;
use run_stops::Outcome;
use table_core::{Dict, Schema};

/// A batch whose workers ran, with the answers to its queries.
#[derive(Drop)]
pub struct Answered<D> {
    /// What each statement comes to.
    pub outcomes: Vec<Outcome>,
    /// The answer to each statement that has a plan.
    pub answers: Vec<Answer>,
    /// The columns of the table.
    pub schema: Schema,
    /// The dictionary of each column.
    pub dicts: Vec<Dict>,
    /// What the workers left.
    pub ran: Ran,
    /// The depot with the table's pieces.
    pub depot: D,
}
