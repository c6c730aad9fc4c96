// What a query is answered.
ghost use Rattle.std.specs.Prelude.{◌≡◌};
ghost use Rattle.query_gather.specs.Answer.{is_stopped};

use agg_groups::Rows;
use scan_story::Cause;
use top_rows::Picked;

/// What a query is answered.
#[derive(Drop)]
pub enum Answer {
    /// The result rows of a query without a limit, in key order.
    Rows(Rows),
    /// The rows that answer a query with a limit, in its order.
    Picked(Picked),
    /// A sum is no whole number of 64 bits: the first in key order, then in item order. Items are counted from 1.
    Overflow { item: u32, total: i128 },
    /// The query was stopped, and has no answer.
    Stopped(Cause),
}

impl Answer {
    /// Whether the query was stopped.
    pub fn is_stopped(&self) -> bool
        ensures { result ≡ is_stopped self.now }
    {
        matches!(self, Answer::Stopped(_))
    }
}
