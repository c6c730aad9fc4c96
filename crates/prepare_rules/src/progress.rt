// How far the records are.
use crate::tally::Tally;

/// How far the records are.
#[derive(Clone, Copy)]
pub(crate) struct Progress {
    /// The number of the next one, from 1 among all of the export.
    pub number: u64,
    /// What the rules did in those before it.
    pub tally: Tally,
}
