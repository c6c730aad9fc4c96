// What became of an export.
use crate::cause::Refusal;
use crate::tally::Tally;

/// What became of an export.
#[derive(Clone, Copy, Debug, PartialEq, Eq)]
pub struct Report {
    /// What the rules did in the records that are written.
    pub tally: Tally,
    /// The first record that is refused, if there is one. Those before it are written, whole.
    pub refusal: Option<Refusal>,
}
