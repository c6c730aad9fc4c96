use crate::counts::Counts;
use crate::rank::{Choice, Rank};
use crate::rule::Rule;

/// What the referee says of a story.
#[derive(Clone, Copy, Debug, PartialEq, Eq)]
pub enum Ruling {
    /// Each entry may follow those before it, and takes a choice of the policy.
    Legal {
        /// Each query has ended or stopped, and nothing is left open.
        whole: bool,
        /// How many entries of each kind there are.
        counts: Counts,
    },
    /// The entries before this place, from 0, are a legal story; with the entry at the place they aren't.
    Illegal {
        place: usize,
        reason: Reason,
    },
}

/// Why an entry may not come.
#[derive(Clone, Copy, Debug, PartialEq, Eq)]
pub enum Reason {
    /// It breaks this rule of its kind.
    Broken(Rule),
    /// It keeps the rules, but there was a better choice.
    Outdone(Better),
}

/// A candidate that the policy prefers to what was taken.
#[derive(Clone, Copy, Debug, PartialEq, Eq)]
pub struct Better {
    pub choice: Choice,
    /// The number of the better query or chunk.
    pub number: u32,
    /// Its rank.
    pub rank: Rank,
    /// The rank of what was taken.
    pub taken: Rank,
}
