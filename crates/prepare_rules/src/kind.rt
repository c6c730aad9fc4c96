// What a column holds.

/// What a column holds, and so which rules act in it.
#[derive(Clone, Copy, Debug, PartialEq, Eq)]
pub enum Kind {
    /// Texts: no rule changes their bytes but the one on white space.
    Texts,
    /// Numbers, in which the rules on numbers and on marks for missing values act.
    Numbers,
    /// Dates, in which the order of day and month and the marks for missing values act.
    Dates,
}
