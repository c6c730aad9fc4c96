// A condition as it was read.

use table_core::{Bytes, Op};

/// What a column is compared with.
#[derive(Drop)]
pub enum Literal {
    /// A number.
    Int(i64),
    /// A number with 1 to 9 places: `digits` divided by 10 to the power of `places`.
    Dec { digits: i64, places: u32 },
    /// A text.
    Text(Bytes),
}

/// A condition on a row.
#[derive(Drop)]
pub enum QCond {
    /// `column op value`.
    Compare {
        column: Bytes,
        op: Op,
        value: Literal,
    },
    /// `column IS NULL`, or with `negated` `column IS NOT NULL`.
    IsNull {
        column: Bytes,
        negated: bool,
    },
    /// Both hold.
    And(Box<QCond>, Box<QCond>),
    /// One of both holds.
    Or(Box<QCond>, Box<QCond>),
    /// The condition doesn't hold.
    Not(Box<QCond>),
}
