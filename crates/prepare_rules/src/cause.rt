// Why a record is refused.
use thiserror::Error;

/// Why a record is refused.
#[derive(Clone, Copy, Debug, PartialEq, Eq, Error)]
pub enum Cause {
    /// There is no record but those that are left out, so there are no names.
    #[error("no header")]
    NoHeader,
    /// No column is the one that the rule on columns names at this place, from 0.
    #[error("there is no such column")]
    NoColumn {
        /// Its place in the rule, from 0.
        word: usize,
    },
    /// No column is the one that the rule on numbers names at this place, from 0.
    #[error("there is no such column of numbers")]
    NoNumbers {
        /// Its place in the rule, from 0.
        word: usize,
    },
    /// No column is the one that the rule on dates names at this place, from 0.
    #[error("there is no such column of dates")]
    NoDates {
        /// Its place in the rule, from 0.
        word: usize,
    },
    /// The column that the rule on dates names at this place, from 0, is one of numbers too.
    #[error("a column of dates is one of numbers too")]
    NumberAndDate {
        /// Its place in the rule on dates, from 0.
        word: usize,
    },
    /// No column has the name that the rule on names gives up at this place, from 0.
    #[error("there is no such name")]
    NoName {
        /// Its place in the rule, from 0.
        word: usize,
    },
    /// More columns would be written than a table has.
    #[error("{columns} columns, where a table has 1 to 16")]
    Columns {
        /// How many there are.
        columns: usize,
    },
    /// The first name that would be written begins with a byte order mark, which a reader of the text skips.
    #[error("the first name begins with a byte order mark")]
    MarkedName,
    /// A name that would be written has more than 128 bytes.
    #[error("name {column} has more than 128 bytes")]
    LongName {
        /// Its number among the names that would be written, from 1.
        column: usize,
    },
    /// A name that would be written stands before it already.
    #[error("names {first} and {second} are equal")]
    TwiceNamed {
        /// The number of the first name that it equals, from 1.
        first: usize,
        /// Its own number.
        second: usize,
    },
    /// The record has another number of fields than there are names.
    #[error("{fields} fields, where {names} are expected")]
    Fields {
        /// How many there are.
        fields: usize,
        /// How many names there are.
        names: usize,
    },
    /// A number of the record has more digits behind the point than the limit says, and isn't to be rounded.
    #[error("the number in column {column} has too many digits behind the point")]
    LongNumber {
        /// The number of its column among those that are written, from 1.
        column: usize,
    },
    /// A field of a column of dates is none, nor empty, nor a mark for a missing value.
    #[error("the field in column {column} is no date")]
    NoDate {
        /// The number of its column among those that are written, from 1.
        column: usize,
    },
    /// The record is one row more than a table has. It is written, alone of all that are refused, so that coop_cli
    /// refuses the table too.
    #[error("more than 2097152 rows")]
    TooManyRows,
}

/// The first record that is refused, and why. Those before it are written, whole.
#[derive(Clone, Copy, Debug, PartialEq, Eq)]
pub struct Refusal {
    /// Its number, from 1, among all records of the export, those that are left out and the names among them.
    pub number: u64,
    /// The line of the export on which it begins, from 1; none where there is no such record. A carriage return, a line
    /// feed or both end a line.
    pub line: Option<u64>,
    pub cause: Cause,
}
