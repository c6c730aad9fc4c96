//! From an export to the CSV that `coop_cli` takes: rules as values, what each of them makes of a field and of a
//! record, and `prepare`, which reads records under any marks from a reader and writes what the rules make of them to a
//! writer.
#![tactic(auto)]

mod cause;
mod change;
mod columns;
mod failure;
mod field;
mod hits;
mod kind;
mod laws;
mod names;
mod preparing;
mod progress;
mod report;
mod room;
mod row;
mod rules;
mod tally;
mod trimming;
mod writing;

pub use cause::{Cause, Refusal};
pub use failure::Failure;
pub use hits::Hits;
pub use laws::{
    dates_keep_their_day, numbers_are_rounded_to_the_nearest, numbers_keep_their_value,
    written_records_are_read_back,
};
pub use prepare_dates::Order;
pub use prepare_numbers::Limit;
pub use preparing::prepare;
pub use report::Report;
pub use rules::{Column, Mark, Rename, Rules};
pub use tally::Tally;
