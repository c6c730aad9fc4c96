//! The records of a text in `csv`'s form, read from any reader, each with the line on which it begins.
#![tactic(auto)]

mod fault;
mod laws;
mod lines;
mod place;
mod source;
mod walker;

pub use fault::Fault;
pub use laws::records_are_those_of_csv;
pub use place::Marks;
pub use source::Source;
