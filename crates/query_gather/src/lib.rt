//! What a query's scan gathers of the rows that match, and what the query is answered.
//!
//!     let mut part = Partial::of(alloc, &plan)?;
//!     part.add_row(&plan, number, row)?;                // takes the row where it matches
//!     part.add_block(&plan, first, &block)?;            // and those of a block that match
//!     let whole = join_parts(part, others)?;
//!     match whole.finish() {
//!         Answer::Stopped(cause) => ..,
//!         answer => ..,                                 // rows, or a sum that overflows
//!
//! `docs/ANSWERS.md` says what is gathered, and how parts are joined.
#![tactic(auto)]

mod answer;
mod choosing;
mod partial;
mod same_answers;

pub use answer::Answer;
pub use partial::{Partial, join_parts};
pub use same_answers::{alike_parts, answer_agrees, answer_of_table, any_order, can_be_written};
pub use scan_story::Cause;
