//! Conditions on the rows of a table, the zones of its chunks, and the chunks that a condition needs.
//!
//!     let cond = Cond::Compare { column: 0, op: Op::Lt, value: Bound::Number(20) };    // below 10
//!     let truth = truth_of(&cond, row);                 // False, Unknown or True
//!     let truths = truths_of(&cond, &block);            // of each of up to 64 rows, a bit of two words
//!     let zones = zones_of(&table, from, to);           // of one chunk, the rows from one up to another
//!     let truths = may_be(&cond, &zones);               // those that a row of the chunk can have
//!     let chunks = needed(Some(&cond), &all_zones);     // those in which a row may match
#![tactic(auto)]

mod block_truths;
mod certain;
mod cond;
mod ends;
mod found;
mod lane_truths;
mod masks;
mod possible;
mod pruning;
mod truth;
mod truth_set;
mod truths;
mod words;
mod zone;

pub use block_truths::truths_of;
pub use certain::is_true_of_all;
pub use cond::{Bound, Cond, truth_of};
pub use possible::may_be;
pub use pruning::needed;
pub use truth::Truth;
pub use truth_set::TruthSet;
pub use truths::Truths;
pub use zone::{ChunkZones, Zone, zones_of};
