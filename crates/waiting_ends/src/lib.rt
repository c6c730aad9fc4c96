//! That a run of the workers ends: where each is run again and again, and but finitely many sleeps end by themselves,
//! the story grows wherever somebody may go on, and is whole at its end.
//!
//! It stands on `waiting_core`, whose machine the workers take their steps of, here in the order of the program, and
//! on `story_ends`, by which a story is whole or somebody may go on. A law is the contract of a function that does
//! nothing.
//!
//!     runs_end();                           // from here on the prover has the law
#![tactic(auto)]

mod ends;
mod order;

pub use ends::{runs_are_fair, runs_end};
pub use order::nobody_is_stuck;
