//! What stands in the place of answers before any row is read: what a statement comes to, and why a run stops.
//!
//!     let outcome = Outcome::Planned(plan);             // or Outcome::Refused(refusal)
//!     let line = Stop::Usage.line();                    // what a run prints whose words are refused
//!
//! `docs/ANSWERS.md` has the words.
#![tactic(auto)]

mod outcome;
mod stop;
mod stop_line;

pub use outcome::Outcome;
pub use stop::Stop;
pub use stop_line::StopLine;
