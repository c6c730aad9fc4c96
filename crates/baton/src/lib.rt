//! A state that workers hand on, with one story.
//!
//! A `Baton` holds one value that has a story. Each worker has a `Pass`: it takes the value, adds entries of its own to
//! the story, and gives the value back. What the workers did is then one story in which each worker's entries stand in
//! its order. docs/BATON.md has the rules and an example.
//!
//!     let (baton, mut passes) = Baton::new(alloc, state, 2)?;    // a pass for each worker
//!     let mut state = baton.take(rt, &mut pass);        // waits until it is free
//!     state.write(entry)?;
//!     baton.give(rt, &mut pass, state);
//!     let state = baton.finish(rt, passes);             // with what all of them wrote
#![tactic(auto)]

mod baton;
mod bell;
mod guest;
mod line;
mod lobby;
mod pass;
pub mod rest;
mod ringer;
mod rings;
pub mod rule;
pub mod standing;
pub mod view;
mod waits;

pub use baton::Baton;
pub use bell::Bell;
pub use pass::Pass;
