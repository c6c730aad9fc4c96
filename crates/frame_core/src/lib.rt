//! The machine of one shared frame: its phases, its steps, and the control word in which threads share its state.
//!
//! A pure crate: it waits for nothing and takes no memory. docs/FRAMES.md has the table of the machine.
//!
//!     let free = state_of(0);
//!     let filling = apply(free, Step::Claim)?;          // NotAllowed where the machine has no such step
//!     let ready = apply(filling, Step::Publish { piece: 7 })?;
//!     let pinned = apply(ready, Step::Take { piece: 7 })?;
//!     let word = word_of(pinned);                       // what threads exchange
#![tactic(auto)]

mod machine;
mod phase;
mod state;
mod step;
mod word;

pub use machine::{NotAllowed, apply};
pub use phase::FramePhase;
pub use state::State;
pub use step::Step;
pub use word::{state_of, word_of};
