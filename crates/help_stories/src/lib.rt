//! The printed stories, the settings and the tables that the tests of several crates take, each once.
//!
//! A story stands with what it is of, so that a test goes over many of them:
//!
//! ```text
//! for printed in SIX {
//!     let s = printed.setting(alloc)?;
//!     let entries = printed.entries(alloc)?;
//!     assert_eq!(rt; first_illegal(alloc, &s, &entries)?, None);
//! }
//! ```
//!
//! Its own tests are those of the judge: that the printed stories are legal, and that each change of one is seen.
#![tactic(auto)]

mod paid;
mod printed;
mod scene;
mod settings;
pub mod stories;
pub mod tables;

pub use paid::paid_by;
pub use printed::{
    COUNTS, Printed, SIX, SIX_ATTACH, SIX_ELEVATOR, SIX_NORMAL, SIX_RELEVANCE, TO_EVICT, TURNS,
    TWO_TO_DELIVER, entries_of,
};
pub use scene::Scene;
pub use settings::{POLICIES, first_cursor, need, setting};

#[cfg(test)]
mod tests;
