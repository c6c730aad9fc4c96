//! Frames that threads share, each under one control word.
//!
//! A `Pool` has frames of words, all in one table of atomic words. Threads use it by their `Berth`s: one berth claims a
//! frame, puts the words of a piece and publishes it; others pin the frame, read its words and unpin it. A word that is
//! read under a pin is the pinned piece's, whatever the others do. docs/FRAMES.md has the rules and an example.
//!
//!     let (pool, mut berths) = Pool::new(alloc, frames, words, 2)?;    // a berth for each thread
//!     pool.mark(rt, &mut one, frame);
//!     pool.claim(rt, &mut one, frame);
//!     pool.put(&mut one, 42);                           // and so on for each word
//!     pool.publish(&mut one, piece);
//!     pool.pin(rt, &mut two, frame, piece);             // then word, as often as is needed, and unpin
#![tactic(auto)]

mod berth;
mod content;
mod filling;
mod geometry;
mod pinning;
mod plays;
mod pool;
mod rule;
mod view;

pub use berth::Berth;
pub use content::Content;
pub use geometry::Geometry;
pub use pool::{Memory, Pool};
