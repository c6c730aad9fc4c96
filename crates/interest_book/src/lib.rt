//! The manager's book: who needs which chunks, what stands in frames, who holds what, and the numbers of all this.
//!
//! A book follows a story entry by entry and answers each number of the story so far. By it a policy of the manager
//! picks:
//! `Policy` says what each one owes. `docs/MANAGER.md` tells the rules and how each number is kept.
//!
//!     let mut book = Book::new(alloc, needs, chunks, workers, frames, groups)?;
//!     book.note(&Entry::Register { worker: 0, query: 1 });
//!     let starved = book.starved(1);
//!     let targets = book.targets(1);                    // the chunks that may be loaded for it
//!     let free = book.free_frames();
#![tactic(auto)]

mod book;
mod candidates;
mod holds;
mod loading;
mod noting;
mod pieces;
mod placing;
mod policy;
mod reading;
mod sharing;

pub use book::Book;
pub use chunk_interest::{CountedSet, Need};
pub use loading::Underway;
pub use pieces::Pieces;
pub use policy::Policy;
pub use scan_story::Phase;
pub use sharing::{Overlaps, Sharing};
pub use table_sets::Memory;
