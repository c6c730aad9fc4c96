//! Trials of the book: stories played through it entry by entry, each number beside the judge's.
//!
//! `docs/MANAGER.md` tells the rules.
#![tactic(auto)]

mod compare;
mod picks;
mod settings;
mod trial;

pub use compare::agrees;
pub use picks::{delivery, load, victim};
pub use settings::{book_needs, book_of, has_numbers};
pub use trial::{Trial, note_next, played, try_story};
