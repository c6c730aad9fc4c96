//! The text of a story, a line for each entry: written and read.
//!
//! An entry's text has one form, so a line is an entry's or none's. `docs/MANAGER.md` tells the forms.
//!
//!     let text = write_story(alloc, story.entries())?;  // a line for each entry
//!     println!(rt; "{}", Line(entry))?;
//!     let entries = read_story(alloc, text)?;           // the entries, or the first line that is none
#![tactic(auto)]

mod line;
mod read;
mod write;

pub use line::Line;
pub use read::{StoryRefusal, read_story};
pub use write::write_story;
