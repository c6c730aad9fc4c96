//! What a buffer manager did, entry by entry, and which stories of it are legal.
//!
//! A manager of cooperative scans keeps a story: the list of the entries that its workers made. This crate has
//! the entries and every definition by which a story is judged. `docs/MANAGER.md` tells the rules.
//!
//!     let mut story = Story::with_room(alloc, capacity(chunks, queries, groups))?;
//!     story.push(Entry::Register { worker: 0, query: 1 });
#![tactic(auto)]

mod bytes;
mod cause;
mod entry;
mod origin;
mod ratio;
mod setting;
mod story;
mod view;

pub use bytes::{Bytes, Memory};
pub use cause::Cause;
pub use entry::{Entry, Why};
pub use origin::{Origin, Start, Storied};
pub use ratio::Ratio;
pub use setting::{Need, PolicyName, Setting};
pub use story::{Story, capacity};
pub use view::{Hold, Load, Phase};
