//! Who needs which chunk and has it available, by query and by chunk, and what is in the frames.
//!
//! The manager's book stands on it: `Clients` has what is kept of each query, and `Buffer` the frames and where each
//! piece stands. Each follows the entries that touch it, and answers its numbers without a walk through a story.
//!
//!     let mut clients = Clients::new(alloc, &needs, groups)?;
//!     let mut buffer = Buffer::new(alloc, frames, groups)?;
//!     clients.register(query, noted);                   // each follows the entries that touch it
//!     buffer.begin(frame, piece);
//!     buffer.finish(frame, piece, true);
//!     let scans = clients.interested(chunk);
#![tactic(auto)]

mod buffer;
mod client;
mod clients;
mod counted_set;
mod frame;
mod frames;
mod marks;
mod need;
mod query_set;
mod sharers;
mod shifting;

pub use buffer::Buffer;
pub use client::Client;
pub use clients::Clients;
pub use counted_set::CountedSet;
pub use frame::Frame;
pub use frames::Frames;
pub use need::Need;
pub use query_set::QuerySet;
pub use sharers::sharers_each;
