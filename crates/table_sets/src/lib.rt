//! Sets of chunks and of columns as bits, frames with their pieces, the limits of a table, and out of memory: what the
//! crates that know nothing of a table's cells share with those that do. No set and no list here takes memory.
//!
//!     let mut chunks = ChunkSet::empty();
//!     chunks.insert(7);
//!     let first = chunks.least_from(0);    // Some(7)
//!
//! docs/TABLES.md has the limits.
#![tactic(auto)]

mod chunk_set;
mod column_set;
mod limits;
mod memory;
mod slots;
mod words;

pub use chunk_set::ChunkSet;
pub use column_set::ColumnSet;
pub use limits::{MOST_CHUNK_ROWS, MOST_CHUNKS, MOST_COLUMNS, MOST_PLACES, MOST_ROWS};
pub use memory::Memory;
pub use slots::Slots;
