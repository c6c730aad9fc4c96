//! A table as its pieces: its shape, its pieces put into a depot one after another, and the zones of its chunks.
//!
//!     let shape = shape_of(alloc, &table, &dicts, Layout::Row, 1024)?;
//!     let zones = zones_of_chunks(alloc, &shape, &table)?;
//!     put_pieces(rt, alloc, &shape, &table, &mut depot, 3)?;   // or the piece that was not stored
//!     let chunks = chunks_of(&shape);
//!
//! docs/PIECES.md and docs/ZONES.md have the rules.
#![tactic(auto)]

mod chunk_rows;
mod parcel;
mod putting;
mod refusal;
mod shaping;
mod zoning;

pub use chunk_rows::rows_by_chunk;
pub use putting::put_pieces;
pub use refusal::BatchRefusal;
pub use shaping::{chunks_of, shape_of};
pub use zoning::zones_of_chunks;
