//! Rows of a table's chunks, read word by word from frames while they are pinned: a cell, a row, or up to 64 rows at
//! once.
//! It knows what the frames are told of a table, and nothing of the manager that filled them.
//!
//!     pin_all(rt, &pool, &mut berth, &given.slots);
//!     read_slots(&pool, &shape, &mut berth, &given, row, &columns, &mut cells);
//!     unpin_all(&pool, &mut berth, &given.slots);
//!
//! docs/SCANS.md has the life of a chunk, and docs/PIECES.md its words.
#![tactic(auto)]

mod block_rows;
mod cells;
mod framed;
mod given;
mod lanes;
mod pinning;
mod row_cells;
mod span;

pub use block_rows::{put_columns, put_slots};
pub use cells::{cell_in_frame, group_with, piece_with};
pub use framed::Framed;
pub use given::Given;
pub use pinning::{pin_all, unpin_all};
pub use row_cells::{read_columns, read_slots};
pub use span::Span;
