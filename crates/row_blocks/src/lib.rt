//! Blocks: a few rows of a table at once, column by column, so that a loop goes over one column at a time.
//!
//!     let mut block = Block::new();
//!     block.begin(2, 3);                                // three rows of two columns, all NULL
//!     let mut lane = Lane::empty(Holds::Numbers);       // no row is NULL, each word 0
//!     lane.words[1] = 7;
//!     block.put(0, &lane);                              // rows: (0, NULL), (7, NULL), (0, NULL)
//!     let mut row = [Cell::Null; 2];
//!     block.row(1, &mut row);                           // Int(7), Null
//!
//! docs/TABLES.md has the rules.
#![tactic(auto)]

mod bits;
mod block;
mod lane;

pub use bits::is_chosen;
pub use block::{Block, MOST_BLOCK_ROWS};
pub use lane::{Holds, Lane};
