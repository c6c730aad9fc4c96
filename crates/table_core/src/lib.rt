//! What a table is: typed cells, the columns they stand in, dictionaries of texts, the text of a value and of an
//! answer.
//! The sets and limits of table_sets are handed on.
//!
//!     let (kind, dict) = (Kind::Dec { places: 2 }, Dict::new(alloc));
//!     let schema = Schema::new(vec![in alloc; Column { name, kind }]?);
//!     let mut prices = Numbers::new(alloc);
//!     prices.push(Some(300))?;
//!     prices.push(None)?;
//!     let table = Table::new(schema, vec![in alloc; Cells::Numbers(prices)]?, 2);
//!     let mut out = Bytes::new(Vec::new(alloc));
//!     for row in 0..table.len() {
//!         write_value(&mut out, kind, &dict, table.cell(row, 0))?;    // 3.00, then NULL
//!     }
//!
//! docs/TABLES.md has the rules, and docs/ANSWERS.md the text of an answer.
#![tactic(auto)]

mod answer;
mod bytes;
mod cell;
mod cells;
mod chunk;
mod codes;
mod dict;
mod numbers;
mod op;
mod schema;
mod table;
mod texts;
mod value_text;

pub use answer::text_of_answer;
pub use bytes::Bytes;
pub use cell::{Cell, cell_order};
pub use cells::Cells;
pub use chunk::{chunk_count, chunk_span};
pub use codes::Codes;
pub use dict::Dict;
pub use numbers::Numbers;
pub use op::Op;
pub use schema::{Column, Kind, Schema};
pub use table::Table;
pub use table_sets::{
    ChunkSet, ColumnSet, MOST_CHUNK_ROWS, MOST_CHUNKS, MOST_COLUMNS, MOST_PLACES, MOST_ROWS, Memory,
};
pub use texts::Texts;
pub use value_text::{places_of_kind, write_number, write_quoted, write_value};
