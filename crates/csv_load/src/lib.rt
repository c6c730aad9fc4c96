//! From CSV text to a table of typed cells: `load` reads a text's records once, finds the kind of each column by the
//! numbers that its fields spell, and ranks the texts of a column into its dictionary. Contracts say that the result
//! is the table of the text's records, whose definition (specs/Meaning.antt) knows nothing of the way it is made.
//!
//!     let keys = RandomState::new(&rt)?;
//!     let most_threads = 3;               // beside this one
//!     let Loaded { table, dicts } = match load(&rt, alloc, keys, b"day,pay\n5,1.50\n6,\n", most_threads) {
//!         Ok(loaded) => loaded,
//!         Err(refusal) => return refuse(refusal),
//!     };
//!     let first = table.cell(0, 1);    // Cell::Int(150) in a column of 2 places
//!
//! docs/TABLES.md has the rules for users.
#![tactic(auto)]

mod data_row;
mod fields;
mod front;
mod gathered;
mod header;
mod kept_texts;
mod kind;
mod limits;
mod loaded;
mod loading;
mod number;
mod numeral;
mod rank;
mod recent;
mod records;
mod refusal;
mod rows;
mod seeded;
mod side_by_side;
mod spelling;
mod typed;

pub use limits::{MOST_NAME_BYTES, MOST_TEXT_BYTES};
pub use loaded::Loaded;
pub use loading::load;
pub use number::Number;
pub use refusal::LoadRefusal;
