//! Writes the tree of a query as text, in its one form, which `sql_text` reads as the same query.
//!
//!     let query = read_query(alloc, b"select count(*) from t")?;
//!     let text = write_query(alloc, &query)?;           // SELECT COUNT ( * ) FROM "t"
//!     let again = read_query(alloc, text.as_slice())?;  // the same query
//!
//! `docs/SQL.md` has the language.
#![tactic(auto)]

mod writing;

pub use writing::write_query;
