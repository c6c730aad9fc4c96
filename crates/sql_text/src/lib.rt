//! Reads the text of a query into a tree.
//!
//!     let query = read_query(alloc, b"SELECT COUNT(*) FROM t WHERE a < 10")?;    // or TextRefusal
//!
//! `docs/SQL.md` has the language.
#![tactic(auto)]

mod condition;
mod conditions;
mod lists;
mod literals;
mod query;
mod reading;
mod steps;
mod tail;
mod word;

pub use condition::{Literal, QCond};
pub use query::{QItem, QOrder, Query};
pub use reading::{one_query, read_query};
pub use sql_tokens::{Span, TextRefusal, Token, TokenKind, lex, split};
