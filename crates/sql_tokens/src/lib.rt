//! Cuts a batch of SQL into its statements, and a statement into tokens.
//!
//!     let spans = split(alloc, batch)?;                 // where each statement begins and ends
//!     let tokens = lex(alloc, statement)?;              // or TextRefusal::Syntax
//!     let keyword = keyword_of(b"select");              // Some(Keyword::Select)
//!
//! `docs/SQL.md` has the language.
#![tactic(auto)]

mod class;
mod keyword;
mod lexing;
mod piece;
mod refusal;
mod span;
mod statements;
mod token;

pub use keyword::{Keyword, keyword_of};
pub use lexing::{lex, one_reading};
pub use refusal::TextRefusal;
pub use span::Span;
pub use statements::split;
pub use token::{Token, TokenKind};
