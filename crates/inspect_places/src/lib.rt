//! Tells where a statement is refused: which token it is, what could stand there instead, and in which line and column;
//! and where a text stops having tokens.
//!
//!     match plan_of(alloc, text, &schema, &dicts) {
//!         Ok(plan) => run(plan),
//!         Err(refusal) => {
//!             let place = statement_place(alloc, text, schema.columns(), &refusal)?;
//!             let spot = line_and_column(batch, start + place.span.from as usize);
//!             write_stands(&mut text, &place)?;                       // FROM or ','
//!         }
//!     }
//!     let at = longest_prefix(b"SELECT 'a");             // 7: the quote is open
//!
//! The place of a syntax error is defined by the grammar alone: the first token such that no query begins with the
//! tokens up to it. docs/SQL.md has the tokens.
#![tactic(auto)]

mod foreign;
mod grammar;
mod kind;
mod lines;
mod names;
mod near;
mod nesting;
mod pieces;
mod place;
mod prefix;
mod query_names;
mod refused;
mod role;
mod runs;
mod spelled;
mod stands;
mod state;
mod statement;
mod steps;
mod word;

pub use foreign::Foreign;
pub use grammar::grammar_place;
pub use kind::Kind;
pub use lines::{LineColumn, line_and_column};
pub use place::Place;
pub use prefix::longest_prefix;
pub use query_names::{names_of_a_query, refused_names_stand};
pub use refused::refusal_place;
pub use spelled::bytes_at;
pub use stands::write_stands;
pub use statement::statement_place;
