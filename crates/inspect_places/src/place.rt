// A place of a text.

use crate::foreign::Foreign;
use crate::kind::Kind;
use sql_tokens::Span;

/// Where a text is refused, and what could stand there.
#[derive(Debug, Drop)]
pub struct Place {
    /// The bytes of the token at the place, counted from the text's first byte; at the end of the text an empty span.
    pub span: Span,
    /// The kinds of tokens that could stand there, each once. It is empty where the refusal isn't about the grammar.
    pub stands: Vec<Kind>,
    /// Whether a name that could stand there is the table's, and not a column's.
    pub is_table: bool,
    /// Behind LIMIT the greatest number within the limits; elsewhere, where a number is refused, the greatest whole
    /// number that could stand there, if there is one.
    pub most: Option<u64>,
    /// What is known there from other SQL, where the refusal is about the grammar.
    pub foreign: Option<Foreign>,
}
