// One token, and the kinds of tokens.

use crate::span::Span;

/// What a token is: the rows of the table "Tokens" of `docs/SQL.md`.
#[derive(Clone, Copy, PartialEq, Eq)]
pub enum TokenKind {
    /// A reserved word, in capital or small letters.
    Keyword,
    /// Any other word.
    Name,
    /// A name in double quotes.
    QuotedName,
    /// A text in single quotes.
    Text,
    /// One or more digits.
    Number,
    /// Digits, a point, digits.
    Decimal,
    /// A parenthesis, a comma, a star, a minus or a comparison.
    Symbol,
}

/// A token of a text: what it is and where it stands.
#[derive(Clone, Copy, PartialEq, Eq)]
pub struct Token {
    /// What the token is.
    pub kind: TokenKind,
    /// The bytes of the token, its quotes among them.
    pub span: Span,
}
