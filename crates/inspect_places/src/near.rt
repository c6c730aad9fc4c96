// The token of a number, and the one before it.

ghost use Rattle.std.specs.Prelude.{◌≡◌, slice_get};
ghost use Rattle.inspect_places.specs.Near as spec;

use crate::spelled::bytes_at;
use sql_tokens::{Keyword, Token, TokenKind, keyword_of};

/// The token of this number, if there is one.
pub fn token_at(tokens: &[Token], number: usize) -> Option<Token>
    ensures { result ≡ slice_get tokens.now number }
{
    match tokens.get(number) {
        Some(token) => Some(*token),
        None => None,
    }
}

/// The token before the one of this number, if there is one.
pub fn before_at(tokens: &[Token], number: usize) -> Option<Token>
    ensures { result ≡ spec.before_at tokens.now number }
{
    if number == 0 {
        return None;
    }
    token_at(tokens, number - 1)
}

/// Whether the token of this number is a number.
pub fn is_number_at(tokens: &[Token], number: usize) -> bool
    ensures { result ≡ spec.is_number_at tokens.now number }
{
    match token_at(tokens, number) {
        Some(token) => matches!(token.kind, TokenKind::Number | TokenKind::Decimal),
        None => false,
    }
}

fn keyword_as(kind: TokenKind, spelling: &[u8]) -> Option<Keyword>
    ensures { result ≡ spec.keyword_as kind spelling.now }
{
    match kind {
        TokenKind::Keyword => keyword_of(spelling),
        _ => None,
    }
}

// The keyword before the token of this number, if one stands there.
fn keyword_before(bytes: &[u8], tokens: &[Token], number: usize) -> Option<Keyword>
    ensures { result ≡ spec.keyword_before bytes.now tokens.now number }
{
    match before_at(tokens, number) {
        Some(token) => keyword_as(token.kind, bytes_at(bytes, token.span)),
        None => None,
    }
}

/// Whether a name of this number is the table's: FROM stands before it.
pub fn is_table_at(bytes: &[u8], tokens: &[Token], number: usize) -> bool
    ensures { result ≡ spec.is_table_at bytes.now tokens.now number }
{
    matches!(keyword_before(bytes, tokens, number), Some(Keyword::From))
}

/// Whether what stands there is a limit: LIMIT stands before it.
pub fn is_limit_at(bytes: &[u8], tokens: &[Token], number: usize) -> bool
    ensures { result ≡ spec.is_limit_at bytes.now tokens.now number }
{
    matches!(keyword_before(bytes, tokens, number), Some(Keyword::Limit))
}
