// Tokens as the grammar reads them.

ghost use Rattle.std.specs.Prelude.{◌≡◌, ◌≤◌, ◌^◌, length, List, map, ℕ};
ghost use Rattle.sql_text.specs.Grammar.{Column};
ghost use Rattle.sql_text.specs.Words as spec;

use sql_tokens::{Keyword, TextRefusal, Token, TokenKind, keyword_of};
use std::alloc::Global;
use table_core::Op;

/// A symbol that compares nothing.
#[derive(Clone, Copy, PartialEq, Eq)]
pub enum Sign {
    Open,
    Close,
    Comma,
    Star,
    Minus,
}

/// A token with its meaning. Names, numbers and texts stay where they are in the text.
#[derive(Clone, Copy)]
pub enum Word<'b> {
    Key(Keyword),
    Sign(Sign),
    Compares(Op),
    /// A name as it is spelled, with its quotes or without any.
    Column { is_quoted: bool, spelling: &'b [u8] },
    Number(&'b [u8]),
    Decimal(&'b [u8]),
    Text(&'b [u8]),
}

fn one_sign(a: u8) -> Word<'static>
    ensures { spec.token_of result ≡ spec.one_sign a }
{
    match a {
        b'(' => Word::Sign(Sign::Open),
        b')' => Word::Sign(Sign::Close),
        b',' => Word::Sign(Sign::Comma),
        b'*' => Word::Sign(Sign::Star),
        b'-' => Word::Sign(Sign::Minus),
        b'=' => Word::Compares(Op::Eq),
        b'<' => Word::Compares(Op::Lt),
        _ => Word::Compares(Op::Gt),
    }
}

fn two_signs(a: u8, b: u8) -> Word<'static>
    ensures { spec.token_of result ≡ spec.two_signs a b }
{
    if b != b'=' || a == b'!' {
        Word::Compares(Op::Ne)
    } else if a == b'<' {
        Word::Compares(Op::Le)
    } else {
        Word::Compares(Op::Ge)
    }
}

fn symbol_of(spelling: &[u8]) -> Word<'static>
    ensures { spec.token_of result ≡ spec.symbol_of spelling.now }
{
    match spelling {
        [] => Word::Sign(Sign::Comma),
        [a] => one_sign(*a),
        [a, b, ..] => two_signs(*a, *b),
    }
}

fn column(is_quoted: bool, spelling: &[u8]) -> Word<'_>
    ensures { spec.token_of result ≡ Column (spec.name_of is_quoted spelling.now) }
{
    Word::Column {
        is_quoted,
        spelling,
    }
}

/// The meaning of a token of this kind that is spelled so.
fn word_of(kind: TokenKind, spelling: &[u8]) -> Word<'_>
    ensures { spec.token_of result ≡ spec.meaning kind spelling.now }
{
    match kind {
        TokenKind::Keyword => match keyword_of(spelling) {
            Some(keyword) => Word::Key(keyword),
            None => column(false, spelling),
        },
        TokenKind::Name => column(false, spelling),
        TokenKind::QuotedName => column(true, spelling),
        TokenKind::Text => Word::Text(spelling),
        TokenKind::Number => Word::Number(spelling),
        TokenKind::Decimal => Word::Decimal(spelling),
        TokenKind::Symbol => symbol_of(spelling),
    }
}

fn word_at(bytes: &[u8], token: Token) -> Word<'_>
    requires { (token.span.from ≤ token.span.to) × (token.span.to ≤ length bytes.now) }
    ensures { spec.token_of result ≡ spec.meaning_in bytes.now token }
{
    let spelling = &bytes[token.span.from as usize..token.span.to as usize];
    word_of(token.kind, spelling)
}

/// The tokens of a text with their meanings.
pub fn words_of<'b>(
    alloc: Global,
    bytes: &'b [u8],
    mut tokens: &[Token],
) -> Result<Vec<Word<'b>>, TextRefusal>
    requires { spec.StandIn bytes.now tokens.now }
    ensures { spec.Makes (λ words. spec.tokens_of words.items) (map (spec.meaning_in bytes.now) tokens.entry.now)
        result }
{
    let mut words = Vec::new(alloc);
    while let [token, rest @ ..] = tokens {
        words.push(word_at(bytes, *token))?;
        tokens = rest;
    }
    Ok(words)
}
