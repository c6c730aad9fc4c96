// What a token is to the grammar.

ghost use Rattle.std.specs.Prelude.{◌≡◌, ◌≤◌, ◌+◌, ◌-◌, ◌*◌, ◌^◌, length};
ghost use Rattle.sql_text.specs.Reading.{up_to};
ghost use Rattle.sql_text.specs.Words as words;
ghost use Rattle.sql_tokens.specs.declared.token.TokenKind.TheVariants as kind;
ghost use Rattle.inspect_places.specs.Kinds as spec;

use crate::kind::Kind;
use sql_tokens::{Token, TokenKind, keyword_of};

/// How large a number is, a point left out.
#[derive(Clone, Copy, Debug, PartialEq, Eq)]
pub enum Size {
    /// At most 4096, the greatest limit; or no number.
    Limit,
    /// Below 2^63.
    Positive,
    /// 2^63, which may stand behind a minus alone.
    Negative,
    /// More than 2^63, or a decimal with more than 9 places.
    TooLarge,
}

/// A token's kind, and its size where it is a number.
#[derive(Clone, Copy, Debug, PartialEq, Eq)]
pub struct Word {
    pub kind: Kind,
    pub size: Size,
}

/// The value with one more digit, where it is at most 2^63.
fn with_digit(value: u64, digit: u8) -> Option<u64>
    requires { value ≤ 2 ^ 63 }
    ensures { result ≡ up_to (2 ^ 63) (10 * value + (digit - 48)) }
{
    if value > (1 << 63) / 10 {
        return None;
    }
    let next = 10 * value + digit.saturating_sub(b'0') as u64;
    if next <= 1 << 63 { Some(next) } else { None }
}

/// The value of digits, a point left out, where it is at most 2^63.
fn value(digits: &[u8]) -> Option<u64>
    ensures { result ≡ up_to (2 ^ 63) (words.value_of digits.now) }
{
    let mut value = 0;
    for b in digits {
        if *b != b'.' {
            match with_digit(value, *b) {
                Some(next) => value = next,
                None => return None,
            }
        }
    }
    Some(value)
}

/// How many bytes stand behind the point.
fn places(mut digits: &[u8]) -> usize
    ensures { result ≡ words.places_of digits.entry.now }
{
    while let [b, rest @ ..] = digits {
        if *b == b'.' {
            return rest.len();
        }
        digits = rest;
    }
    0
}

fn size_of_value(value: Option<u64>) -> Size
    ensures { result ≡ spec.size_of_value value }
{
    match value {
        Some(n) if n <= 4096 => Size::Limit,
        Some(n) if n < 1 << 63 => Size::Positive,
        Some(_) => Size::Negative,
        None => Size::TooLarge,
    }
}

fn size_of_number(digits: &[u8]) -> Size
    ensures { result ≡ spec.number_size (words.value_of digits.now) }
{
    size_of_value(value(digits))
}

fn size_of_decimal(spelling: &[u8]) -> Size
    ensures { result ≡ spec.decimal_size (words.value_of spelling.now) (words.places_of spelling.now) }
{
    if places(spelling) > 9 {
        return Size::TooLarge;
    }
    size_of_number(spelling)
}

fn one_sign(a: u8) -> Kind
    ensures { result ≡ spec.kind_of (words.one_sign a) }
{
    match a {
        b'(' => Kind::Open,
        b')' => Kind::Close,
        b',' => Kind::Comma,
        b'*' => Kind::Star,
        b'-' => Kind::Minus,
        _ => Kind::Comparison,
    }
}

fn symbol(spelling: &[u8]) -> Kind
    ensures { result ≡ spec.kind_of (words.symbol_of spelling.now) }
{
    match spelling {
        [] => Kind::Comma,
        [a] => one_sign(*a),
        _ => Kind::Comparison,
    }
}

fn small(kind: Kind) -> Word
    ensures { result ≡ spec.small kind }
{
    Word {
        kind,
        size: Size::Limit,
    }
}

fn keyword(spelling: &[u8]) -> Word
    ensures { result ≡ spec.word_of (words.meaning kind.Keyword spelling.now) }
{
    match keyword_of(spelling) {
        Some(keyword) => small(Kind::Key(keyword)),
        None => small(Kind::Name),
    }
}

/// A token of this kind that is spelled so.
fn word_of(kind: TokenKind, spelling: &[u8]) -> Word
    ensures { result ≡ spec.word_of (words.meaning kind spelling.now) }
{
    match kind {
        TokenKind::Keyword => keyword(spelling),
        TokenKind::Name | TokenKind::QuotedName => small(Kind::Name),
        TokenKind::Text => small(Kind::Text),
        TokenKind::Number => Word {
            kind: Kind::Number,
            size: size_of_number(spelling),
        },
        TokenKind::Decimal => Word {
            kind: Kind::Decimal,
            size: size_of_decimal(spelling),
        },
        TokenKind::Symbol => small(symbol(spelling)),
    }
}

/// What a token of the text is.
pub fn word_at(bytes: &[u8], token: Token) -> Word
    requires { (token.span.from ≤ token.span.to) × (token.span.to ≤ length bytes.now) }
    ensures { result ≡ spec.word_of (words.meaning_in bytes.now token) }
{
    let spelling = &bytes[token.span.from as usize..token.span.to as usize];
    word_of(token.kind, spelling)
}
