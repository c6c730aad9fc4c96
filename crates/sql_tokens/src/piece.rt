// The longest piece at the front of a text: white space, a comment or a token.

ghost use Rattle.std.specs.Prelude.{◌≡◌, ◌<◌, length, true, Some, slice_index};
ghost use Rattle.sql_tokens.specs.Classes as classes;
ghost use Rattle.sql_tokens.specs.Pieces as spec;
ghost use Rattle.sql_tokens.specs.declared.class.Class.TheVariants as class;

use crate::class::{Class, is_in, run_len};
use crate::keyword::keyword_of;
use crate::token::TokenKind;

/// What a part of a text is.
#[derive(Clone, Copy)]
pub enum Piece {
    /// White space.
    Blank,
    /// Two dashes and the rest of the line.
    Comment,
    /// A token.
    Lexeme(TokenKind),
}

/// The longest piece at the front of the text, and its length.
pub fn first_piece(bytes: &[u8]) -> Option<(Piece, usize)>
    ensures { spec.Longest spec.piece_of bytes.now result }
{
    if bytes.is_empty() {
        return None;
    }
    let b = bytes[0];
    if is_in(Class::White, b) {
        Some((Piece::Blank, run_len(Class::White, bytes)))
    } else if is_in(Class::Letter, b) {
        Some(word(bytes))
    } else if is_in(Class::Digit, b) {
        Some(number(bytes))
    } else if b == b'\'' {
        text(bytes)
    } else if b == b'"' {
        quoted_name(bytes)
    } else {
        other(bytes)
    }
}

fn kind_of_word(word: &[u8]) -> TokenKind
    ensures { result ≡ spec.kind_of_word word.now }
{
    match keyword_of(word) {
        Some(_) => TokenKind::Keyword,
        None => TokenKind::Name,
    }
}

fn word(bytes: &[u8]) -> (Piece, usize)
    requires some { 0 < length bytes.now }
    requires first { classes.is_in class.Letter (slice_index bytes.now 0) ≡ true }
    ensures { spec.Longest spec.word_of bytes.now (Some result) }
{
    let end = run_len(Class::Word, bytes);
    (Piece::Lexeme(kind_of_word(&bytes[..end])), end)
}

/// How many digits stand behind a point at the front.
fn fraction_len(bytes: &[u8]) -> usize
    ensures { result ≡ spec.fraction_len bytes.now }
{
    if bytes.is_empty() || bytes[0] != b'.' {
        return 0;
    }
    run_len(Class::Digit, &bytes[1..])
}

fn number(bytes: &[u8]) -> (Piece, usize)
    requires some { 0 < length bytes.now }
    requires first { classes.is_in class.Digit (slice_index bytes.now 0) ≡ true }
    ensures { spec.Longest spec.number_of bytes.now (Some result) }
{
    let whole = run_len(Class::Digit, bytes);
    let places = fraction_len(&bytes[whole..]);
    if places == 0 {
        (Piece::Lexeme(TokenKind::Number), whole)
    } else {
        (Piece::Lexeme(TokenKind::Decimal), whole + 1 + places)
    }
}

/// The length of the longest prefix, behind an opening quote, that ends at a closing one.
fn quoted_len(quote: u8, bytes: &[u8]) -> Option<usize>
    ensures { spec.ClosesLast quote true bytes.now result }
{
    let mut best = None;
    let mut is_open = true;
    for (i, b) in bytes.iter().enumerate() {
        if is_open {
            if *b == quote {
                is_open = false;
                best = Some(i + 1);
            }
        } else if *b == quote {
            is_open = true;
        } else {
            return best;
        }
    }
    best
}

fn text(bytes: &[u8]) -> Option<(Piece, usize)>
    requires { 0 < length bytes.now }
    ensures { spec.Longest spec.text_of bytes.now result }
{
    match quoted_len(b'\'', &bytes[1..]) {
        Some(n) => Some((Piece::Lexeme(TokenKind::Text), n + 1)),
        None => None,
    }
}

fn quoted_name(bytes: &[u8]) -> Option<(Piece, usize)>
    requires { 0 < length bytes.now }
    ensures { spec.Longest spec.quoted_of bytes.now result }
{
    match quoted_len(b'"', &bytes[1..]) {
        Some(n) if n >= 2 => Some((Piece::Lexeme(TokenKind::QuotedName), n + 1)),
        _ => None,
    }
}

fn is_one(a: u8) -> bool
    ensures { result ≡ spec.is_one a }
{
    matches!(a, b'(' | b')' | b',' | b'*' | b'-' | b'=' | b'<' | b'>')
}

fn is_two(a: u8, b: u8) -> bool
    ensures { result ≡ spec.is_two a b }
{
    (a == b'<' && b == b'>') || (b == b'=' && (a == b'!' || a == b'<' || a == b'>'))
}

fn one(a: u8) -> Option<(Piece, usize)>
    ensures { result ≡ spec.one_at a }
{
    if is_one(a) {
        Some((Piece::Lexeme(TokenKind::Symbol), 1))
    } else {
        None
    }
}

/// A comment or a symbol.
fn other(bytes: &[u8]) -> Option<(Piece, usize)>
    requires { 0 < length bytes.now }
    ensures { result ≡ spec.longest_other bytes.now }
{
    if bytes.len() < 2 {
        return one(bytes[0]);
    }
    let (a, b) = (bytes[0], bytes[1]);
    if a == b'-' && b == b'-' {
        Some((Piece::Comment, 2 + run_len(Class::Line, &bytes[2..])))
    } else if is_two(a, b) {
        Some((Piece::Lexeme(TokenKind::Symbol), 2))
    } else {
        one(a)
    }
}
