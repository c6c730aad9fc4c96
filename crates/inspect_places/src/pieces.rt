// How long the longest piece at the beginning of a text is: white space, a comment or a token.

ghost use Rattle.std.specs.Prelude.{◌≡◌, ◌<◌, length, true, Some, option_map, slice_index};
ghost use Rattle.sql_tokens.specs.Classes.{is_in};
ghost use Rattle.sql_tokens.specs.Pieces as spec;
ghost use Rattle.sql_tokens.specs.declared.class.Class.TheVariants as class;
ghost use Rattle.sql_tokens.specs.declared.piece.Piece.{Piece};
ghost use Rattle.sql_tokens.specs.declared.piece.Piece.TheVariants.{Lexeme};
ghost use Rattle.sql_tokens.specs.declared.token.TokenKind.TheVariants as kind;
ghost use Rattle.inspect_places.specs.Prefixes.{IsLong};

use crate::runs::{digits_len, is_digit, is_letter, is_white, line_len, white_len, word_len};

/// How long the longest piece at the beginning is, if one is there.
pub fn piece_len(bytes: &[u8]) -> Option<usize>
    ensures { IsLong spec.piece_of bytes.now result }
{
    if bytes.is_empty() {
        return None;
    }
    let b = bytes[0];
    if is_white(b) {
        Some(white_len(bytes))
    } else if is_letter(b) {
        Some(word_len(bytes))
    } else if is_digit(b) {
        Some(number_len(bytes))
    } else if b == b'\'' {
        text_len(bytes)
    } else if b == b'"' {
        quoted_name_len(bytes)
    } else {
        other_len(bytes)
    }
}

/// How many digits stand behind a point at the beginning.
fn fraction_len(bytes: &[u8]) -> usize
    ensures { result ≡ spec.fraction_len bytes.now }
{
    if bytes.is_empty() || bytes[0] != b'.' {
        return 0;
    }
    digits_len(&bytes[1..])
}

fn number_len(bytes: &[u8]) -> usize
    requires some { 0 < length bytes.now }
    requires first { is_in class.Digit (slice_index bytes.now 0) ≡ true }
    ensures { (p : Piece) × spec.Longest spec.number_of bytes.now (Some (p, result)) }
{
    let whole = digits_len(bytes);
    let places = fraction_len(&bytes[whole..]);
    if places == 0 {
        whole
    } else {
        whole + 1 + places
    }
}

/// The length of the longest prefix, behind an opening quote, that ends at a closing one.
fn quoted_len(quote: u8, bytes: &[u8]) -> Option<usize>
    ensures { spec.ClosesLast quote true bytes.now result }
{
    let mut best = None;
    let mut is_open = true;
    for (i, b) in bytes.iter().enumerate() {
        if is_open {
            if *b == quote {
                is_open = false;
                best = Some(i + 1);
            }
        } else if *b == quote {
            is_open = true;
        } else {
            return best;
        }
    }
    best
}

fn text_len(bytes: &[u8]) -> Option<usize>
    requires { 0 < length bytes.now }
    ensures { spec.Longest spec.text_of bytes.now (option_map (λ n. (Lexeme kind.Text, n)) result) }
{
    match quoted_len(b'\'', &bytes[1..]) {
        Some(n) => Some(n + 1),
        None => None,
    }
}

fn quoted_name_len(bytes: &[u8]) -> Option<usize>
    requires { 0 < length bytes.now }
    ensures { spec.Longest spec.quoted_of bytes.now (option_map (λ n. (Lexeme kind.QuotedName, n)) result) }
{
    match quoted_len(b'"', &bytes[1..]) {
        Some(n) if n >= 2 => Some(n + 1),
        _ => None,
    }
}

fn is_one(a: u8) -> bool
    ensures { result ≡ spec.is_one a }
{
    matches!(a, b'(' | b')' | b',' | b'*' | b'-' | b'=' | b'<' | b'>')
}

fn is_two(a: u8, b: u8) -> bool
    ensures { result ≡ spec.is_two a b }
{
    (a == b'<' && b == b'>') || (b == b'=' && (a == b'!' || a == b'<' || a == b'>'))
}

fn one(a: u8) -> Option<usize>
    ensures { result ≡ option_map (λ x. x.1) (spec.one_at a) }
{
    if is_one(a) { Some(1) } else { None }
}

/// A comment or a symbol.
fn other_len(bytes: &[u8]) -> Option<usize>
    requires { 0 < length bytes.now }
    ensures { result ≡ option_map (λ x. x.1) (spec.longest_other bytes.now) }
{
    if bytes.len() < 2 {
        return one(bytes[0]);
    }
    let (a, b) = (bytes[0], bytes[1]);
    if a == b'-' && b == b'-' {
        Some(2 + line_len(&bytes[2..]))
    } else if is_two(a, b) {
        Some(2)
    } else {
        one(a)
    }
}
