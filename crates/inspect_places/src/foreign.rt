// What is known from other SQL and is not in this language.

ghost use Rattle.std.specs.Prelude.{◌≡◌};
ghost use Rattle.std.specs.Str.{str_eq_ignore_ascii_case};
ghost use Rattle.inspect_places.specs.Foreign as spec;

use crate::kind::Kind;
use crate::near::{before_at, token_at};
use crate::spelled::bytes_at;
use sql_tokens::{Token, TokenKind};

/// What people know from other SQL and try, and this language doesn't have.
#[derive(Clone, Copy, Debug, PartialEq, Eq)]
pub enum Foreign {
    Distinct,
    Avg,
    As,
    In,
    Between,
    Like,
    Having,
    Join,
    /// `*` where no star may stand.
    Star,
    /// A text in double quotes.
    Quoted,
}

const WORDS: [Foreign; 8] = [
    Foreign::Distinct,
    Foreign::Avg,
    Foreign::As,
    Foreign::In,
    Foreign::Between,
    Foreign::Like,
    Foreign::Having,
    Foreign::Join,
];

impl Foreign {
    /// What it is, in the words of a message: `AVG`.
    pub fn name(self) -> &'static [u8]
        ensures { result.now ≡ spec.name_of self }
    {
        match self {
            Foreign::Distinct => b"DISTINCT",
            Foreign::Avg => b"AVG",
            Foreign::As => b"AS",
            Foreign::In => b"IN",
            Foreign::Between => b"BETWEEN",
            Foreign::Like => b"LIKE",
            Foreign::Having => b"HAVING",
            Foreign::Join => b"JOIN",
            Foreign::Star => b"* for all columns",
            Foreign::Quoted => b"a text in double quotes",
        }
    }

    /// What to write instead: `SUM and COUNT`.
    pub fn instead(self) -> &'static [u8]
        ensures { result.now ≡ spec.instead_of self }
    {
        match self {
            Foreign::Distinct => b"GROUP BY the columns",
            Foreign::Avg => b"SUM and COUNT",
            Foreign::As => b"answers have no names, and the table is t",
            Foreign::In => b"a comparison with each value, and OR between them",
            Foreign::Between => b">= the one and <= the other, and AND between them",
            Foreign::Like => b"texts compare by bytes, as in >= 'n' AND < 'o'",
            Foreign::Having => b"leave it out, and choose among the lines of the answer",
            Foreign::Join => b"a batch is over one table, which is made before",
            Foreign::Star => b"name the columns; COUNT(*) counts rows",
            Foreign::Quoted => b"single quotes; in double quotes stands a name",
        }
    }
}

fn is_same_word(a: &[u8], b: &[u8]) -> bool
    ensures { result ≡ str_eq_ignore_ascii_case a.now b.now }
{
    a.eq_ignore_ascii_case(b)
}

fn find_in(mut table: &[Foreign], word: &[u8]) -> Option<Foreign>
    ensures { result ≡ spec.find_in table.entry.now word.now }
{
    while let [foreign, rest @ ..] = table {
        if is_same_word(foreign.name(), word) {
            return Some(*foreign);
        }
        table = rest;
    }
    None
}

fn star_of(spelling: &[u8]) -> Option<Foreign>
    ensures { result ≡ spec.star_of spelling.now }
{
    match spelling {
        [a] => {
            if *a == b'*' {
                Some(Foreign::Star)
            } else {
                None
            }
        }
        _ => None,
    }
}

// A word that isn't quoted.
fn word_as(kind: TokenKind, spelling: &[u8]) -> Option<Foreign>
    ensures { result ≡ spec.word_as kind spelling.now }
{
    match kind {
        TokenKind::Name => find_in(&WORDS, spelling),
        _ => None,
    }
}

// A word, a star, or a name in double quotes where a text could stand.
fn foreign_as(takes_text: bool, kind: TokenKind, spelling: &[u8]) -> Option<Foreign>
    ensures { result ≡ spec.foreign_as takes_text kind spelling.now }
{
    match kind {
        TokenKind::QuotedName => {
            if takes_text {
                Some(Foreign::Quoted)
            } else {
                None
            }
        }
        TokenKind::Symbol => star_of(spelling),
        _ => word_as(kind, spelling),
    }
}

fn here(bytes: &[u8], takes_text: bool, token: Option<Token>) -> Option<Foreign>
    ensures { result ≡ spec.here bytes.now takes_text token }
{
    match token {
        Some(token) => foreign_as(takes_text, token.kind, bytes_at(bytes, token.span)),
        None => None,
    }
}

fn word_at(bytes: &[u8], token: Option<Token>) -> Option<Foreign>
    ensures { result ≡ spec.word_at bytes.now token }
{
    match token {
        Some(token) => word_as(token.kind, bytes_at(bytes, token.span)),
        None => None,
    }
}

/// What is known of the refused token of this number: it is on the list, or the word before it is.
pub fn foreign_at(
    bytes: &[u8],
    takes_text: bool,
    tokens: &[Token],
    number: usize,
) -> Option<Foreign>
    ensures { result ≡ spec.foreign_at bytes.now takes_text tokens.now number }
{
    match here(bytes, takes_text, token_at(tokens, number)) {
        Some(foreign) => Some(foreign),
        None => word_at(bytes, before_at(tokens, number)),
    }
}

fn is_text(kind: Kind) -> bool
    ensures { result ≡ spec.is_text kind }
{
    matches!(kind, Kind::Text)
}

/// Whether a text is among what could stand there.
pub fn takes_text(stands: &[Kind]) -> bool
    ensures { result ≡ spec.takes_text stands.now }
{
    let mut left = stands;
    while let [kind, rest @ ..] = left {
        if is_text(*kind) {
            return true;
        }
        left = rest;
    }
    false
}
