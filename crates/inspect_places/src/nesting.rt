// The token that is nested too deep.

ghost use Rattle.std.specs.Prelude.{◌≡◌, map};
ghost use Rattle.sql_text.specs.Words.{StandIn, meaning_in};
ghost use Rattle.inspect_places.specs.Nesting as spec;

use crate::kind::Kind;
use crate::word::word_at;
use sql_tokens::{Keyword, Token};

/// So many tokens may be `AND`, `OR`, `NOT` or `(`.
const MOST_NESTED: usize = 256;

fn nests(kind: Kind) -> bool
    ensures { result ≡ spec.kind_nests kind }
{
    match kind {
        Kind::Key(keyword) => matches!(keyword, Keyword::And | Keyword::Or | Keyword::Not),
        Kind::Open => true,
        _ => false,
    }
}

/// The number of the first token behind which more than 256 nest; without one, how many tokens there are.
pub fn nested_number(bytes: &[u8], tokens: &[Token]) -> usize
    requires { StandIn bytes.now tokens.now }
    ensures { result ≡ spec.nested_from 256 (map (meaning_in bytes.now) tokens.now) }
{
    let mut room = MOST_NESTED;
    let mut number = 0;
    let mut left = tokens;
    while let [token, rest @ ..] = left {
        if nests(word_at(bytes, *token).kind) {
            if room == 0 {
                return number;
            }
            room -= 1;
        }
        number += 1;
        left = rest;
    }
    number
}
