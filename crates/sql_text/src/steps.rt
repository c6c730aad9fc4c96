// Single tokens.

ghost use Rattle.std.specs.Prelude.{◌≡◌};
ghost use Rattle.sql_text.specs.Reading as spec;
ghost use Rattle.sql_text.specs.Words.{Makes, name_of, tokens_of, unquoted};

use crate::word::{Sign, Word};
use sql_tokens::{Keyword, TextRefusal};
use std::alloc::Global;
use table_core::Bytes;

/// What stands behind the keyword, if it comes first.
pub fn after_key<'a, 'b>(keyword: Keyword, words: &'a [Word<'b>]) -> Option<&'a [Word<'b>]>
    ensures { spec.rest_seen result ≡ spec.after_key keyword (tokens_of words.now) }
{
    match words {
        [Word::Key(key), rest @ ..] if *key == keyword => Some(rest),
        _ => None,
    }
}

/// What stands behind the sign, if it comes first.
pub fn after_sign<'a, 'b>(sign: Sign, words: &'a [Word<'b>]) -> Option<&'a [Word<'b>]>
    ensures { spec.rest_seen result ≡ spec.after_sign sign (tokens_of words.now) }
{
    match words {
        [Word::Sign(first), rest @ ..] if *first == sign => Some(rest),
        _ => None,
    }
}

/// A name, as it is spelled, and what stands behind it, if it comes first.
pub fn column_at<'a, 'b>(words: &'a [Word<'b>]) -> Option<(bool, &'b [u8], &'a [Word<'b>])>
    ensures { spec.column_seen result ≡ spec.column_at (tokens_of words.now) }
{
    match words {
        [
            Word::Column {
                is_quoted,
                spelling,
            },
            rest @ ..,
        ] => Some((*is_quoted, spelling, rest)),
        _ => None,
    }
}

/// A copy of what stands between quotes, with one quote for each doubled one.
pub fn unquoted(alloc: Global, quoted: &[u8]) -> Result<Bytes, TextRefusal>
    ensures { Makes (λ bytes. bytes) (unquoted quoted.now) result }
{
    let mut items = Vec::with_capacity(alloc, quoted.len())?;
    if let Some((quote, rest)) = quoted.split_first() {
        let mut is_open = true;
        for b in rest {
            if is_open && b == quote {
                is_open = false;
            } else {
                items.push(*b)?;
                is_open = true;
            }
        }
    }
    Ok(Bytes::new(items))
}

/// A copy of a name.
pub fn owned(alloc: Global, is_quoted: bool, spelling: &[u8]) -> Result<Bytes, TextRefusal>
    ensures { Makes (λ bytes. bytes) (name_of is_quoted spelling.now) result }
{
    if is_quoted {
        unquoted(alloc, spelling)
    } else {
        Ok(Bytes::new(spelling.to_vec(alloc)?))
    }
}

/// A copy of the name that comes first.
pub fn name_at<'a, 'b>(
    alloc: Global,
    words: &'a [Word<'b>],
) -> Result<(Bytes, &'a [Word<'b>]), TextRefusal>
    ensures { spec.Gives (λ x. (x.0, tokens_of x.1.now)) result (spec.column_at (tokens_of words.now)) }
{
    let Some((is_quoted, spelling, rest)) = column_at(words) else {
        return Err(TextRefusal::Syntax);
    };
    let name = owned(alloc, is_quoted, spelling)?;
    Ok((name, rest))
}
