// Reads a query.

ghost use Rattle.std.specs.Prelude.{◌≡◌, ◌<◌, ◌≤◌, ◌^◌, IfOk, IfErr, List, ℕ, length, true, false};
ghost use Rattle.sql_text.specs.Grammar.{QueryTree, has_too_many, nesting, nests};
ghost use Rattle.sql_text.specs.Queries.{AreRefused, HasQuery, IsRead, IsRefused};
ghost use Rattle.sql_text.specs.Reading as spec;
ghost use Rattle.sql_text.specs.Reading.{Gives, parsed_of, query_of};
ghost use Rattle.sql_text.specs.Words.{token_of, tokens_of, value_of};
ghost use Rattle.sql_tokens.specs.declared.refusal.TextRefusal.{TextRefusal};
ghost use Rattle.sql_tokens.specs.declared.refusal.TextRefusal.TheVariants.{Memory, TooManyItems};

use crate::condition::QCond;
use crate::conditions::where_at;
use crate::lists::all_at;
use crate::literals::value;
use crate::query::{QItem, Query};
use crate::steps::{after_key, name_at};
use crate::tail::{Tail, tail_at};
use crate::word::{Sign, Word, words_of};
use sql_tokens::{Keyword, TextRefusal, lex};
use std::alloc::Global;
use table_core::Bytes;

/// A query whose limits aren't judged yet.
#[derive(Drop)]
pub struct Parsed<'b> {
    pub items: Vec<QItem>,
    pub table: Bytes,
    pub cond: Option<QCond>,
    pub tail: Tail<'b>,
}

fn is_plain(item: &QItem) -> bool
    ensures { result ≡ spec.is_plain item.now }
{
    matches!(item, QItem::Plain(_))
}

fn all_plain(items: &[QItem]) -> bool
    ensures { result ≡ spec.all_plain items.now }
{
    items.iter().all(is_plain)
}

/// The items, the table's name and what stands behind.
fn head_at<'a, 'b>(
    alloc: Global,
    words: &'a [Word<'b>],
) -> Result<(Vec<QItem>, Bytes, &'a [Word<'b>]), TextRefusal>
    ensures { Gives (λ x. ((x.0.items, x.1), tokens_of x.2.now)) result (spec.head_at (tokens_of words.now)) }
{
    let Some(rest) = after_key(Keyword::Select, words) else {
        return Err(TextRefusal::Syntax);
    };
    let (items, rest) = all_at(alloc, rest)?;
    let Some(rest) = after_key(Keyword::From, rest) else {
        return Err(TextRefusal::Syntax);
    };
    let (table, rest) = name_at(alloc, rest)?;
    Ok((items, table, rest))
}

fn read_parts<'b>(alloc: Global, words: &[Word<'b>]) -> Result<Parsed<'b>, TextRefusal>
    ensures { Gives parsed_of result (spec.query_at (tokens_of words.now)) }
{
    let (items, table, rest) = head_at(alloc, words)?;
    let (cond, rest) = where_at(alloc, rest)?;
    let tail = tail_at(alloc, rest)?;
    if tail.limit.is_some() && !all_plain(&items) {
        return Err(TextRefusal::Syntax);
    }
    Ok(Parsed {
        items,
        table,
        cond,
        tail,
    })
}

/// The number behind LIMIT, where it is at most 4096.
fn limit_of(digits: &[u8]) -> Option<u32>
    ensures { result ≡ spec.up_to 4096 (value_of digits.now) }
{
    match value(digits) {
        Some(n) if n <= 4096 => Some(n as u32),
        _ => None,
    }
}

/// The query, where it passes no limit.
fn within_limits(parts: Parsed<'_>) -> Result<Query, TextRefusal>
    ensures ok { IfOk result (λ q. (query_of q ≡ parsed_of parts.entry)
        × (has_too_many (parsed_of parts.entry) ≡ false)) }
    ensures err { IfErr result (λ e. (e ≡ TooManyItems) × (has_too_many (parsed_of parts.entry) ≡ true)) }
{
    let Parsed {
        items,
        table,
        cond,
        tail,
    } = parts;
    let Tail { keys, order, limit } = tail;
    if items.len() > 32 || keys.len() > 32 || order.len() > 32 {
        return Err(TextRefusal::TooManyItems);
    }
    let limit = match limit {
        Some(digits) => Some(limit_of(digits).ok_or(TextRefusal::TooManyItems)?),
        None => None,
    };
    Ok(Query {
        items,
        table,
        cond,
        keys,
        order,
        limit,
    })
}

fn nests(word: &Word<'_>) -> bool
    ensures { result ≡ nests (token_of word.now) }
{
    match word {
        Word::Key(keyword) => matches!(keyword, Keyword::And | Keyword::Or | Keyword::Not),
        Word::Sign(sign) => matches!(sign, Sign::Open),
        _ => false,
    }
}

/// How many tokens are `AND`, `OR`, `NOT` or `(`.
fn nesting(mut words: &[Word<'_>]) -> usize
    ensures value { result ≡ nesting (tokens_of words.entry.now) }
    ensures within { result ≤ length words.entry.now }
{
    let mut count = 0;
    while let [word, rest @ ..] = words {
        if nests(word) {
            count += 1;
        }
        words = rest;
    }
    count
}

fn read_words(alloc: Global, words: &[Word<'_>]) -> Result<Query, TextRefusal>
    ensures ok { IfOk result (λ q. IsRead (tokens_of words.now) (query_of q)) }
    ensures err { IfErr result (λ e. AreRefused (tokens_of words.now) e) }
{
    if nesting(words) > 256 {
        return Err(TextRefusal::TooNested);
    }
    let parts = read_parts(alloc, words)?;
    within_limits(parts)
}

/// The query that a text is, by the part "Queries" of `docs/SQL.md`.
///
/// The text has at most 4294967295 bytes. The time grows with its length.
///
/// # Errors
///
/// In this order: `Syntax` exactly where the bytes have no list of tokens, `TooNested` exactly where more than 256
/// tokens are `AND`, `OR`, `NOT` or `(`, `Syntax` exactly where the tokens are no query, `TooManyItems` exactly where
/// there are more than 32 items, key columns or orders or the number behind LIMIT passes 4096, and `Memory`.
pub fn read_query(alloc: Global, bytes: &[u8]) -> Result<Query, TextRefusal>
    requires { length bytes.now < 2 ^ 32 }
    // The text is this query, and passes no limit.
    ensures found { IfOk result (λ q. HasQuery bytes.now (query_of q)) }
    // Why a text is refused, unless memory ran out.
    ensures refused { IfErr result (λ e. IsRefused bytes.now e) }
{
    let tokens = lex(alloc, bytes)?;
    let words = words_of(alloc, bytes, &tokens)?;
    read_words(alloc, &words)
}

/// A text is one query at most, and a text that is a query is refused only when out of memory.
pub fn one_query()
    ensures same { (bytes : List ℕ) (p q : QueryTree) → HasQuery bytes p → HasQuery bytes q → p ≡ q }
    ensures read { (bytes : List ℕ) (q : QueryTree) (e : TextRefusal) → HasQuery bytes q → IsRefused bytes e → e
        ≡ Memory }
{}
