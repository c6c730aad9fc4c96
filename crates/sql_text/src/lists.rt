// Reads lists with a comma between their things.

ghost use Rattle.std.specs.Prelude.{◌≡◌, List};
ghost use Rattle.sql_text.specs.Reading as spec;
ghost use Rattle.sql_text.specs.Grammar.{Token};
ghost use Rattle.sql_text.specs.Reading.{Gives, Read, Takes};
ghost use Rattle.sql_text.specs.Words.{tokens_of};

use crate::query::{QItem, QOrder};
use crate::steps::{after_key, after_sign, name_at};
use crate::word::{Sign, Word};
use sql_tokens::{Keyword, TextRefusal};
use std::alloc::Global;
use table_core::Bytes;

/// A thing of a list: an item, a name or an order.
pub trait Listed: Drop + Sized {
    ghost thing_at: { List Token → Read Self };

    /// The thing that comes first, and what stands behind it.
    fn read<'a, 'b>(
        alloc: Global,
        words: &'a [Word<'b>],
    ) -> Result<(Self, &'a [Word<'b>]), TextRefusal>
        ensures { Gives (λ x. (x.0, tokens_of x.1.now)) result (thing_at (tokens_of words.now)) };
}

/// A name in parentheses.
fn inside_at<'a, 'b>(
    alloc: Global,
    words: &'a [Word<'b>],
) -> Result<(Bytes, &'a [Word<'b>]), TextRefusal>
    ensures { Gives (λ x. (x.0, tokens_of x.1.now)) result (spec.inside_at (tokens_of words.now)) }
{
    let Some(rest) = after_sign(Sign::Open, words) else {
        return Err(TextRefusal::Syntax);
    };
    let (name, rest) = name_at(alloc, rest)?;
    match after_sign(Sign::Close, rest) {
        Some(rest) => Ok((name, rest)),
        None => Err(TextRefusal::Syntax),
    }
}

/// A star in parentheses.
fn star_at<'a, 'b>(words: &'a [Word<'b>]) -> Option<&'a [Word<'b>]>
    ensures { spec.rest_seen result ≡ spec.star_at (tokens_of words.now) }
{
    let rest = after_sign(Sign::Open, words)?;
    let rest = after_sign(Sign::Star, rest)?;
    after_sign(Sign::Close, rest)
}

fn count_at<'a, 'b>(
    alloc: Global,
    words: &'a [Word<'b>],
) -> Result<(QItem, &'a [Word<'b>]), TextRefusal>
    ensures { Gives (λ x. (x.0, tokens_of x.1.now)) result (spec.count_at (tokens_of words.now)) }
{
    match star_at(words) {
        Some(rest) => Ok((QItem::CountAll, rest)),
        None => {
            let (name, rest) = inside_at(alloc, words)?;
            Ok((QItem::Count(name), rest))
        }
    }
}

/// What stands behind a keyword in an item.
fn keyed_item<'a, 'b>(
    alloc: Global,
    keyword: Keyword,
    words: &'a [Word<'b>],
) -> Result<(QItem, &'a [Word<'b>]), TextRefusal>
    ensures { Gives (λ x. (x.0, tokens_of x.1.now)) result (spec.keyed_item keyword (tokens_of words.now)) }
{
    match keyword {
        Keyword::Count => count_at(alloc, words),
        Keyword::Sum => {
            let (name, rest) = inside_at(alloc, words)?;
            Ok((QItem::Sum(name), rest))
        }
        Keyword::Min => {
            let (name, rest) = inside_at(alloc, words)?;
            Ok((QItem::Min(name), rest))
        }
        Keyword::Max => {
            let (name, rest) = inside_at(alloc, words)?;
            Ok((QItem::Max(name), rest))
        }
        _ => Err(TextRefusal::Syntax),
    }
}

impl Listed for QItem {
    ghost thing_at = { spec.item_at };

    fn read<'a, 'b>(
        alloc: Global,
        words: &'a [Word<'b>],
    ) -> Result<(QItem, &'a [Word<'b>]), TextRefusal> {
        if let [Word::Key(keyword), rest @ ..] = words {
            return keyed_item(alloc, *keyword, rest);
        }
        let (name, rest) = name_at(alloc, words)?;
        Ok((QItem::Plain(name), rest))
    }
}

impl Listed for Bytes {
    ghost thing_at = { spec.column_at };

    fn read<'a, 'b>(
        alloc: Global,
        words: &'a [Word<'b>],
    ) -> Result<(Bytes, &'a [Word<'b>]), TextRefusal> {
        name_at(alloc, words)
    }
}

/// `ASC`, `DESC` or nothing: whether it is descending, and what stands behind.
fn direction_at<'a, 'b>(words: &'a [Word<'b>]) -> (bool, &'a [Word<'b>])
    ensures { (result.0, tokens_of result.1.now) ≡ spec.direction_at (tokens_of words.now) }
{
    if let Some(rest) = after_key(Keyword::Desc, words) {
        return (true, rest);
    }
    match after_key(Keyword::Asc, words) {
        Some(rest) => (false, rest),
        None => (false, words),
    }
}

impl Listed for QOrder {
    ghost thing_at = { spec.order_at };

    fn read<'a, 'b>(
        alloc: Global,
        words: &'a [Word<'b>],
    ) -> Result<(QOrder, &'a [Word<'b>]), TextRefusal> {
        let (column, rest) = name_at(alloc, words)?;
        let (descending, rest) = direction_at(rest);
        Ok((QOrder { column, descending }, rest))
    }
}

/// Things with a comma between them, and what stands behind.
pub fn all_at<'a, 'b, T: Listed>(
    alloc: Global,
    words: &'a [Word<'b>],
) -> Result<(Vec<T>, &'a [Word<'b>]), TextRefusal>
    requires takes { Takes T.thing_at }
    ensures { Gives (λ x. (x.0.items, tokens_of x.1.now)) result (spec.all_at T.thing_at (tokens_of words.now)) }
{
    let mut things = Vec::new(alloc);
    let (first, mut left) = T::read(alloc, words)?;
    things.push(first)?;
    while let Some(more) = after_sign(Sign::Comma, left) {
        let (thing, rest) = T::read(alloc, more)?;
        things.push(thing)?;
        left = rest;
    }
    Ok((things, left))
}
