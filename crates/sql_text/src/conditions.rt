// Reads conditions, by descent. The depth is bounded, so the stack is.

ghost use Rattle.std.specs.Prelude.{◌≡◌};
ghost use Rattle.sql_text.specs.Grammar.{Both, Either, Negated};
ghost use Rattle.sql_text.specs.Reading as spec;
ghost use Rattle.sql_text.specs.Reading.{Gives, tree_of};
ghost use Rattle.sql_text.specs.Words.{Makes, name_of, tokens_of};

use crate::condition::QCond;
use crate::literals::literal_at;
use crate::steps::{after_key, after_sign, column_at, owned};
use crate::word::{Sign, Word};
use sql_tokens::{Keyword, TextRefusal};
use std::alloc::Global;

/// So many rules are open at once at most: 4 for each of 256 tokens that nest, and 3 without one.
const DEPTH: u32 = 4 * 256 + 3;

fn null_at<'a, 'b>(
    alloc: Global,
    is_quoted: bool,
    spelling: &[u8],
    negated: bool,
    words: &'a [Word<'b>],
) -> Result<(QCond, &'a [Word<'b>]), TextRefusal>
    ensures { Gives (λ x. (tree_of x.0, tokens_of x.1.now)) result
        (spec.null_at (name_of is_quoted spelling.now) negated (tokens_of words.now)) }
{
    let Some(rest) = after_key(Keyword::Null, words) else {
        return Err(TextRefusal::Syntax);
    };
    let column = owned(alloc, is_quoted, spelling)?;
    Ok((QCond::IsNull { column, negated }, rest))
}

fn is_at<'a, 'b>(
    alloc: Global,
    is_quoted: bool,
    spelling: &[u8],
    words: &'a [Word<'b>],
) -> Result<(QCond, &'a [Word<'b>]), TextRefusal>
    ensures { Gives (λ x. (tree_of x.0, tokens_of x.1.now)) result
        (spec.is_at (name_of is_quoted spelling.now) (tokens_of words.now)) }
{
    match after_key(Keyword::Not, words) {
        Some(rest) => null_at(alloc, is_quoted, spelling, true, rest),
        None => null_at(alloc, is_quoted, spelling, false, words),
    }
}

/// What stands behind a column.
fn leaf_at<'a, 'b>(
    alloc: Global,
    is_quoted: bool,
    spelling: &[u8],
    words: &'a [Word<'b>],
) -> Result<(QCond, &'a [Word<'b>]), TextRefusal>
    ensures { Gives (λ x. (tree_of x.0, tokens_of x.1.now)) result
        (spec.leaf_at (name_of is_quoted spelling.now) (tokens_of words.now)) }
{
    if let [Word::Compares(op), rest @ ..] = words {
        let (value, rest) = literal_at(alloc, rest)?;
        let column = owned(alloc, is_quoted, spelling)?;
        let op = *op;
        return Ok((QCond::Compare { column, op, value }, rest));
    }
    match after_key(Keyword::Is, words) {
        Some(rest) => is_at(alloc, is_quoted, spelling, rest),
        None => Err(TextRefusal::Syntax),
    }
}

fn close_at<'a, 'b>(
    tree: QCond,
    words: &'a [Word<'b>],
) -> Result<(QCond, &'a [Word<'b>]), TextRefusal>
    ensures { Gives (λ x. (tree_of x.0, tokens_of x.1.now)) result
        (spec.close_at (tree_of tree) (tokens_of words.now)) }
{
    match after_sign(Sign::Close, words) {
        Some(rest) => Ok((tree, rest)),
        None => Err(TextRefusal::Syntax),
    }
}

fn either(alloc: Global, left: QCond, right: QCond) -> Result<QCond, TextRefusal>
    ensures { Makes tree_of (Either (tree_of left) (tree_of right)) result }
{
    Ok(QCond::Or(Box::new(alloc, left)?, Box::new(alloc, right)?))
}

fn both(alloc: Global, left: QCond, right: QCond) -> Result<QCond, TextRefusal>
    ensures { Makes tree_of (Both (tree_of left) (tree_of right)) result }
{
    Ok(QCond::And(Box::new(alloc, left)?, Box::new(alloc, right)?))
}

fn negated(alloc: Global, inner: QCond) -> Result<QCond, TextRefusal>
    ensures { Makes tree_of (Negated (tree_of inner)) result }
{
    Ok(QCond::Not(Box::new(alloc, inner)?))
}

#[cycle(condition)]
fn or_at<'a, 'b>(
    alloc: Global,
    depth: u32,
    words: &'a [Word<'b>],
) -> Result<(QCond, &'a [Word<'b>]), TextRefusal>
    ensures { Gives (λ x. (tree_of x.0, tokens_of x.1.now)) result (spec.or_at depth (tokens_of words.now)) }
{
    if depth == 0 {
        return Err(TextRefusal::Syntax);
    }
    let (first, rest) = and_at(alloc, depth - 1, words)?;
    or_tail_at(alloc, depth - 1, first, rest)
}

#[cycle(condition)]
fn or_tail_at<'a, 'b>(
    alloc: Global,
    depth: u32,
    left: QCond,
    words: &'a [Word<'b>],
) -> Result<(QCond, &'a [Word<'b>]), TextRefusal>
    ensures { Gives (λ x. (tree_of x.0, tokens_of x.1.now)) result
        (spec.or_tail_at depth (tree_of left) (tokens_of words.now)) }
{
    if depth == 0 {
        return Err(TextRefusal::Syntax);
    }
    match after_key(Keyword::Or, words) {
        Some(rest) => {
            let (right, rest) = and_at(alloc, depth - 1, rest)?;
            let both = either(alloc, left, right)?;
            or_tail_at(alloc, depth - 1, both, rest)
        }
        None => Ok((left, words)),
    }
}

#[cycle(condition)]
fn and_at<'a, 'b>(
    alloc: Global,
    depth: u32,
    words: &'a [Word<'b>],
) -> Result<(QCond, &'a [Word<'b>]), TextRefusal>
    ensures { Gives (λ x. (tree_of x.0, tokens_of x.1.now)) result (spec.and_at depth (tokens_of words.now)) }
{
    if depth == 0 {
        return Err(TextRefusal::Syntax);
    }
    let (first, rest) = not_at(alloc, depth - 1, words)?;
    and_tail_at(alloc, depth - 1, first, rest)
}

#[cycle(condition)]
fn and_tail_at<'a, 'b>(
    alloc: Global,
    depth: u32,
    left: QCond,
    words: &'a [Word<'b>],
) -> Result<(QCond, &'a [Word<'b>]), TextRefusal>
    ensures { Gives (λ x. (tree_of x.0, tokens_of x.1.now)) result
        (spec.and_tail_at depth (tree_of left) (tokens_of words.now)) }
{
    if depth == 0 {
        return Err(TextRefusal::Syntax);
    }
    match after_key(Keyword::And, words) {
        Some(rest) => {
            let (right, rest) = not_at(alloc, depth - 1, rest)?;
            let both = both(alloc, left, right)?;
            and_tail_at(alloc, depth - 1, both, rest)
        }
        None => Ok((left, words)),
    }
}

#[cycle(condition)]
fn not_at<'a, 'b>(
    alloc: Global,
    depth: u32,
    words: &'a [Word<'b>],
) -> Result<(QCond, &'a [Word<'b>]), TextRefusal>
    ensures { Gives (λ x. (tree_of x.0, tokens_of x.1.now)) result (spec.not_at depth (tokens_of words.now)) }
{
    if depth == 0 {
        return Err(TextRefusal::Syntax);
    }
    if let Some(rest) = after_key(Keyword::Not, words) {
        let (inner, rest) = not_at(alloc, depth - 1, rest)?;
        let negated = negated(alloc, inner)?;
        return Ok((negated, rest));
    }
    if let Some(rest) = after_sign(Sign::Open, words) {
        let (inner, rest) = or_at(alloc, depth - 1, rest)?;
        return close_at(inner, rest);
    }
    match column_at(words) {
        Some((is_quoted, spelling, rest)) => leaf_at(alloc, is_quoted, spelling, rest),
        None => Err(TextRefusal::Syntax),
    }
}

/// The condition behind WHERE, if it stands there.
pub fn where_at<'a, 'b>(
    alloc: Global,
    words: &'a [Word<'b>],
) -> Result<(Option<QCond>, &'a [Word<'b>]), TextRefusal>
    ensures { Gives (λ x. (spec.cond_seen x.0, tokens_of x.1.now)) result (spec.where_at (tokens_of words.now)) }
{
    match after_key(Keyword::Where, words) {
        Some(rest) => {
            let (cond, rest) = or_at(alloc, DEPTH, rest)?;
            Ok((Some(cond), rest))
        }
        None => Ok((None, words)),
    }
}
