// What stands behind the condition.

ghost use Rattle.std.specs.Prelude.{◌≡◌};
ghost use Rattle.sql_text.specs.Reading as spec;
ghost use Rattle.sql_text.specs.Reading.{Gives, tail_of};
ghost use Rattle.sql_text.specs.Words.{tokens_of};

use crate::lists::all_at;
use crate::query::QOrder;
use crate::steps::after_key;
use crate::word::Word;
use sql_tokens::{Keyword, TextRefusal};
use std::alloc::Global;
use table_core::Bytes;

/// Keys, or orders and a limit, or nothing.
#[derive(Drop)]
pub struct Tail<'b> {
    pub keys: Vec<Bytes>,
    pub order: Vec<QOrder>,
    /// The digits of the limit.
    pub limit: Option<&'b [u8]>,
}

fn grouped_at<'b>(alloc: Global, words: &[Word<'b>]) -> Result<Tail<'b>, TextRefusal>
    ensures { Gives tail_of result (spec.grouped_at (tokens_of words.now)) }
{
    let Some(rest) = after_key(Keyword::By, words) else {
        return Err(TextRefusal::Syntax);
    };
    let (keys, rest) = all_at(alloc, rest)?;
    match rest {
        [] => Ok(Tail {
            keys,
            order: Vec::new(alloc),
            limit: None,
        }),
        _ => Err(TextRefusal::Syntax),
    }
}

fn limited_at<'b>(
    alloc: Global,
    order: Vec<QOrder>,
    words: &[Word<'b>],
) -> Result<Tail<'b>, TextRefusal>
    ensures { Gives tail_of result (spec.limited_at order.items (tokens_of words.now)) }
{
    match words {
        [Word::Number(digits)] => Ok(Tail {
            keys: Vec::new(alloc),
            order,
            limit: Some(digits),
        }),
        _ => Err(TextRefusal::Syntax),
    }
}

fn ordered_at<'b>(alloc: Global, words: &[Word<'b>]) -> Result<Tail<'b>, TextRefusal>
    ensures { Gives tail_of result (spec.ordered_at (tokens_of words.now)) }
{
    let Some(rest) = after_key(Keyword::By, words) else {
        return Err(TextRefusal::Syntax);
    };
    let (order, rest) = all_at(alloc, rest)?;
    match after_key(Keyword::Limit, rest) {
        Some(rest) => limited_at(alloc, order, rest),
        None => Err(TextRefusal::Syntax),
    }
}

fn keyed_tail<'b>(
    alloc: Global,
    keyword: Keyword,
    words: &[Word<'b>],
) -> Result<Tail<'b>, TextRefusal>
    ensures { Gives tail_of result (spec.keyed_tail keyword (tokens_of words.now)) }
{
    match keyword {
        Keyword::Group => grouped_at(alloc, words),
        Keyword::Order => ordered_at(alloc, words),
        Keyword::Limit => limited_at(alloc, Vec::new(alloc), words),
        _ => Err(TextRefusal::Syntax),
    }
}

/// What stands behind the condition, to the end.
pub fn tail_at<'b>(alloc: Global, words: &[Word<'b>]) -> Result<Tail<'b>, TextRefusal>
    ensures { Gives tail_of result (spec.tail_at (tokens_of words.now)) }
{
    match words {
        [] => Ok(Tail {
            keys: Vec::new(alloc),
            order: Vec::new(alloc),
            limit: None,
        }),
        [Word::Key(keyword), rest @ ..] => keyed_tail(alloc, *keyword, rest),
        _ => Err(TextRefusal::Syntax),
    }
}
