// New names as words.
ghost use Rattle.std.specs.Prelude.{◌≡◌, OnOk, Ok, map};
ghost use Rattle.prepare_words.specs.Reading.{Gives, rename_of, renames_after, renames_in};
ghost use Rattle.prepare_words.specs.Views.{rename_view, texts_given, texts_of};

use crate::fault::{Fault, Word};
use prepare_rules::Rename;
use std::alloc::Global;

/// The new names that the values of an option give.
pub(crate) fn renames_given<'a>(
    alloc: Global,
    values: Option<&[&'a str]>,
) -> Result<Vec<Rename<'a>>, Fault<'a>>
    ensures { Gives (λ v. map rename_view v.items) result (renames_in (texts_given values.entry)) }
{
    match values {
        Some(values) => renames_in(alloc, values),
        None => Ok(Vec::new(alloc)),
    }
}

fn renames_in<'a>(alloc: Global, values: &[&'a str]) -> Result<Vec<Rename<'a>>, Fault<'a>>
    ensures { Gives (λ v. map rename_view v.items) result (renames_in (texts_of values.now)) }
{
    let mut renames = Vec::new(alloc);
    for i in 0..values.len() {
        renames.push(rename_of(values[i])?)?;
    }
    Ok(renames)
}

// The two names of `OLD=NEW`.
fn rename_of<'a>(value: &'a str) -> Result<Rename<'a>, Fault<'a>>
    ensures { Gives (λ r. (rename_view r)) result (rename_of value.now) }
{
    let word = Word::Rename;
    match value.split_once('=') {
        Some((from, to)) => {
            if to.is_empty() {
                return Err(Fault::Value { word, value });
            }
            Ok(Rename { from, to })
        }
        None => Err(Fault::Value { word, value }),
    }
}
