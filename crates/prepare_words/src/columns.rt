// Columns as words.
ghost use Rattle.std.specs.Prelude.{◌≡◌, ◌+◌, nat_le, ◌++◌, ◌≤◌, ◌^◌, IfErr, IfSome, OnOk, Ok, option_map};
ghost use Rattle.prepare_words.specs.Reading.{Fails, Gives, columns_in, columns_of, items_after, items_of, joined};
ghost use Rattle.prepare_words.specs.Reading.{number_of, one_or_name, places_on, range_on};
ghost use Rattle.prepare_words.specs.Items.{Fits, item_view};
ghost use Rattle.prepare_words.specs.Views.{columns_view, texts_given, texts_of};

use crate::fault::{Fault, Word};
use crate::numbers::number_of;
use prepare_rules::Column;
use std::alloc::{AllocError, Global};

/// What stands between two commas.
#[derive(Clone, Copy)]
enum Item<'a> {
    Name(&'a str),
    /// So many places from this one on.
    Places { from: u32, count: u32 },
}

/// The columns that the values of an option name, in their order.
pub(crate) fn columns_given<'a>(
    alloc: Global,
    word: Word,
    values: Option<&[&'a str]>,
) -> Result<Vec<Column<'a>>, Fault<'a>>
    ensures { Gives (λ v. columns_view v.items) result (columns_in word (texts_given values.entry)) }
{
    match values {
        Some(values) => columns_in(alloc, word, values),
        None => Ok(Vec::new(alloc)),
    }
}

fn columns_in<'a>(
    alloc: Global,
    word: Word,
    values: &[&'a str],
) -> Result<Vec<Column<'a>>, Fault<'a>>
    ensures { Gives (λ v. columns_view v.items) result (columns_in word (texts_of values.now)) }
{
    let mut columns = Vec::new(alloc);
    for i in 0..values.len() {
        push_list(word, values[i], &mut columns)?;
    }
    Ok(columns)
}

// Puts the columns of a list behind those that are there.
fn push_list<'a>(word: Word, text: &'a str, columns: &mut Vec<Column<'a>>) -> Result<(), Fault<'a>>
    ensures read { OnOk result (items_after word (columns_view columns.old.items) (items_of text.now)
        ≡ Ok (columns_view columns.new.items)) }
    ensures faulty { IfErr result (λ e.
        Fails e (items_after word (columns_view columns.old.items) (items_of text.now))) }
{
    match text.split_once(',') {
        Some((item, behind)) => {
            push_item(word, item, columns)?;
            push_list(word, behind, columns)?;
            Ok(())
        }
        None => {
            push_item(word, text, columns)?;
            Ok(())
        }
    }
}

// Puts the columns of one item behind those that are there.
fn push_item<'a>(word: Word, item: &'a str, columns: &mut Vec<Column<'a>>) -> Result<(), Fault<'a>>
    ensures read { OnOk result (joined word item.now (columns_view columns.old.items) (columns_of item.now)
        ≡ Ok (columns_view columns.new.items)) }
    ensures faulty { IfErr result (λ e.
        Fails e (joined word item.now (columns_view columns.old.items) (columns_of item.now))) }
{
    match item_of(item) {
        Some(Item::Name(name)) => {
            if columns.len() > 15 {
                return Err(Fault::Value { word, value: item });
            }
            columns.push(Column::Named(name))?;
            Ok(())
        }
        Some(Item::Places { from, count }) => {
            if !is_few(columns.len(), count) {
                return Err(Fault::Value { word, value: item });
            }
            push_places(from, count, columns)?;
            Ok(())
        }
        None => Err(Fault::Value { word, value: item }),
    }
}

// Whether so many more columns are few enough.
fn is_few(before: usize, count: u32) -> bool
    ensures { result ≡ nat_le (before + count) 16 }
{
    let count = count as usize;
    if before > 16 {
        return false;
    }
    count <= 16 - before
}

// Puts so many places behind the columns that are there.
fn push_places<'a>(from: u32, count: u32, columns: &mut Vec<Column<'a>>) -> Result<(), AllocError>
    requires { from + count ≤ 2 ^ 32 }
    ensures { OnOk result (columns_view columns.new.items ≡ columns_view columns.old.items ++ places_on from count) }
{
    for i in 0..count {
        columns.push(Column::Placed(from + i))?;
    }
    Ok(())
}

// What an item names.
fn item_of(item: &str) -> Option<Item<'_>>
    ensures names { option_map item_view result ≡ columns_of item.now }
    ensures fits { IfSome result Fits }
{
    let Some((from, to)) = item.split_once('-') else {
        return one_of(item);
    };
    if let Some(from) = number_of(from)
        && let Some(to) = number_of(to)
    {
        return range_of(from, to);
    }
    Some(Item::Name(item))
}

// A place, or a name.
fn one_of(item: &str) -> Option<Item<'_>>
    ensures names { option_map item_view result ≡ one_or_name (number_of item.now) item.now }
    ensures fits { IfSome result Fits }
{
    if let Some(place) = number_of(item) {
        return range_of(place, place);
    }
    if item.is_empty() {
        return None;
    }
    Some(Item::Name(item))
}

// The places from one to another.
fn range_of<'a>(from: u32, to: u32) -> Option<Item<'a>>
    ensures names { option_map item_view result ≡ range_on from to }
    ensures fits { IfSome result Fits }
{
    if from < 1 || to < from || to - from > 15 {
        return None;
    }
    Some(Item::Places {
        from,
        count: to - from + 1,
    })
}
