// The words of `write`.
ghost use Rattle.std.specs.Prelude.{◌≡◌, IfOk, codes, option_map};
ghost use Rattle.clap.specs.Matches.{found_of};
ghost use Rattle.clap.specs.Walk.{first_of, rows_of};
ghost use Rattle.prepare_words.specs.Reading.{Gives};
ghost use Rattle.prepare_words.specs.Asked.{file_of, lone_date, lone_mark, lone_rule, lone_word, mark_of, writing_of};
ghost use Rattle.prepare_words.specs.Views.{texts_given, texts_of, writing_view};

use crate::bytes::{parts_of, quote_of};
use crate::columns::columns_given;
use crate::delimiter::delimiter_of;
use crate::encodings::encoding_of;
use crate::fault::{Fault, Word};
use crate::found::{is_set, is_there, value_in, values_in};
use crate::numbers::{limit_of, pads_of, skip_of};
use crate::orders::order_of;
use crate::renames::renames_given;
use crate::writing::Writing;
use clap::ArgMatches;
use prepare_rules::Mark;
use std::alloc::{AllocError, Global};

/// What the words of `write` ask for.
#[tactic(auto, unfolding(crate::specs::Asked::writing_of))]
pub(crate) fn writing_of<'a>(
    alloc: Global,
    found: &ArgMatches<'a>,
) -> Result<Writing<'a>, Fault<'a>>
    ensures { Gives (λ w. (writing_view w)) result (writing_of (rows_of (found_of found.now))) }
{
    let file = file_of(value_in(found, "FILE"))?;
    let delimiter = delimiter_of(value_in(found, "delimiter"))?;
    let quote = quote_of(delimiter.byte(), value_in(found, "quote"))?;
    let encoding = encoding_of(value_in(found, "encoding"))?;
    let skip = skip_of(value_in(found, "skip"))?;
    let pads = pads_of(value_in(found, "ragged"))?;
    let mark = mark_of(is_set(found, "decimal-comma"));
    let parts = parts_of(mark, value_in(found, "thousands"))?;
    let limit = limit_of(is_set(found, "round"), value_in(found, "places"))?;
    let order = order_of(value_in(found, "dates"))?;
    if let Some(word) = lone_word(found) {
        return Err(Fault::Alone { word });
    }
    let columns = columns_given(alloc, Word::Columns, values_in(found, "columns"))?;
    let renames = renames_given(alloc, values_in(found, "rename"))?;
    let numbers = columns_given(alloc, Word::Numbers, values_in(found, "numbers"))?;
    let dates = columns_given(alloc, Word::DateColumns, values_in(found, "date-columns"))?;
    let missing = marks_given(alloc, values_in(found, "missing"))?;
    Ok(Writing {
        file,
        is_auto: is_set(found, "auto"),
        is_quiet: is_set(found, "quiet"),
        has_encoding: is_there(found, "encoding"),
        has_delimiter: is_there(found, "delimiter"),
        has_skip: is_there(found, "skip"),
        delimiter,
        quote,
        encoding,
        skip,
        has_names: !is_set(found, "no-header"),
        columns,
        renames,
        numbers,
        dates,
        order,
        missing,
        mark,
        parts,
        exponents: is_set(found, "exponents"),
        limit,
        trims: is_set(found, "trim"),
        pads,
    })
}

/// The file, which clap requires.
pub(crate) fn file_in<'a>(found: &ArgMatches<'a>) -> Result<&'a str, Fault<'a>>
    ensures { Gives (λ s. s.now) result (file_of (first_of (codes "FILE") (rows_of (found_of found.now)))) }
{
    file_of(value_in(found, "FILE"))
}

fn file_of<'a>(text: Option<&'a str>) -> Result<&'a str, Fault<'a>>
    ensures { Gives (λ s. s.now) result (file_of (option_map (λ s. s.now) text.entry)) }
{
    match text {
        Some(file) => Ok(file),
        None => Err(Fault::Value {
            word: Word::File,
            value: "",
        }),
    }
}

// The marks for missing values.
fn marks_given<'a>(alloc: Global, values: Option<&[&'a str]>) -> Result<Vec<&'a str>, AllocError>
    ensures { IfOk result (λ v. texts_of v.items ≡ texts_given values.entry) }
{
    match values {
        Some(values) => Ok(Vec::from_slice(alloc, values)?),
        None => Ok(Vec::new(alloc)),
    }
}

fn mark_of(is_comma: bool) -> Mark
    ensures { result ≡ mark_of is_comma }
{
    if is_comma {
        return Mark::Comma;
    }
    Mark::Point
}

// Rounding to no limit, or the first rule on dates, missing values or numbers that acts nowhere.
fn lone_word(found: &ArgMatches<'_>) -> Option<Word>
    ensures { result ≡ lone_word (rows_of (found_of found.now)) }
{
    if is_set(found, "round") && !is_there(found, "places") {
        return Some(Word::Round);
    }
    lone_date(found)
}

// An order of dates without their columns, or columns without the order, or the first other rule that acts nowhere.
fn lone_date(found: &ArgMatches<'_>) -> Option<Word>
    ensures { result ≡ lone_date (rows_of (found_of found.now)) }
{
    if is_there(found, "dates") && !is_there(found, "date-columns") {
        return Some(Word::Dates);
    }
    if is_there(found, "date-columns") && !is_there(found, "dates") {
        return Some(Word::DateColumns);
    }
    lone_mark(found)
}

// Marks for missing values without columns, or the first rule on numbers that acts nowhere.
fn lone_mark(found: &ArgMatches<'_>) -> Option<Word>
    ensures { result ≡ lone_mark (rows_of (found_of found.now)) }
{
    if is_there(found, "numbers") || is_there(found, "date-columns") {
        return lone_rule(found);
    }
    if is_there(found, "missing") {
        return Some(Word::Missing);
    }
    lone_rule(found)
}

// The first rule on numbers that acts nowhere.
fn lone_rule(found: &ArgMatches<'_>) -> Option<Word>
    ensures { result ≡ lone_rule (rows_of (found_of found.now)) }
{
    if is_there(found, "numbers") {
        return None;
    }
    if is_set(found, "decimal-comma") {
        return Some(Word::DecimalComma);
    }
    if is_there(found, "thousands") {
        return Some(Word::Thousands);
    }
    if is_set(found, "exponents") {
        return Some(Word::Exponents);
    }
    if is_there(found, "places") {
        return Some(Word::Places);
    }
    None
}
