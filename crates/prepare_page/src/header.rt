// Whether the first record holds names.
ghost use Rattle.std.specs.Prelude.{◌≡◌, ◌&&◌, ◌==◌, ◌||◌, not};
ghost use Rattle.std.specs.List.{list_any};
ghost use Rattle.csv.specs.Records.{fields_of};
ghost use Rattle.prepare_look.specs.Kinds.{index_of};
ghost use Rattle.prepare_page.specs.Headers.{first_kind, has_names, is_among, is_under, some_under};

use crate::column::{Sort, is_of};
use csv::ByteRecord;
use prepare_look::{Kind, Survey, field_or_none, kind_of};

/// Numbers and dates.
pub const VALUES: [Kind; 21] = [
    Kind::Whole,
    Kind::Point,
    Kind::PointThree,
    Kind::Zeros,
    Kind::Long,
    Kind::Bare,
    Kind::Exponent,
    Kind::FarExponent,
    Kind::Comma,
    Kind::Either,
    Kind::CommaGroups,
    Kind::PointGroups,
    Kind::BlankGroups,
    Kind::BlankComma,
    Kind::Leading,
    Kind::Currency,
    Kind::Percent,
    Kind::IsoDate,
    Kind::DayFirst,
    Kind::MonthFirst,
    Kind::EitherDate,
];

/// What is neither a number nor a date, nor missing.
pub const WORDS: [Kind; 2] = [Kind::Padded, Kind::Text];

fn is_among(kind: Kind, kinds: &[Kind]) -> bool
    ensures { result ≡ is_among kind kinds.now }
{
    for i in 0..kinds.len() {
        if kind.index() == kinds[i].index() {
            return true;
        }
    }
    false
}

// Whether a column of numbers or dates stands under a field of one of these kinds.
fn is_under(kinds: &[Kind], first: &ByteRecord, survey: &Survey, column: usize) -> bool
    ensures { result ≡ is_under kinds.now (fields_of first.now) survey.now column }
{
    let sort = Sort {
        some: &VALUES,
        none: &WORDS,
    };
    if !is_of(survey, column, &sort) {
        return false;
    }
    is_among(kind_of(field_or_none(first, column)), kinds)
}

// Whether some column does.
fn some_under(kinds: &[Kind], first: &ByteRecord, survey: &Survey) -> bool
    ensures { result ≡ some_under kinds.now (fields_of first.now) survey.now survey.now.width }
{
    for column in 0..survey.width {
        if is_under(kinds, first, survey, column) {
            return true;
        }
    }
    false
}

/// Whether the first record holds names, by what the records below it hold: some column of numbers or dates stands
/// under a text, or none stands under a number or a date.
pub fn has_names(first: &ByteRecord, survey: &Survey) -> bool
    ensures { result ≡ has_names (fields_of first.now) survey.now survey.now.width }
{
    if some_under(&WORDS, first, survey) {
        return true;
    }
    !some_under(&VALUES, first, survey)
}
