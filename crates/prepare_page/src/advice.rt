// What coop_cli needs of the columns, as rules of prepare_rules.
ghost use Rattle.std.specs.Prelude.{◌≡◌, ◌&&◌, not};
ghost use Rattle.prepare_page.specs.Advice as spec;

use crate::column::{Sort, has, is_of, some_column};
use prepare_look::{Kind, Survey};

/// Fields that have a decimal comma, or points between thousands.
pub const COMMAS: [Kind; 3] = [Kind::Comma, Kind::PointGroups, Kind::BlankComma];

/// Fields that have a decimal point, or commas between thousands.
pub const POINTS: [Kind; 2] = [Kind::Point, Kind::CommaGroups];

/// What no column of numbers with a decimal comma has.
pub const NO_COMMAS: [Kind; 16] = [
    Kind::Point,
    Kind::CommaGroups,
    Kind::Zeros,
    Kind::Long,
    Kind::Bare,
    Kind::Exponent,
    Kind::FarExponent,
    Kind::Leading,
    Kind::Currency,
    Kind::Percent,
    Kind::IsoDate,
    Kind::DayFirst,
    Kind::MonthFirst,
    Kind::EitherDate,
    Kind::Padded,
    Kind::Text,
];

/// What no column of numbers with a decimal point has.
pub const NO_POINTS: [Kind; 17] = [
    Kind::Comma,
    Kind::PointGroups,
    Kind::BlankComma,
    Kind::Zeros,
    Kind::Long,
    Kind::Bare,
    Kind::Exponent,
    Kind::FarExponent,
    Kind::Leading,
    Kind::Currency,
    Kind::Percent,
    Kind::IsoDate,
    Kind::DayFirst,
    Kind::MonthFirst,
    Kind::EitherDate,
    Kind::Padded,
    Kind::Text,
];

/// Points that part thousands where the comma is the decimal mark.
pub const POINT_PARTS: [Kind; 2] = [Kind::PointGroups, Kind::PointThree];

/// Blanks that do so.
pub const COMMA_BLANKS: [Kind; 2] = [Kind::BlankComma, Kind::BlankGroups];

/// Commas that part thousands where the point is the decimal mark.
pub const COMMA_PARTS: [Kind; 2] = [Kind::CommaGroups, Kind::Either];

/// Blanks that do so.
pub const POINT_BLANKS: [Kind; 1] = [Kind::BlankGroups];

/// Numbers.
pub const NUMBERS: [Kind; 12] = [
    Kind::Whole,
    Kind::Point,
    Kind::PointThree,
    Kind::Zeros,
    Kind::Bare,
    Kind::Exponent,
    Kind::Comma,
    Kind::Either,
    Kind::CommaGroups,
    Kind::PointGroups,
    Kind::BlankGroups,
    Kind::BlankComma,
];

/// Numbers behind which a power of ten stands.
pub const POWERS: [Kind; 1] = [Kind::Exponent];

/// Numbers that have at most nine places once zeros past the ninth are left out.
pub const ZEROS: [Kind; 2] = [Kind::Zeros, Kind::Exponent];

/// Fields with more digits behind the point than `coop_cli` takes.
pub const LONG: [Kind; 2] = [Kind::Long, Kind::FarExponent];

/// What no column of them has.
pub const NOT_LONG: [Kind; 15] = [
    Kind::Comma,
    Kind::PointGroups,
    Kind::BlankComma,
    Kind::CommaGroups,
    Kind::Either,
    Kind::BlankGroups,
    Kind::Leading,
    Kind::Currency,
    Kind::Percent,
    Kind::IsoDate,
    Kind::DayFirst,
    Kind::MonthFirst,
    Kind::EitherDate,
    Kind::Padded,
    Kind::Text,
];

/// What stays a text with a decimal point and nothing that parts thousands.
pub const NOT_IN_POINT: [Kind; 17] = [
    Kind::Comma,
    Kind::PointGroups,
    Kind::BlankComma,
    Kind::CommaGroups,
    Kind::Either,
    Kind::BlankGroups,
    Kind::Long,
    Kind::FarExponent,
    Kind::Leading,
    Kind::Currency,
    Kind::Percent,
    Kind::IsoDate,
    Kind::DayFirst,
    Kind::MonthFirst,
    Kind::EitherDate,
    Kind::Padded,
    Kind::Text,
];

/// The same with commas that part them.
pub const NOT_IN_POINT_COMMAS: [Kind; 15] = [
    Kind::Comma,
    Kind::PointGroups,
    Kind::BlankComma,
    Kind::BlankGroups,
    Kind::Long,
    Kind::FarExponent,
    Kind::Leading,
    Kind::Currency,
    Kind::Percent,
    Kind::IsoDate,
    Kind::DayFirst,
    Kind::MonthFirst,
    Kind::EitherDate,
    Kind::Padded,
    Kind::Text,
];

/// The same with blanks.
pub const NOT_IN_POINT_BLANKS: [Kind; 16] = [
    Kind::Comma,
    Kind::PointGroups,
    Kind::BlankComma,
    Kind::CommaGroups,
    Kind::Either,
    Kind::Long,
    Kind::FarExponent,
    Kind::Leading,
    Kind::Currency,
    Kind::Percent,
    Kind::IsoDate,
    Kind::DayFirst,
    Kind::MonthFirst,
    Kind::EitherDate,
    Kind::Padded,
    Kind::Text,
];

/// What stays a text with a decimal comma and nothing that parts thousands.
pub const NOT_IN_COMMA: [Kind; 20] = [
    Kind::Point,
    Kind::CommaGroups,
    Kind::PointGroups,
    Kind::PointThree,
    Kind::BlankComma,
    Kind::BlankGroups,
    Kind::Zeros,
    Kind::Long,
    Kind::Bare,
    Kind::Exponent,
    Kind::FarExponent,
    Kind::Leading,
    Kind::Currency,
    Kind::Percent,
    Kind::IsoDate,
    Kind::DayFirst,
    Kind::MonthFirst,
    Kind::EitherDate,
    Kind::Padded,
    Kind::Text,
];

/// The same with points that part them.
pub const NOT_IN_COMMA_POINTS: [Kind; 18] = [
    Kind::Point,
    Kind::CommaGroups,
    Kind::BlankComma,
    Kind::BlankGroups,
    Kind::Zeros,
    Kind::Long,
    Kind::Bare,
    Kind::Exponent,
    Kind::FarExponent,
    Kind::Leading,
    Kind::Currency,
    Kind::Percent,
    Kind::IsoDate,
    Kind::DayFirst,
    Kind::MonthFirst,
    Kind::EitherDate,
    Kind::Padded,
    Kind::Text,
];

/// The same with blanks.
pub const NOT_IN_COMMA_BLANKS: [Kind; 18] = [
    Kind::Point,
    Kind::CommaGroups,
    Kind::PointGroups,
    Kind::PointThree,
    Kind::Zeros,
    Kind::Long,
    Kind::Bare,
    Kind::Exponent,
    Kind::FarExponent,
    Kind::Leading,
    Kind::Currency,
    Kind::Percent,
    Kind::IsoDate,
    Kind::DayFirst,
    Kind::MonthFirst,
    Kind::EitherDate,
    Kind::Padded,
    Kind::Text,
];

/// What is written anew with a decimal point.
pub const IN_POINT: [Kind; 4] = [Kind::Missing, Kind::Zeros, Kind::Bare, Kind::Exponent];

/// With commas between thousands.
pub const IN_POINT_COMMAS: [Kind; 6] = [
    Kind::Missing,
    Kind::Zeros,
    Kind::Bare,
    Kind::Exponent,
    Kind::CommaGroups,
    Kind::Either,
];

/// With blanks.
pub const IN_POINT_BLANKS: [Kind; 5] = [
    Kind::Missing,
    Kind::Zeros,
    Kind::Bare,
    Kind::Exponent,
    Kind::BlankGroups,
];

/// With a decimal comma.
pub const IN_COMMA: [Kind; 3] = [Kind::Missing, Kind::Comma, Kind::Either];

/// With a decimal comma and points between thousands.
pub const IN_COMMA_POINTS: [Kind; 5] = [
    Kind::Missing,
    Kind::Comma,
    Kind::Either,
    Kind::PointGroups,
    Kind::PointThree,
];

/// With blanks.
pub const IN_COMMA_BLANKS: [Kind; 5] = [
    Kind::Missing,
    Kind::Comma,
    Kind::Either,
    Kind::BlankGroups,
    Kind::BlankComma,
];

/// How the numbers of an export are read: which byte is the decimal mark, and which parts thousands.
#[derive(Clone, Copy, Debug)]
pub enum Reading {
    Point,
    PointCommaParts,
    PointBlankParts,
    Comma,
    CommaPointParts,
    CommaBlankParts,
}

fn some_of(survey: &Survey, some: &[Kind], none: &[Kind]) -> bool
    ensures { result ≡ spec.some_of survey.now some.now none.now }
{
    some_column(survey, &Sort { some, none })
}

fn with_comma(survey: &Survey) -> Reading
    ensures { result ≡ spec.with_comma survey.now }
{
    if some_of(survey, &POINT_PARTS, &NO_COMMAS) {
        return Reading::CommaPointParts;
    }
    if some_of(survey, &COMMA_BLANKS, &NO_COMMAS) {
        return Reading::CommaBlankParts;
    }
    Reading::Comma
}

fn with_point(survey: &Survey, has_points: bool) -> Reading
    ensures { result ≡ spec.with_point survey.now has_points }
{
    if has_points && some_of(survey, &COMMA_PARTS, &NO_POINTS) {
        return Reading::PointCommaParts;
    }
    if some_of(survey, &POINT_BLANKS, &NO_POINTS) {
        return Reading::PointBlankParts;
    }
    Reading::Point
}

/// How the numbers of an export are read: with a decimal comma where some column of numbers shows one, or points
/// between groups of digits, and none shows a decimal point, or commas between groups.
pub fn reading_of(survey: &Survey) -> Reading
    ensures { result ≡ spec.reading_of survey.now }
{
    let has_points = some_of(survey, &POINTS, &NO_POINTS);
    if has_points {
        return with_point(survey, true);
    }
    if some_of(survey, &COMMAS, &NO_COMMAS) {
        return with_comma(survey);
    }
    with_point(survey, false)
}

impl Reading {
    /// Whether the decimal mark is a comma.
    pub fn has_comma(self) -> bool
        ensures { result ≡ spec.has_comma self }
    {
        matches!(
            self,
            Reading::Comma | Reading::CommaPointParts | Reading::CommaBlankParts
        )
    }

    /// The byte that parts thousands, if there is one.
    pub fn parts(self) -> Option<u8>
        ensures { result ≡ spec.parts self }
    {
        match self {
            Reading::Point | Reading::Comma => None,
            Reading::PointCommaParts => Some(b','),
            Reading::CommaPointParts => Some(b'.'),
            Reading::PointBlankParts | Reading::CommaBlankParts => Some(b' '),
        }
    }

    // What a column of numbers has some of, where it has to be written anew, and what it can't have.
    fn sort(self) -> Sort<'static>
        ensures some { result.some.now ≡ spec.mended self }
        ensures none { result.none.now ≡ spec.barred self }
    {
        match self {
            Reading::Point => Sort {
                some: &IN_POINT,
                none: &NOT_IN_POINT,
            },
            Reading::PointCommaParts => Sort {
                some: &IN_POINT_COMMAS,
                none: &NOT_IN_POINT_COMMAS,
            },
            Reading::PointBlankParts => Sort {
                some: &IN_POINT_BLANKS,
                none: &NOT_IN_POINT_BLANKS,
            },
            Reading::Comma => Sort {
                some: &IN_COMMA,
                none: &NOT_IN_COMMA,
            },
            Reading::CommaPointParts => Sort {
                some: &IN_COMMA_POINTS,
                none: &NOT_IN_COMMA_POINTS,
            },
            Reading::CommaBlankParts => Sort {
                some: &IN_COMMA_BLANKS,
                none: &NOT_IN_COMMA_BLANKS,
            },
        }
    }
}

/// Whether a column is one of numbers, empty fields and marks for missing values, and some number has more than nine
/// digits behind a decimal point.
pub(crate) fn is_long(survey: &Survey, column: usize) -> bool
    ensures { result ≡ spec.is_long survey.now column }
{
    is_of(
        survey,
        column,
        &Sort {
            some: &LONG,
            none: &NOT_LONG,
        },
    )
}

/// Whether the rules on numbers have to act in a column: each field is empty, a mark for a missing value, or a number
/// that is read so; some are numbers, and some have to be written anew.
pub fn needs_rules(survey: &Survey, reading: Reading, column: usize) -> bool
    ensures { result ≡ spec.needs_rules survey.now reading column }
{
    if !is_of(survey, column, &reading.sort()) {
        return false;
    }
    has(survey, column, &NUMBERS)
}

fn acts_on(survey: &Survey, reading: Reading, kinds: &[Kind], column: usize) -> bool
    ensures { result ≡ spec.acts_on survey.now reading kinds.now column }
{
    if !needs_rules(survey, reading, column) {
        return false;
    }
    has(survey, column, kinds)
}

/// Whether the rules on numbers have to act in a column that has fields of one of these kinds.
pub fn act_on(survey: &Survey, reading: Reading, kinds: &[Kind]) -> bool
    ensures { result ≡ spec.act_on survey.now reading kinds.now }
{
    for column in 0..survey.width {
        if acts_on(survey, reading, kinds, column) {
            return true;
        }
    }
    false
}
