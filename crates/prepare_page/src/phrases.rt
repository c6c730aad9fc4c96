// Kinds of fields in words.
use prepare_look::Kind;

/// All kinds, in the order in which they are told.
pub(crate) const ALL: [Kind; 25] = [
    Kind::Whole,
    Kind::Point,
    Kind::PointThree,
    Kind::Comma,
    Kind::Either,
    Kind::CommaGroups,
    Kind::PointGroups,
    Kind::BlankGroups,
    Kind::BlankComma,
    Kind::Zeros,
    Kind::Long,
    Kind::Bare,
    Kind::Exponent,
    Kind::FarExponent,
    Kind::Leading,
    Kind::Currency,
    Kind::Percent,
    Kind::IsoDate,
    Kind::DayFirst,
    Kind::MonthFirst,
    Kind::EitherDate,
    Kind::Padded,
    Kind::Text,
    Kind::Missing,
    Kind::Empty,
];

/// What fields of a kind are.
pub(crate) fn phrase(kind: Kind) -> &'static str {
    match kind {
        Kind::Empty => "empty",
        Kind::Missing => "marked as missing",
        Kind::Whole => "whole",
        Kind::Point => "with a decimal point",
        Kind::PointThree => "as 1.234",
        Kind::Zeros => "with zeros past the ninth place",
        Kind::Long => "with more than 9 places",
        Kind::Bare => "as .5 or 5.",
        Kind::Exponent => "with an exponent",
        Kind::FarExponent => "with an exponent above 18 or more than 9 places",
        Kind::Comma => "with a decimal comma",
        Kind::Either => "as 1,234",
        Kind::CommaGroups => "with commas between thousands",
        Kind::PointGroups => "with points between thousands",
        Kind::BlankGroups => "with blanks between thousands",
        Kind::BlankComma => "with blanks between thousands and a decimal comma",
        Kind::Leading => "with zeros or a plus in front",
        Kind::Currency => "with a currency",
        Kind::Percent => "with a percent sign",
        Kind::IsoDate => "dates as 2024-12-31",
        Kind::DayFirst => "dates, the day first",
        Kind::MonthFirst => "dates, the month first",
        Kind::EitherDate => "dates, the day or the month first",
        Kind::Padded => "with white space at an end",
        Kind::Text => "texts",
    }
}
