// What a field is, by its bytes.
ghost use Rattle.std.specs.Prelude.{◌≡◌, ◌<◌, length};
ghost use Rattle.prepare_look.specs.Kinds as spec;
ghost use Rattle.prepare_look.specs.declared.kind.TheConstants.{KINDS};

use crate::exponent::{has_exponent, is_near};
use crate::missing::is_missing;
use crate::shape::{Shape, shape_of};
use crate::traits::{Traits, traits_of};

/// What a field is. A number may have a minus at its front.
#[derive(Clone, Copy, Debug, PartialEq, Eq)]
pub enum Kind {
    /// No bytes.
    Empty,
    /// A mark for a missing value, as `NA`.
    Missing,
    /// Digits.
    Whole,
    /// A decimal point and 1 to 9 places.
    Point,
    /// The same with three places, where the point could part thousands, as in `1.234`.
    PointThree,
    /// More than 9 places, of which those past the ninth are zeros.
    Zeros,
    /// More than 9 places.
    Long,
    /// A decimal point without digits on one side, as `.5` and `5.`.
    Bare,
    /// An exponent, behind a mantissa with a point or with a sign of its own: it is 18 at most, and the number, written
    /// out, has at most 9 places, or zeros past the ninth.
    Exponent,
    /// The same, of another number.
    FarExponent,
    /// A decimal comma.
    Comma,
    /// Either a decimal comma or parted thousands, as `1,234`.
    Either,
    /// Thousands parted by commas, perhaps with a decimal point.
    CommaGroups,
    /// Thousands parted by points, perhaps with a decimal comma.
    PointGroups,
    /// Thousands parted by blanks, perhaps with a decimal point.
    BlankGroups,
    /// Thousands parted by blanks, with a decimal comma.
    BlankComma,
    /// Digits behind a plus or behind zeros, as in `007`.
    Leading,
    /// A number with the sign of a currency.
    Currency,
    /// A number with a percent sign.
    Percent,
    /// A date as 2024-12-31.
    IsoDate,
    /// A date whose first number is above 12.
    DayFirst,
    /// A date whose second number is above 12.
    MonthFirst,
    /// A date of which either number may be the day.
    EitherDate,
    /// White space at one of its ends.
    Padded,
    /// Anything else.
    Text,
}

/// How many kinds there are.
pub const KINDS: usize = 25;

impl Kind {
    /// Its number, from 0.
    pub fn index(self) -> usize
        ensures value { result ≡ spec.index_of self }
        ensures low { result < KINDS }
    {
        match self {
            Kind::Empty => 0,
            Kind::Missing => 1,
            Kind::Whole => 2,
            Kind::Point => 3,
            Kind::PointThree => 4,
            Kind::Zeros => 5,
            Kind::Long => 6,
            Kind::Bare => 7,
            Kind::Exponent => 8,
            Kind::FarExponent => 9,
            Kind::Comma => 10,
            Kind::Either => 11,
            Kind::CommaGroups => 12,
            Kind::PointGroups => 13,
            Kind::BlankGroups => 14,
            Kind::BlankComma => 15,
            Kind::Leading => 16,
            Kind::Currency => 17,
            Kind::Percent => 18,
            Kind::IsoDate => 19,
            Kind::DayFirst => 20,
            Kind::MonthFirst => 21,
            Kind::EitherDate => 22,
            Kind::Padded => 23,
            Kind::Text => 24,
        }
    }
}

fn counts_groups(shape: &Shape) -> bool
    ensures { result ≡ spec.counts_groups shape.now }
{
    1 <= shape.first && shape.first <= 3 && !shape.is_zero_first
}

// A number of one run, or with a decimal point.
fn of_point(shape: &Shape) -> Kind
    ensures { result ≡ spec.of_point shape.now }
{
    if shape.first == 0 && shape.last == 0 {
        return Kind::Text;
    }
    if shape.is_zero_first && 1 < shape.first {
        return Kind::Leading;
    }
    if shape.first == 0 || shape.last == 0 {
        return Kind::Bare;
    }
    if 9 < shape.last {
        return long_kind(shape);
    }
    if shape.last == 3 && counts_groups(shape) {
        return Kind::PointThree;
    }
    Kind::Point
}

fn long_kind(shape: &Shape) -> Kind
    ensures { result ≡ spec.long_kind shape.now }
{
    if shape.last as u32 <= 9 + shape.zeros as u32 {
        return Kind::Zeros;
    }
    Kind::Long
}

fn of_comma(shape: &Shape) -> Kind
    ensures { result ≡ spec.of_comma shape.now }
{
    if shape.first == 0 || shape.last == 0 {
        return Kind::Text;
    }
    if shape.is_zero_first && 1 < shape.first {
        return Kind::Text;
    }
    if shape.last == 3 && counts_groups(shape) {
        return Kind::Either;
    }
    Kind::Comma
}

fn of_whole(shape: &Shape) -> Kind
    ensures { result ≡ spec.of_whole shape.now }
{
    if shape.first == 0 {
        return Kind::Text;
    }
    if shape.is_zero_first && 1 < shape.first {
        return Kind::Leading;
    }
    Kind::Whole
}

fn of_one_part(shape: &Shape) -> Kind
    ensures { result ≡ spec.of_one_part shape.now }
{
    if shape.first_part == b'.' {
        return of_point(shape);
    }
    if shape.first_part == b',' {
        return of_comma(shape);
    }
    if shape.first_part == b' ' && shape.last == 3 && counts_groups(shape) {
        return Kind::BlankGroups;
    }
    Kind::Text
}

// Whether all parts stand before three digits, or the last is this mark, and digits behind it.
fn ends_well(shape: &Shape, mark: u8) -> bool
    ensures { result ≡ spec.ends_well shape.now mark }
{
    if shape.last_part == shape.first_part {
        return shape.last == 3;
    }
    shape.last_part == mark && 1 <= shape.last && shape.last <= 9
}

fn of_groups(shape: &Shape) -> Kind
    ensures { result ≡ spec.of_groups shape.now }
{
    if shape.first_part == b',' && ends_well(shape, b'.') {
        return Kind::CommaGroups;
    }
    if shape.first_part == b'.' && ends_well(shape, b',') {
        return Kind::PointGroups;
    }
    if shape.first_part == b' ' && ends_well(shape, b'.') {
        return Kind::BlankGroups;
    }
    if shape.first_part == b' ' && ends_well(shape, b',') {
        return Kind::BlankComma;
    }
    Kind::Text
}

fn day_kind(first: u8, second: u8) -> Kind
    ensures { result ≡ spec.day_kind first second }
{
    if first < 1 || 31 < first || second < 1 || 31 < second {
        return Kind::Text;
    }
    if 12 < first && 12 < second {
        return Kind::Text;
    }
    if 12 < first {
        return Kind::DayFirst;
    }
    if 12 < second {
        return Kind::MonthFirst;
    }
    Kind::EitherDate
}

fn is_date_part(part: u8) -> bool
    ensures { result ≡ spec.is_date_part part }
{
    part == b'/' || part == b'-' || part == b'.'
}

// A date: three runs of digits with the same byte between them.
fn of_date(shape: &Shape) -> Kind
    ensures { result ≡ spec.of_date shape.now }
{
    if !is_date_part(shape.first_part) || shape.last_part != shape.first_part {
        return Kind::Text;
    }
    if shape.first == 4 && shape.first_part == b'-' && shape.second == 2 && shape.last == 2 {
        return Kind::IsoDate;
    }
    if 2 < shape.first || 2 < shape.second {
        return Kind::Text;
    }
    if shape.last == 4 || shape.last == 2 {
        return day_kind(shape.first_worth, shape.second_worth);
    }
    Kind::Text
}

fn of_parts(shape: &Shape) -> Kind
    ensures { result ≡ spec.of_parts shape.now }
{
    if shape.is_even && shape.is_grouped && counts_groups(shape) {
        return of_groups(shape);
    }
    if shape.parts == 2 {
        return of_date(shape);
    }
    Kind::Text
}

/// What digits and the bytes between them are.
pub(crate) fn of_shape(shape: &Shape) -> Kind
    ensures { result ≡ spec.of_shape shape.now }
{
    if shape.parts == 0 {
        return of_whole(shape);
    }
    if shape.parts == 1 {
        return of_one_part(shape);
    }
    of_parts(shape)
}

/// What a field is.
pub fn kind_of(field: &[u8]) -> Kind
    ensures { result ≡ spec.kind_of field.now }
{
    if field.len() == 0 {
        return Kind::Empty;
    }
    if is_padded(field) {
        return Kind::Padded;
    }
    if is_missing(field) {
        return Kind::Missing;
    }
    let kind = signed_kind(field);
    if is_text(kind) {
        return marked_kind(field);
    }
    kind
}

// White space at one of its ends.
fn is_padded(field: &[u8]) -> bool
    requires { 0 < length field.now }
    ensures { result ≡ spec.is_padded field.now }
{
    field[0].is_ascii_whitespace() || field[field.len() - 1].is_ascii_whitespace()
}

// A number behind a minus or a plus, or without.
fn signed_kind(field: &[u8]) -> Kind
    ensures { result ≡ spec.signed_kind field.now }
{
    let [first, rest @ ..] = field else {
        return Kind::Text;
    };
    if *first == b'-' {
        return of_shape(&shape_of(rest));
    }
    if *first == b'+' {
        return plus_kind(of_shape(&shape_of(rest)));
    }
    of_shape(&shape_of(field))
}

fn plus_kind(kind: Kind) -> Kind
    ensures { result ≡ spec.plus_kind kind }
{
    if is_text(kind) {
        return Kind::Text;
    }
    Kind::Leading
}

fn is_text(kind: Kind) -> bool
    ensures { result ≡ spec.is_text kind }
{
    matches!(kind, Kind::Text)
}

fn exponent_kind(field: &[u8]) -> Kind
    ensures { result ≡ spec.exponent_kind field.now }
{
    if is_near(field) {
        return Kind::Exponent;
    }
    Kind::FarExponent
}

// A field that is no plain number.
fn marked_kind(field: &[u8]) -> Kind
    ensures { result ≡ spec.marked_kind field.now }
{
    if has_exponent(field) {
        return exponent_kind(field);
    }
    let bytes = traits_of(field);
    if is_currency(&bytes) {
        return Kind::Currency;
    }
    if is_share(&bytes) {
        return Kind::Percent;
    }
    Kind::Text
}

fn is_currency(bytes: &Traits) -> bool
    ensures { result ≡ spec.is_currency bytes.now }
{
    bytes.has_digit && !bytes.has_other && bytes.has_money && !bytes.has_percent
}

fn is_share(bytes: &Traits) -> bool
    ensures { result ≡ spec.is_share bytes.now }
{
    bytes.has_digit && !bytes.has_other && bytes.has_percent && !bytes.has_money
}
