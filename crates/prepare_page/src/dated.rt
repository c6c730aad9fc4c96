// Columns of dates, and which of two numbers is their day.
ghost use Rattle.std.specs.Prelude.{◌≡◌};
ghost use Rattle.prepare_page.specs.Dated.{order_in};

use crate::column::{Sort, is_of};
use crate::marks::{MOST_COLUMNS, MOST_RECORDS};
use csv::ByteRecord;
use prepare_dates::{Order, date_of};
use prepare_look::{Failure, Kind, Marks, Rows, Survey, field_or_none, is_missing, skip_rows};
use std::alloc::{AllocError, Global};

/// Dates whose first number is above 12.
pub const DAY_FIRST: [Kind; 1] = [Kind::DayFirst];

/// Dates whose second number is above 12.
pub const MONTH_FIRST: [Kind; 1] = [Kind::MonthFirst];

/// What no column of dates with the day first has.
pub const NOT_DAY_FIRST: [Kind; 20] = [
    Kind::Whole,
    Kind::Point,
    Kind::PointThree,
    Kind::Zeros,
    Kind::Long,
    Kind::Bare,
    Kind::Exponent,
    Kind::FarExponent,
    Kind::Comma,
    Kind::Either,
    Kind::CommaGroups,
    Kind::PointGroups,
    Kind::BlankGroups,
    Kind::BlankComma,
    Kind::Leading,
    Kind::Currency,
    Kind::Percent,
    Kind::MonthFirst,
    Kind::Padded,
    Kind::Text,
];

/// What no column of dates with the month first has.
pub const NOT_MONTH_FIRST: [Kind; 20] = [
    Kind::Whole,
    Kind::Point,
    Kind::PointThree,
    Kind::Zeros,
    Kind::Long,
    Kind::Bare,
    Kind::Exponent,
    Kind::FarExponent,
    Kind::Comma,
    Kind::Either,
    Kind::CommaGroups,
    Kind::PointGroups,
    Kind::BlankGroups,
    Kind::BlankComma,
    Kind::Leading,
    Kind::Currency,
    Kind::Percent,
    Kind::DayFirst,
    Kind::Padded,
    Kind::Text,
];

/// Columns of dates, from 0, in one order.
#[derive(Drop)]
pub(crate) struct Dated {
    pub order: Order,
    pub columns: Vec<usize>,
}

// The order of the dates in a column, where it is one of dates that tell their order.
fn order_in(survey: &Survey, column: usize) -> Option<Order>
    ensures { result ≡ order_in survey.now column }
{
    let days = Sort {
        some: &DAY_FIRST,
        none: &NOT_DAY_FIRST,
    };
    if is_of(survey, column, &days) {
        return Some(Order::DayFirst);
    }
    let months = Sort {
        some: &MONTH_FIRST,
        none: &NOT_MONTH_FIRST,
    };
    if is_of(survey, column, &months) {
        return Some(Order::MonthFirst);
    }
    None
}

// The order of the first column that has one.
fn first_order(survey: &Survey) -> Order {
    for column in 0..MOST_COLUMNS {
        if let Some(order) = order_in(survey, column) {
            return order;
        }
    }
    Order::DayFirst
}

// The columns of dates in this order, of those that `coop_cli` could take.
fn columns_in(alloc: Global, survey: &Survey, order: Order) -> Result<Vec<usize>, AllocError> {
    let mut columns = Vec::new(alloc);
    for column in 0..MOST_COLUMNS {
        if order_in(survey, column) == Some(order) {
            columns.push(column)?;
        }
    }
    Ok(columns)
}

// Whether `--dates` takes the field.
fn is_taken(order: Order, field: &[u8]) -> bool {
    field.is_empty() || is_missing(field) || date_of(order, field).is_some()
}

// Notes in which of these columns it doesn't take the field of this record.
fn note_row(lost: &mut [bool], dated: &Dated, row: &ByteRecord) {
    for i in 0..dated.columns.len() {
        let field = field_or_none(row, dated.columns[i]);
        if i < lost.len() && !is_taken(dated.order, field) {
            lost[i] = true;
        }
    }
}

// Those of the columns that aren't lost.
fn kept(alloc: Global, dated: &Dated, lost: &[bool]) -> Result<Dated, AllocError> {
    let mut columns = Vec::new(alloc);
    for i in 0..dated.columns.len() {
        if i < lost.len() && !lost[i] {
            columns.push(dated.columns[i])?;
        }
    }
    let order = dated.order;
    Ok(Dated { order, columns })
}

/// The columns of dates in the order of the first one that tells it, behind so many records; those in which some date
/// has a year of two digits, or is none of the calendar, are left out.
pub(crate) fn dated_in(
    alloc: Global,
    marks: Marks,
    text: &[u8],
    skip: usize,
    survey: &Survey,
) -> Result<Dated, Failure> {
    let order = first_order(survey);
    let columns = columns_in(alloc, survey, order)?;
    let dated = Dated { order, columns };
    if dated.columns.is_empty() {
        return Ok(dated);
    }
    let mut lost = vec![in alloc; false; MOST_COLUMNS]?;
    let mut rows = Rows::new(alloc, marks, text);
    let mut row = ByteRecord::new(alloc);
    skip_rows(&mut rows, &mut row, skip)?;
    for _done in 0..MOST_RECORDS {
        match rows.next(&mut row)? {
            Some(_line) => note_row(lost.as_mut_slice(), &dated, &row),
            None => return Ok(kept(alloc, &dated, lost.as_slice())?),
        }
    }
    Err(Failure::TooLong)
}
