// A field as a date.
ghost use Rattle.std.specs.Prelude.{◌≡◌, ◌<◌, IfSome, option_map};
ghost use Rattle.prepare_dates.specs.Days.{IsOfYears, date_in, date_with, either_end};
ghost use Rattle.prepare_dates.specs.Days.{numbers_of, year_first, year_last};

use crate::number::{is_run, number_in};
use crate::order::Order;
use crate::runs::{Runs, runs_by};
use jiff_core::civil::Date;

// The date with these numbers, if the calendar has it.
fn date_with(year: u16, month: u16, day: u16) -> Option<Date>
    requires year { year < 10000 }
    requires month { month < 100 }
    requires day { day < 100 }
    ensures value { option_map numbers_of result ≡ date_with year month day }
    ensures year_in { IfSome result IsOfYears }
{
    match Date::new(year as i16, month as i8, day as i8) {
        Ok(date) => Some(date),
        Err(_) => None,
    }
}

// Two numbers of one or two digits in their order, and a year of four.
fn year_last(order: Order, runs: Runs<'_>) -> Option<Date>
    ensures value { option_map numbers_of result
        ≡ year_last order runs.entry.first.now runs.entry.second.now runs.entry.last.now }
    ensures year_in { IfSome result IsOfYears }
{
    let year = number_in(4, 4, runs.last)?;
    let first = number_in(1, 2, runs.first)?;
    let second = number_in(1, 2, runs.second)?;
    match order {
        Order::DayFirst => date_with(year, second, first),
        Order::MonthFirst => date_with(year, first, second),
    }
}

// A year of four digits, a month of two and a day of two.
fn year_first(runs: Runs<'_>) -> Option<Date>
    ensures value { option_map numbers_of result
        ≡ year_first runs.entry.first.now runs.entry.second.now runs.entry.last.now }
    ensures year_in { IfSome result IsOfYears }
{
    let year = number_in(4, 4, runs.first)?;
    let month = number_in(2, 2, runs.second)?;
    let day = number_in(2, 2, runs.last)?;
    date_with(year, month, day)
}

fn either_end(order: Order, runs: Runs<'_>) -> Option<Date>
    ensures value { option_map numbers_of result
        ≡ either_end order runs.entry.first.now runs.entry.second.now runs.entry.last.now }
    ensures year_in { IfSome result IsOfYears }
{
    if is_run(4, 4, runs.first) {
        return year_first(runs);
    }
    year_last(order, runs)
}

/// The date that a field is in this order, if it is one: day and month of one or two digits and a year of four, with
/// one of `.`, `/` and `-` between them, twice the same; or a year of four digits, a month and a day of two, with
/// dashes between them, as `2026-01-05`, in either order. The day is one of the Gregorian calendar, from 0000-01-01 to
/// 9999-12-31.
pub fn date_of(order: Order, field: &[u8]) -> Option<Date>
    ensures value { option_map numbers_of result ≡ date_in order field.now }
    ensures year_in { IfSome result IsOfYears }
{
    if let Some(date) = year_last(order, runs_by(b'.', field)) {
        return Some(date);
    }
    if let Some(date) = year_last(order, runs_by(b'/', field)) {
        return Some(date);
    }
    either_end(order, runs_by(b'-', field))
}
