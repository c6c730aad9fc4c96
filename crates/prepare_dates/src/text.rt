// A date as text.
ghost use Rattle.std.specs.Prelude.{◌≡◌, ◌<◌};
ghost use Rattle.prepare_dates.specs.Days.{IsOfYears, numbers_of};
ghost use Rattle.prepare_dates.specs.Written.{date_text, digit_at};

use jiff_core::civil::Date;

// The digit of a number at the place that is worth so much.
fn digit_at(worth: u16, number: u16) -> u8
    requires { 0 < worth }
    ensures { result ≡ digit_at worth number }
{
    b'0' + (number / worth % 10) as u8
}

/// The date as YYYY-MM-DD.
pub fn text_of(date: Date) -> [u8; 10]
    requires { IsOfYears date }
    ensures { result ≡ date_text (numbers_of date) }
{
    let year = date.year as u16;
    let (month, day) = (date.month as u16, date.day as u16);
    [
        digit_at(1000, year),
        digit_at(100, year),
        digit_at(10, year),
        digit_at(1, year),
        b'-',
        digit_at(10, month),
        digit_at(1, month),
        b'-',
        digit_at(10, day),
        digit_at(1, day),
    ]
}
