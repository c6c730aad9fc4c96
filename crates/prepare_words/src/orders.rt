// The order of day and month as a word.
ghost use Rattle.std.specs.Prelude.{◌≡◌, option_map};
ghost use Rattle.prepare_words.specs.Reading.{Gives, order_named, order_of};

use crate::fault::{Fault, Word};
use prepare_rules::Order;

// The order that a word names.
fn order_named(text: &str) -> Option<Order>
    ensures { result ≡ order_named text.now }
{
    match text {
        "dmy" => Some(Order::DayFirst),
        "mdy" => Some(Order::MonthFirst),
        _ => None,
    }
}

/// Which of two numbers before a year is the day.
pub(crate) fn order_of<'a>(text: Option<&'a str>) -> Result<Order, Fault<'a>>
    ensures { Gives (λ o. o) result (order_of (option_map (λ s. s.now) text.entry)) }
{
    let Some(value) = text else {
        return Ok(Order::DayFirst);
    };
    match order_named(value) {
        Some(order) => Ok(order),
        None => Err(Fault::Value {
            word: Word::Dates,
            value,
        }),
    }
}
