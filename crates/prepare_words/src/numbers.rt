// Numbers as words.
ghost use Rattle.std.specs.Prelude.{◌≡◌, option_map};
ghost use Rattle.prepare_words.specs.Reading.{Gives, begins_with_digit, limit_named, limit_of, number_of, pads_of};
ghost use Rattle.prepare_words.specs.Reading.{skip_of};

use crate::fault::{Fault, Word};
use prepare_rules::Limit;

/// The number that digits write, below 2^32.
pub(crate) fn number_of(text: &str) -> Option<u32>
    ensures { result ≡ number_of text.now }
{
    if !begins_with_digit(text) {
        return None;
    }
    match text.parse::<u32>() {
        Ok(number) => Some(number),
        Err(_) => None,
    }
}

fn begins_with_digit(text: &str) -> bool
    ensures { result ≡ begins_with_digit text.now }
{
    match text.as_bytes() {
        [] => false,
        [byte, ..] => byte.is_ascii_digit(),
    }
}

/// How many records are left out.
pub(crate) fn skip_of<'a>(text: Option<&'a str>) -> Result<u32, Fault<'a>>
    ensures { Gives (λ n. n) result (skip_of (option_map (λ s. s.now) text.entry)) }
{
    let Some(value) = text else {
        return Ok(0);
    };
    match number_of(value) {
        Some(number) => Ok(number),
        None => Err(Fault::Value {
            word: Word::Skip,
            value,
        }),
    }
}

// At most nine digits behind the point.
fn limit_named(rounds: bool, text: &str) -> Option<Limit>
    ensures { result ≡ limit_named rounds (number_of text.now) }
{
    match number_of(text) {
        Some(number) => {
            if number <= 9 {
                return Some(Limit {
                    places: number as u8,
                    rounds,
                });
            }
            None
        }
        None => None,
    }
}

/// How many digits stand behind the point at most, where it is said, and whether a number that has more is rounded.
pub(crate) fn limit_of<'a>(rounds: bool, text: Option<&'a str>) -> Result<Option<Limit>, Fault<'a>>
    ensures { Gives (λ l. l) result (limit_of rounds (option_map (λ s. s.now) text.entry)) }
{
    let Some(value) = text else {
        return Ok(None);
    };
    match limit_named(rounds, value) {
        Some(limit) => Ok(Some(limit)),
        None => Err(Fault::Value {
            word: Word::Places,
            value,
        }),
    }
}

/// Whether a record that is too short gets empty fields.
pub(crate) fn pads_of<'a>(text: Option<&'a str>) -> Result<bool, Fault<'a>>
    ensures { Gives (λ b. b) result (pads_of (option_map (λ s. s.now) text.entry)) }
{
    let Some(value) = text else {
        return Ok(false);
    };
    match value {
        "refuse" => Ok(false),
        "pad" => Ok(true),
        _ => Err(Fault::Value {
            word: Word::Ragged,
            value,
        }),
    }
}
