// Numbers and literals.

ghost use Rattle.std.specs.Prelude.{◌≡◌, ◌≤◌, ◌+◌, ◌-◌, ◌*◌, ◌^◌};
ghost use Rattle.sql_text.specs.Reading as spec;
ghost use Rattle.sql_text.specs.Words.{places_of, tokens_of, value_of};

use crate::condition::Literal;
use crate::steps::unquoted;
use crate::word::{Sign, Word};
use sql_tokens::TextRefusal;
use std::alloc::Global;

/// The value with one more digit, where it is at most 2^63.
fn with_digit(value: u64, digit: u8) -> Option<u64>
    requires { value ≤ 2 ^ 63 }
    ensures { result ≡ spec.up_to (2 ^ 63) (10 * value + (digit - 48)) }
{
    if value > (1 << 63) / 10 {
        return None;
    }
    let next = 10 * value + digit.saturating_sub(b'0') as u64;
    if next <= 1 << 63 { Some(next) } else { None }
}

/// The value of digits, a point left out, where it is at most 2^63.
pub fn value(digits: &[u8]) -> Option<u64>
    ensures { result ≡ spec.up_to (2 ^ 63) (value_of digits.now) }
{
    let mut value = 0;
    for b in digits {
        if *b != b'.' {
            match with_digit(value, *b) {
                Some(next) => value = next,
                None => return None,
            }
        }
    }
    Some(value)
}

/// How many bytes stand behind the point.
fn places(mut digits: &[u8]) -> usize
    ensures { result ≡ places_of digits.entry.now }
{
    while let [b, rest @ ..] = digits {
        if *b == b'.' {
            return rest.len();
        }
        digits = rest;
    }
    0
}

/// The number with its sign, if it is one of 64 bits.
fn signed(is_negative: bool, digits: &[u8]) -> Option<i64>
    ensures { result ≡ spec.signed is_negative (value_of digits.now) }
{
    let n = value(digits)?;
    if n < 1 << 63 {
        if is_negative {
            Some(-(n as i64))
        } else {
            Some(n as i64)
        }
    } else if is_negative {
        Some(i64::MIN)
    } else {
        None
    }
}

fn decimal(is_negative: bool, spelling: &[u8]) -> Option<Literal>
    ensures { result ≡ spec.decimal_value is_negative (value_of spelling.now) (places_of spelling.now) }
{
    let places = places(spelling);
    if places > 9 {
        return None;
    }
    match signed(is_negative, spelling) {
        Some(digits) => Some(Literal::Dec {
            digits,
            places: places as u32,
        }),
        None => None,
    }
}

fn number_at<'a, 'b>(is_negative: bool, words: &'a [Word<'b>]) -> Option<(Literal, &'a [Word<'b>])>
    ensures { spec.literal_seen result ≡ spec.number_at is_negative (tokens_of words.now) }
{
    match words {
        [Word::Number(digits), rest @ ..] => match signed(is_negative, digits) {
            Some(value) => Some((Literal::Int(value), rest)),
            None => None,
        },
        [Word::Decimal(spelling), rest @ ..] => match decimal(is_negative, spelling) {
            Some(value) => Some((value, rest)),
            None => None,
        },
        _ => None,
    }
}

/// The literal that comes first.
pub fn literal_at<'a, 'b>(
    alloc: Global,
    words: &'a [Word<'b>],
) -> Result<(Literal, &'a [Word<'b>]), TextRefusal>
    ensures { spec.Gives (λ x. (x.0, tokens_of x.1.now)) result (spec.literal_at (tokens_of words.now)) }
{
    let number = match words {
        [Word::Sign(Sign::Minus), rest @ ..] => number_at(true, rest),
        [Word::Text(text), rest @ ..] => {
            return Ok((Literal::Text(unquoted(alloc, text)?), rest));
        }
        _ => number_at(false, words),
    };
    number.ok_or(TextRefusal::Syntax)
}
