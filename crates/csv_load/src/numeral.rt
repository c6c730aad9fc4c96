// A field as a number of 64 bits with places after a point.
ghost use Rattle.std.specs.Prelude.{◌≡◌, ◌≤◌, ◌<◌, ◌^◌, length, IfSome, MatchOption};
ghost use Rattle.csv_load.specs.Number.{digits_from, is_whole_part, made, number_read, rest_read, unsigned_read};

use crate::number::Number;
use table_core::MOST_PLACES;

/// What the digits at the front are worth after `start`, and what follows them; None where that is beyond 2^63.
fn digits_after(start: u64, text: &[u8]) -> Option<(u64, &[u8])>
    requires { start ≤ 9223372036854775809 }
    ensures { MatchOption result (2 ^ 63 < (digits_from start text.now).0)
        (λ p. (p.0 ≡ (digits_from start text.now).0) × (p.1.now ≡ (digits_from start text.now).1)
        × (p.0 ≤ 9223372036854775809)) }
{
    let mut value = start;
    let mut left = text;
    while let [c, rest @ ..] = left {
        if !c.is_ascii_digit() {
            return Some((value, left));
        }
        if value > 922337203685477580 {
            return None;
        }
        value = value * 10 + (*c - b'0') as u64;
        left = rest;
    }
    Some((value, left))
}

// A number of this sign and these digits, where it has 64 bits.
fn make(minus: bool, size: u64, places: u32) -> Option<Number>
    requires { size ≤ 9223372036854775809 }
    ensures { result ≡ made minus size places }
{
    if minus {
        if size > 9223372036854775808 {
            return None;
        }
        if size == 9223372036854775808 {
            return Some(Number {
                value: i64::MIN,
                places,
                zero_below: false,
            });
        }
        return Some(Number {
            value: -(size as i64),
            places,
            zero_below: size == 0,
        });
    }
    if size >= 9223372036854775808 {
        return None;
    }
    Some(Number {
        value: size as i64,
        places,
        zero_below: false,
    })
}

// Whether a text that goes on for so many bytes after its first digits begins with a whole part.
fn is_whole(text: &[u8], left: usize) -> bool
    ensures { result ≡ is_whole_part text.now left }
{
    match text {
        [] => return false,
        [first, rest @ ..] => return left <= rest.len() && (*first != b'0' || left == rest.len()),
    }
}

// The number whose whole part has been read, with what follows it.
fn rest_of(minus: bool, whole: u64, left: &[u8]) -> Option<Number>
    requires { whole ≤ 9223372036854775809 }
    ensures { result ≡ rest_read minus whole left.now }
{
    match left {
        [] => return make(minus, whole, 0),
        [point, after @ ..] => {
            if *point != b'.' {
                return None;
            }
            let (value, end) = match digits_after(whole, after) {
                Some(pair) => pair,
                None => return None,
            };
            if end.len() == 0 && after.len() > 0 && after.len() < 10 {
                return make(minus, value, after.len() as u32);
            }
            return None;
        }
    }
}

// The number that a text without its sign spells.
fn unsigned(minus: bool, text: &[u8]) -> Option<Number>
    ensures { result ≡ unsigned_read minus text.now }
{
    let (whole, left) = match digits_after(0, text) {
        Some(pair) => pair,
        None => return None,
    };
    if !is_whole(text, left.len()) {
        return None;
    }
    rest_of(minus, whole, left)
}

/// The number that a field spells, where it spells one of 64 bits. It takes no memory.
pub fn number_of(field: &[u8]) -> Option<Number>
    ensures number { result ≡ number_read field.now }
    ensures few { IfSome result (λ n. n.places ≤ MOST_PLACES) }
{
    spelled(field)
}

// The number that a field spells.
fn spelled(field: &[u8]) -> Option<Number>
    ensures { result ≡ number_read field.now }
{
    match field {
        [] => return None,
        [b'-', rest @ ..] => return unsigned(true, rest),
        [_, ..] => return unsigned(false, field),
    }
}
